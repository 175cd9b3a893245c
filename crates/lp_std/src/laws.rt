//! How a standard form relates to its program: a law on a function with an empty body.
ghost use Rattle.std.specs.Prelude.{◌≡◌, ◌↔◌, ℕ, List};
ghost use Rattle.gq_number.specs.Number.{Number};
ghost use Rattle.lp_core.specs.declared.program.Lp.{Lp};
ghost use Rattle.lp_core.specs.Sums.{value_of_column};
ghost use Rattle.lp_core.specs.Feasible.{Feasible};
ghost use Rattle.lp_core.specs.WellFormed.{IsWellFormed};
ghost use Rattle.lp_core.specs.StandardForm.{standard_form, point_of, directed};
ghost use Rattle.lp_std.specs.Points.{AreAtLeastZero, KeepsRows, objective_at};

use gq_field::ExactField;

/// A standard form and its linear program have the same points: values, at least 0, of the form's
/// variables satisfy its rows exactly if the point that they express is feasible. The objective of
/// the form is the program's, negated when minimizing (Chvatal, Linear Programming, chapter 1).
pub fn same_points<F: ExactField>()
    ensures points { (lp : Lp F) (y : List Number) → IsWellFormed F.value lp → AreAtLeastZero y →
        KeepsRows (standard_form F.value lp) y ↔ Feasible F.value lp (point_of (standard_form F.value lp) y) }
    ensures objective { (lp : Lp F) (y : List Number) → IsWellFormed F.value lp →
        objective_at (standard_form F.value lp) y
        ≡ directed lp.maximize (value_of_column (point_of (standard_form F.value lp) y) lp.objective) }
{}
