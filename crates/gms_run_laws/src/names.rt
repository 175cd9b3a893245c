//! What runs of the same statements in two states and two worlds have in common.
ghost use Rattle.std.specs.Prelude.{◌≡◌, ◌++◌, ℕ, Bool, List, length, None};
ghost use Rattle.gq_number.specs.Number.{Number};
ghost use Rattle.gms_ast.specs.declared.program.Stmt.{Stmt};
ghost use Rattle.gms_ast.specs.Trees.{Tree};
ghost use Rattle.gms_labels.specs.declared.place.Place.{Place};
ghost use Rattle.gms_store.specs.State.{State};
ghost use Rattle.gms_eval.specs.Bindings.{Pairs};
ghost use Rattle.gms_eval.specs.Value.{value};
ghost use Rattle.gms_rows.specs.Affine.{affine};
ghost use Rattle.gms_exec.specs.Run.{World, run_from};
ghost use Rattle.gms_run_laws.specs.Agreeing.{AgreeOn, EndsAlike, HasAll, IsClosed, NameDeclared, SolveAlike};
ghost use Rattle.gms_run_laws.specs.Names.{Each, names_in_tree};
ghost use Rattle.lp_core.specs.declared.answer.Answer.{Answer};

use gq_field::ExactField;

/// The meaning of an expression depends only on the names in it. Let each of these names, and the
/// set of each alias among them, have the same symbol in two states. Then under each binding the
/// expression has in both states the same value or fault (`value`), and the same linear form in
/// the variables or the same fault (`form`).
///
/// GAMS User's Guide, "Data Manipulations with Parameters", "Equations".
pub fn value_laws<F: ExactField>()
    ensures value { (test : ℕ → Bool) (one other : State) (e : Tree F) (binding : Pairs) →
        AgreeOn test one other → Each test (names_in_tree e) → value F.value F.limit other binding e ≡ value F.value F.limit one binding e }
    ensures form { (test : ℕ → Bool) (one other : State) (e : Tree F) (at : Place) (binding : Pairs) →
        AgreeOn test one other → Each test (names_in_tree e) → affine F.value F.limit other at binding e ≡ affine F.value F.limit one at binding e }
{}

/// Two runs of the same statements: one in `world` from the state `first`, and one in the world
/// `other` from `state`. A world is a program and the names of the solvers. The run from `first`
/// has the list `answers` for its solves, and the run from `state` the list `answers ++ following`.
///
/// Let `first` declare each name on which the statements depend, also in the definitions that the
/// models they solve have in `world`, and the set of each alias that it declares. Let `state` have
/// the settings of `first`, and each name that `first` declares, with the same declaration and
/// data. Let the solvers, and the definitions of the solved models, be the same in both worlds. If
/// neither run halts, the run from `state` ends in `state` overlaid with the last state of the run
/// from `first`: names that this last state declares, and the settings, are as in it, other names
/// as in `state`. Both runs use equally many answers. The answers that remain for the run from
/// `state` are those that remain for the run from `first`, then `following`.
///
/// GAMS User's Guide, "Save and Restart", "GAMS Programs".
pub fn frame_laws<F: ExactField>()
    ensures { (world other : World F) (first state : State) (answers following : List (Answer Number)) (statements : List (Stmt F)) →
        SolveAlike world other statements → NameDeclared world first statements → IsClosed first → HasAll state first →
        (run_from F.value F.limit world first answers statements).halted ≡ None →
        (run_from F.value F.limit other state (answers ++ following) statements).halted ≡ None →
        EndsAlike state following (length answers) (run_from F.value F.limit world first answers statements)
        (run_from F.value F.limit other state (answers ++ following) statements) }
{}
