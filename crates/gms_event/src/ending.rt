//! How the end of a solve counts for its model and its solver.
ghost use Rattle.std.specs.Prelude.{◌≡◌};
ghost use Rattle.gms_event.specs.Endings.{solve_status};

use gms_store::SolveStatus;
use lp_core::End;

/// The status of a model `m` after a solve, by how the search for the answer of its linear program
/// ended (`end`). Optimal, Unbounded and Infeasible give the status of that name. Interrupted gives
/// Intermediate in phase 1, else Feasible. Refused gives Unanswered.
///
/// The status has a number each for `m.modelstat` and `m.solvestat`, and texts that the listing
/// shows. GAMS User's Guide, "GAMS Output", model status and solver status.
pub fn solve_status<F>(end: &End<F>) -> SolveStatus
    ensures { result ≡ solve_status end.now }
{
    match end {
        End::Optimal { .. } => SolveStatus::Optimal,
        End::Unbounded { .. } => SolveStatus::Unbounded,
        End::Infeasible { .. } => SolveStatus::Infeasible,
        End::Interrupted { phase: 1, .. } => SolveStatus::Intermediate,
        End::Interrupted { .. } => SolveStatus::Feasible,
        End::Refused { .. } => SolveStatus::Unanswered,
    }
}
