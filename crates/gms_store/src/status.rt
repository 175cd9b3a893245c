//! How the last solve of a model ended.
ghost use Rattle.std.specs.Prelude.{◌≡◌};
ghost use Rattle.gms_store.specs.Statuses.{model_number, model_text, solver_number, solver_text};

/// How a model's last solve ended, if any. Each variant has two numbers, each with a text: the
/// model's status, `m.modelstat`, and the solver's, `m.solvestat`. GAMS User's Guide, "GAMS
/// Output", model status and solver status.
#[derive(Clone, Copy, Debug, PartialEq, Eq)]
pub enum SolveStatus {
    /// The model was not solved yet.
    Unsolved,
    /// An optimum was found.
    Optimal,
    /// The objective has no bound.
    Unbounded,
    /// There is no feasible point.
    Infeasible,
    /// The limit of pivots was reached before a feasible point.
    Intermediate,
    /// The limit of pivots was reached at a feasible point that is not optimal.
    Feasible,
    /// The solver gave up.
    Unanswered,
}

impl SolveStatus {
    /// The number of the model's status, `m.modelstat`; 0 before a solve.
    pub fn model_number(self) -> u8
        ensures { result ≡ model_number self }
    {
        match self {
            SolveStatus::Unsolved => 0,
            SolveStatus::Optimal => 1,
            SolveStatus::Unbounded => 3,
            SolveStatus::Infeasible => 4,
            SolveStatus::Intermediate => 6,
            SolveStatus::Feasible => 7,
            SolveStatus::Unanswered => 13,
        }
    }

    /// The number of the solver's status, `m.solvestat`; 0 before a solve.
    pub fn solver_number(self) -> u8
        ensures { result ≡ solver_number self }
    {
        match self {
            SolveStatus::Unsolved => 0,
            SolveStatus::Optimal | SolveStatus::Unbounded | SolveStatus::Infeasible => 1,
            SolveStatus::Intermediate | SolveStatus::Feasible => 2,
            SolveStatus::Unanswered => 4,
        }
    }

    /// The text of the model's status, as a listing shows it after the number of this status.
    pub fn model_text(self) -> &'static str
        ensures { result.now ≡ model_text self }
    {
        match self {
            SolveStatus::Unsolved => "Not Solved",
            SolveStatus::Optimal => "Optimal",
            SolveStatus::Unbounded => "Unbounded",
            SolveStatus::Infeasible => "Infeasible",
            SolveStatus::Intermediate => "Intermediate Infeasible",
            SolveStatus::Feasible => "Intermediate Nonoptimal",
            SolveStatus::Unanswered => "Error No Solution",
        }
    }

    /// The text of the solver's status, as a listing shows it after the number of this status.
    pub fn solver_text(self) -> &'static str
        ensures { result.now ≡ solver_text self }
    {
        match self {
            SolveStatus::Unsolved => "Not Run",
            SolveStatus::Optimal | SolveStatus::Unbounded | SolveStatus::Infeasible => {
                "Normal Completion"
            }
            SolveStatus::Intermediate | SolveStatus::Feasible => "Iteration Interrupt",
            SolveStatus::Unanswered => "Terminated By Solver",
        }
    }
}
