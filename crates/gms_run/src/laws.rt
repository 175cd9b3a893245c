//! Laws of runs.
ghost use Rattle.gms_run.specs.Laws.{RestartsSayTheSame, RunsJoin, RunsAreAnsweredRightly};

/// Let statements be split into first and further ones. Their run is the run of the first ones,
/// followed by the run of the further ones from the state, the events and the remaining answers at
/// the end of the first ones. A run receives a list of solvers' answers, and each solve takes the
/// next answer. If the run of the first statements halts, by a fault, an `abort` or a solve for
/// which no answer remains, the further statements change nothing.
pub fn run_laws()
    ensures { RunsJoin }
{}

/// If `run` executed its input, from the start or from a save, then what each answer says of plans
/// is true of the model as it is written, with the data at the moment of the solve (`plan_laws` of
/// gms_laws). A plan gives each element of a variable a number. It is feasible if it satisfies the
/// model's equations, the bounds of each element that occurs in a row of the model, and those of
/// the objective. Optimal: the answer's levels are feasible, and no feasible plan is better.
/// Infeasible: no plan is feasible. Unbounded: the levels are feasible, and for each number some
/// feasible plan has a better objective. Interrupted in phase 2: the levels are feasible.
/// Interrupted in phase 1, and Refused, say nothing of plans.
pub fn answer_laws()
    ensures { RunsAreAnsweredRightly }
{}

/// Let a run of a source end with Done, and its last state be saved. Let a file be run from this
/// save. Take one long run of the joint source: the saved source, a line with `;`, and the file.
/// All three runs have the same solvers. The long run gets the answers of the saved run, then those
/// of the restarted run. Let it execute the saved source's statements without a halt. Then it shows
/// the events (displays, solves, aborts and faults) of these statements, followed by those of the
/// restarted run, and it ends as the restarted run does. The event of a solve has the index of its
/// answer; for a solve of the file, this index is greater than in the restarted run, by the number
/// of answers of the saved run. Each save of the restarted run is also a save of the long run (GAMS
/// User's Guide, "Save and Restart").
pub fn save_laws()
    ensures { RestartsSayTheSame }
{}
