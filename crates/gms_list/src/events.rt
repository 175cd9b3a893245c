//! The text of an event.
ghost use Rattle.std.specs.Prelude.{◌^◌, ◌-◌, map};
ghost use Rattle.gms_fmt.specs.Columns.{Appends};
ghost use Rattle.gq_frac.specs.Frac.{frac_value};
ghost use Rattle.gms_event.specs.EventView.{event_in};
ghost use Rattle.lp_core.specs.Numbers.{answer_numbers};
ghost use Rattle.gms_list.specs.ListingText.{event_text};
ghost use Rattle.gms_list.specs.Conditions.{IsListable};

use crate::listing::Listing;
use crate::solves::Solved;
use gms_ast::Program;
use gms_event::Event;
use gq_field::ExactField;
use gq_frac::Frac;
use lp_core::Answer;
use std::alloc::{AllocError, Global};

impl Listing {
    /// Appends the text of the event `e` of a run of the program `p` or, out of memory, a prefix of
    /// it. `answers` are the answers of the run's solves, in order; a solve without one has no
    /// text. Numerators and denominators are at most 2^127 - 1.
    ///
    /// Each item of a display or an abort must have at most 8 decimals. The linear program of a
    /// solve must be well-formed. Its answer, if any, must have a certificate if it is optimal,
    /// infeasible or unbounded, and a level for each column and row if it is interrupted in phase
    /// 2.
    pub fn event(
        &mut self,
        alloc: Global,
        p: &Program<Frac>,
        e: &Event<Frac>,
        answers: &[Answer<Frac>],
    ) -> Result<(), AllocError>
        requires { IsListable frac_value answers.now e.now }
        ensures { Appends result self.old self.new
            (event_text p.now.names p.now.labels (2 ^ 127 - 1) (map (answer_numbers frac_value) answers.now)
            (event_in frac_value e.now)) }
    {
        match e {
            Event::Display { line, items } => self.push_items(alloc, p, *line, items.as_slice()),
            Event::Abort { line, items } => self.push_items(alloc, p, *line, items.as_slice()),
            Event::Fault(stop) => self.push_stop(alloc, p, stop),
            Event::Solve {
                line,
                model,
                equations,
                lp,
                answer,
                solver,
                settings,
                objective_level,
            } => {
                let solved = Solved {
                    line: *line,
                    model: *model,
                    equations: equations.as_slice(),
                    lp,
                    solver: solver.as_slice(),
                    settings: *settings,
                    objective_level: *objective_level,
                };
                match answers.get(*answer) {
                    Some(answer) => self.push_solve(alloc, p, &solved, answer),
                    None => Ok(()),
                }
            }
        }
    }
}
