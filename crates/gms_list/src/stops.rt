//! The stop of a run.
ghost use Rattle.std.specs.Prelude.{◌≡◌, ◌++◌, string_bytes, IfOk};
ghost use Rattle.gms_fmt.specs.Columns.{Appends};
ghost use Rattle.gms_list.specs.ListingText.{pair_text, further_pairs, pairs_text, has_count, count_text, stop_text};
ghost use Rattle.gms_list.specs.Amounts.{line_of};
ghost use Rattle.gms_eval.specs.Gives.{fault_of_stop};

use crate::listing::Listing;
use gms_ast::Program;
use gms_eval::{ExecStop, StopKind};
use gms_fmt::text_of;
use gq_field::ExactField;
use std::alloc::{AllocError, Global};

/// Whether a stop has a count.
fn has_count(kind: StopKind) -> bool
    ensures { result ≡ has_count kind }
{
    matches!(
        kind,
        StopKind::DomainSize | StopKind::TooManyRows | StopKind::TooManyColumns
    )
}

/// The end of the line of a stop: the count, if it has one.
fn count_line(alloc: Global, kind: StopKind, count: u64) -> Result<String, AllocError>
    ensures { IfOk result (λ text. string_bytes text ≡ line_of (count_text kind count)) }
{
    if has_count(kind) {
        format!(in alloc; " count {count}\n")
    } else {
        String::from_str(alloc, "\n")
    }
}

impl Listing {
    /// Appends the line of the stop of a run: its kind and place, the labels of the controlled
    /// sets, and its count of elements, rows or columns if they are too many.
    pub(crate) fn push_stop<F: ExactField>(
        &mut self,
        alloc: Global,
        p: &Program<F>,
        stop: &ExecStop<F>,
    ) -> Result<(), AllocError>
        ensures { Appends result self.old self.new (stop_text p.now.names p.now.labels (fault_of_stop F.value stop.now)) }
    {
        let pairs = stop.binding.pairs();
        let code = stop.kind.code();
        let name = stop.kind.name();
        let row = stop.at.line;
        let column = stop.at.column;
        let head = format!(in alloc;
            "*** Execution error {code} {name} at line {row} column {column}"
        )?;
        let end = count_line(alloc, stop.kind, stop.count)?;
        self.push(head.as_str())?;
        self.push_pairs(alloc, p, pairs)?;
        self.push(end.as_str())
    }

    /// Appends sets with the labels that they stand for.
    fn push_pairs<F: ExactField>(
        &mut self,
        alloc: Global,
        p: &Program<F>,
        pairs: &[(u32, u32)],
    ) -> Result<(), AllocError>
        ensures { Appends result self.old self.new (pairs_text p.now.names p.now.labels pairs.now) }
    {
        match pairs {
            [] => Ok(()),
            [(set, label), further @ ..] => {
                self.push_pair(alloc, p, " with ", *set, *label)?;
                self.push_further(alloc, p, further)
            }
        }
    }

    /// Appends sets with the labels that they stand for, each after a comma.
    fn push_further<F: ExactField>(
        &mut self,
        alloc: Global,
        p: &Program<F>,
        pairs: &[(u32, u32)],
    ) -> Result<(), AllocError>
        ensures { Appends result self.old self.new (further_pairs p.now.names p.now.labels pairs.now) }
    {
        for (set, label) in pairs {
            self.push_pair(alloc, p, ",", *set, *label)?;
        }
        Ok(())
    }

    /// Appends a set and the label that it stands for, after a text.
    fn push_pair<F: ExactField>(
        &mut self,
        alloc: Global,
        p: &Program<F>,
        before: &str,
        set: u32,
        label: u32,
    ) -> Result<(), AllocError>
        ensures { Appends result self.old self.new (before.now ++ pair_text p.now.names p.now.labels (set, label)) }
    {
        let name = text_of(&p.names, set);
        let element = text_of(&p.labels, label);
        let text = format!(in alloc; "{before}{name}={element}")?;
        self.push(text.as_str())
    }
}
