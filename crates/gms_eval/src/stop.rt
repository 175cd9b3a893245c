//! Why an execution stops, and where.
ghost use Rattle.std.specs.Prelude.{◌≡◌};
ghost use Rattle.gq_extended.specs.Meaning.{extended, outcome};
ghost use Rattle.gms_eval.specs.Faults.{stop_code, stop_name, kind_of_step, faulted, nothing, taken};
ghost use Rattle.gms_eval.specs.Gives.{Gives, Shows};
ghost use Rattle.gms_eval.specs.declared.stop.StopKind.TheVariants.{DomainSize};
ghost use Rattle.gms_eval.specs.declared.stop.ExecStopOrMemory.TheVariants.{Memory};

use crate::binding::Binding;
use crate::steps::zero;
use gms_labels::Place;
use gq_extended::{Ext, ExtendedFault};
use gq_field::ExactField;
use std::alloc::{AllocError, AllocFailed, Global};
use thiserror::Error;

/// Why an execution stops: the kind of an execution error. GAMS User's Guide, "GAMS Output",
/// execution errors.
#[derive(Clone, Copy, Debug, Error)]
pub enum StopKind {
    /// A number does not fit under the field's limit.
    #[error("beyond the field's limit")]
    Limit,
    /// A division by 0, or 0 to a negative power.
    #[error("division by zero")]
    Divide,
    /// The amount of a lag is not a whole number.
    #[error("a lag that is not whole")]
    LagNotWhole,
    /// `smin` or `smax` of no values.
    #[error("the smallest or largest of no values")]
    EmptyExtreme,
    /// An exponent that is not a whole number, or exceeds 1,024 in magnitude.
    #[error("an exponent that is not whole or exceeds 1,024")]
    Exponent,
    /// The product of the sets of a domain has over 16,777,216 elements.
    #[error("a domain of over 16,777,216 elements")]
    DomainSize,
    /// The standard form of a linear program has over 1,500 rows.
    #[error("a linear program of over 1,500 rows")]
    TooManyRows,
    /// The standard form of a linear program has over 3,000 columns.
    #[error("a linear program of over 3,000 columns")]
    TooManyColumns,
    /// A solve without a solver.
    #[error("a solve without a solver")]
    NoSolver,
    /// An `abort` statement.
    #[error("stopped by an `abort` statement")]
    Aborted,
    /// An undefined operation, such as an infinity minus itself.
    #[error("an undefined step")]
    Undefined,
}

impl StopKind {
    /// The number of this kind of stop, which a listing shows.
    pub fn code(self) -> u8
        ensures { result ≡ stop_code self }
    {
        match self {
            StopKind::Limit => 1,
            StopKind::Divide => 2,
            StopKind::LagNotWhole => 3,
            StopKind::EmptyExtreme => 4,
            StopKind::Exponent => 5,
            StopKind::DomainSize => 7,
            StopKind::TooManyRows => 8,
            StopKind::TooManyColumns => 9,
            StopKind::NoSolver => 10,
            StopKind::Aborted => 11,
            StopKind::Undefined => 12,
        }
    }

    /// The name of this kind of stop, which a listing shows.
    pub fn name(self) -> &'static str
        ensures { result.now ≡ stop_name self }
    {
        match self {
            StopKind::Limit => "Limit",
            StopKind::Divide => "Divide",
            StopKind::LagNotWhole => "LagNotWhole",
            StopKind::EmptyExtreme => "EmptyExtreme",
            StopKind::Exponent => "Exponent",
            StopKind::DomainSize => "DomainSize",
            StopKind::TooManyRows => "TooManyRows",
            StopKind::TooManyColumns => "TooManyColumns",
            StopKind::NoSolver => "NoSolver",
            StopKind::Aborted => "Aborted",
            StopKind::Undefined => "Undefined",
        }
    }

    /// The kind of the fault of a step on extended numbers.
    fn of_step(fault: ExtendedFault) -> StopKind
        ensures { result ≡ kind_of_step fault }
    {
        match fault {
            ExtendedFault::Limit => StopKind::Limit,
            ExtendedFault::Divide => StopKind::Divide,
            ExtendedFault::Undefined => StopKind::Undefined,
            ExtendedFault::Exponent => StopKind::Exponent,
        }
    }
}

/// A stop of an execution: its kind, its place in the source, the operands of the operation there,
/// and the labels of the sets that are controlled there.
#[derive(Debug, Error)]
#[error("{at}: {code} {name}: {kind}", code = .kind.code(), name = .kind.name())]
pub struct ExecStop<F> {
    /// Why the execution stops.
    pub kind: StopKind,
    /// The place in the source: of the right operand if `+`, `-`, `*`, `/` or `**` stops; of the
    /// amount if a lag stops; otherwise of the first character of the expression, statement or
    /// displayed name that stops.
    pub at: Place,
    /// The sets controlled at the stop, each with its label, outermost first.
    pub binding: Binding,
    /// The left operand of the operation, the amount of the lag, or the value that stops; otherwise
    /// 0.
    pub left: Ext<F>,
    /// The right operand of the operation that stops; 0 if there is none.
    pub right: Ext<F>,
    /// If there are too many elements, rows or columns: the lesser of their number and the greatest
    /// `u64`. For the other kinds of stop: 0.
    pub count: u64,
}

// Written out, so that it is proved once, and not in each crate that drops one.
impl<F: Drop> Drop for ExecStop<F> {
    fn drop(self) {
        let Self {
            kind: _,
            at: _,
            binding: _,
            left: _,
            right: _,
            count: _,
        } = self;
    }
}

/// Why an execution ends early: a stop, or out of memory.
#[derive(Debug, Drop, Error)]
pub enum ExecStopOrMemory<F> {
    /// Out of memory.
    #[error("out of memory")]
    Memory,
    /// The execution stops. The stop is stored on the heap, so that the result of a nested
    /// expression stays small.
    #[error(transparent)]
    Fault(Box<ExecStop<F>>),
}

impl<F> From<AllocError> for ExecStopOrMemory<F> {
    ghost from_gives = { λ _ stop. stop ≡ Memory };

    fn from(_error: AllocError) -> ExecStopOrMemory<F> {
        ExecStopOrMemory::Memory
    }
}

impl<F, T: Drop> From<AllocFailed<T>> for ExecStopOrMemory<F> {
    ghost from_gives = { λ _ stop. stop ≡ Memory };

    fn from(_error: AllocFailed<T>) -> ExecStopOrMemory<F> {
        ExecStopOrMemory::Memory
    }
}

impl<F: ExactField> ExecStopOrMemory<F> {
    /// The stop with these contents, on the heap.
    fn made(
        alloc: Global,
        kind: StopKind,
        at: Place,
        left: Ext<F>,
        right: Ext<F>,
        count: u64,
        b: &Binding,
    ) -> ExecStopOrMemory<F>
        ensures { Shows F.value result (record { kind = kind; at = at; binding = b.now; left = extended F.value left; right = extended F.value right; count = count }) }
    {
        let Ok(binding) = b.copy(alloc) else {
            return ExecStopOrMemory::Memory;
        };
        let stop = ExecStop {
            kind,
            at,
            binding,
            left,
            right,
            count,
        };
        match Box::new(alloc, stop) {
            Ok(stop) => ExecStopOrMemory::Fault(stop),
            Err(_) => ExecStopOrMemory::Memory,
        }
    }

    /// The stop of this kind at an operation on the operands `left` and `right`, at the place `at`,
    /// under the binding `b`; `Memory` if there is no memory for the stop. The stop has the count
    /// 0.
    #[inline(never)]
    pub fn at_step(
        alloc: Global,
        kind: StopKind,
        at: Place,
        left: Ext<F>,
        right: Ext<F>,
        b: &Binding,
    ) -> ExecStopOrMemory<F>
        ensures { Shows F.value result (faulted kind at b.now (extended F.value left) (extended F.value right)) }
    {
        ExecStopOrMemory::made(alloc, kind, at, left, right, 0, b)
    }

    /// The stop of this kind because a domain has `count` elements, or a linear program `count`
    /// rows or columns, at the place `at`, under the binding `b`; `Memory` if there is no memory
    /// for the stop. The operands of the stop are 0.
    #[inline(never)]
    pub fn counted(
        alloc: Global,
        kind: StopKind,
        at: Place,
        count: u64,
        b: &Binding,
    ) -> ExecStopOrMemory<F>
        ensures { Shows F.value result (record { kind = kind; at = at; binding = b.now; left = nothing; right = nothing; count = count }) }
    {
        ExecStopOrMemory::made(alloc, kind, at, zero(), zero(), count, b)
    }

    /// The stop `DomainSize` because the product of a domain's sets has `count` elements, at the
    /// place `at`, under the binding `b`; `Memory` if there is no memory for the stop.
    pub fn too_large(alloc: Global, at: Place, count: u64, b: &Binding) -> ExecStopOrMemory<F>
        ensures { Shows F.value result (record { kind = DomainSize; at = at; binding = b.now; left = nothing; right = nothing; count = count }) }
    {
        ExecStopOrMemory::counted(alloc, StopKind::DomainSize, at, count, b)
    }
}

/// The value in `answer`, the result of an operation on the operands `left` and `right`. If
/// `answer` is a fault, the error is the stop for this fault, with the operands, at the place `at`
/// under the binding `b`, or `Memory` if there is no memory for the stop.
pub fn taken<F: ExactField>(
    alloc: Global,
    at: Place,
    left: Ext<F>,
    right: Ext<F>,
    answer: Result<Ext<F>, ExtendedFault>,
    b: &Binding,
) -> Result<Ext<F>, ExecStopOrMemory<F>>
    ensures { Gives F.value (extended F.value) result
        (taken at b.now (extended F.value left) (extended F.value right) (outcome F.value answer)) }
{
    match answer {
        Ok(value) => Ok(value),
        Err(fault) => Err(ExecStopOrMemory::at_step(
            alloc,
            StopKind::of_step(fault),
            at,
            left,
            right,
            b,
        )),
    }
}
