//! The value of a reference.
ghost use Rattle.std.specs.Prelude.{◌≡◌, option_map};
ghost use Rattle.gq_extended.specs.Meaning.{extended};
ghost use Rattle.gms_store.specs.State.{symbol_of};
ghost use Rattle.gms_eval.specs.Gives.{Gives};
ghost use Rattle.gms_eval.specs.References.{lower_value, upper_value, plain_value, entry_or_zero, read_entry};

use crate::binding::Binding;
use crate::steps::{counted, truth, zero};
use crate::stop::ExecStopOrMemory;
use gms_ast::Suffix;
use gms_labels::Place;
use gms_store::{Store, SymbolKind};
use gms_tuple::Tuple;
use gq_extended::Ext;
use gq_field::ExactField;
use std::alloc::Global;

/// A lower bound; minus infinity if there is none.
fn lower_value<F: ExactField>(bound: Option<F>) -> Ext<F>
    ensures { extended F.value result ≡ lower_value (option_map F.value bound) }
{
    match bound {
        Some(x) => Ext::Number(x),
        None => Ext::MinusInf,
    }
}

/// An upper bound; infinity if there is none.
fn upper_value<F: ExactField>(bound: Option<F>) -> Ext<F>
    ensures { extended F.value result ≡ upper_value (option_map F.value bound) }
{
    match bound {
        Some(x) => Ext::Number(x),
        None => Ext::PlusInf,
    }
}

/// The value of a name without a suffix at a tuple: a set has 1 at its members and 0 at other
/// tuples.
fn plain_value<F: ExactField>(store: &Store<F>, name: u32, tuple: &Tuple) -> Ext<F>
    ensures { extended F.value result ≡ plain_value store.now name (symbol_of store.now name).content tuple.now }
{
    if store.kind_of(store.base(name)) == SymbolKind::Set {
        truth(store.member(name, tuple))
    } else {
        store.value(name, tuple)
    }
}

/// What a reference reads at a tuple.
fn entry_at<F: ExactField>(
    alloc: Global,
    store: &Store<F>,
    at: Place,
    name: u32,
    suffix: Suffix,
    tuple: &Tuple,
    b: &Binding,
) -> Result<Ext<F>, ExecStopOrMemory<F>>
    ensures { Gives F.value (extended F.value) result (read_entry F.limit store.now b.now at name suffix tuple.now) }
{
    match suffix {
        Suffix::None => Ok(plain_value(store, name, tuple)),
        Suffix::Lo => Ok(lower_value(store.lower(name, tuple))),
        Suffix::Up => Ok(upper_value(store.upper(name, tuple))),
        Suffix::L => Ok(Ext::Number(store.level(name, tuple))),
        Suffix::M => Ok(Ext::Number(store.marginal(name, tuple))),
        Suffix::Fx => Ok(zero()),
        Suffix::ModelStat => counted(alloc, at, store.status(name).0 as usize, b),
        Suffix::SolveStat => counted(alloc, at, store.status(name).1 as usize, b),
    }
}

/// The value of a reference by its suffix at the tuple of its indices; 0 if they have none.
#[inline(never)]
pub(crate) fn entry_of<F: ExactField>(
    alloc: Global,
    store: &Store<F>,
    at: Place,
    name: u32,
    suffix: Suffix,
    tuple: Option<Tuple>,
    b: &Binding,
) -> Result<Ext<F>, ExecStopOrMemory<F>>
    ensures { Gives F.value (extended F.value) result (entry_or_zero F.limit store.now b.now at name suffix tuple) }
{
    match tuple {
        Some(tuple) => entry_at(alloc, store, at, name, suffix, &tuple, b),
        None => Ok(zero()),
    }
}
