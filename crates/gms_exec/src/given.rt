//! What an assignment assigns to an element, and how it is written into the state.
ghost use Rattle.std.specs.Prelude.{◌≡◌, ◌∷◌, [], option_map, OnOk};
ghost use Rattle.gq_extended.specs.Meaning.{extended};
ghost use Rattle.gms_ast.specs.declared.expression.Suffix.TheVariants.{Fx};
ghost use Rattle.gms_exec.specs.Given.{number_of_value, bound_of_value, after_given, value_is};
ghost use Rattle.gms_exec.specs.InnerContracts.{given_in, all_given_in};

use gms_ast::Suffix;
use gms_store::Store;
use gms_tuple::Tuple;
use gq_extended::Ext;
use gq_field::ExactField;
use std::alloc::{AllocError, Global};

/// What an assignment assigns to an element.
#[derive(Clone, Copy)]
pub(crate) enum Given<F> {
    /// Whether it is a member of the set.
    Member(bool),
    /// A value.
    Value(Ext<F>),
}

/// The number that a value is; 0 for any other value, which is given to no bound, level or
/// marginal.
fn number<F: ExactField>(value: Ext<F>) -> F
    ensures { F.value result ≡ number_of_value (extended F.value value) }
{
    match value {
        Ext::Number(x) => x,
        _ => F::zero(),
    }
}

/// The bound that a value is: an infinite one is none.
fn bound<F: ExactField>(value: Ext<F>) -> Option<F>
    ensures { option_map F.value result ≡ bound_of_value (extended F.value value) }
{
    match value {
        Ext::Number(x) => Some(x),
        _ => None,
    }
}

/// Writes both bounds and the level of an element.
fn put_fixed<F: ExactField>(
    alloc: Global,
    store: &mut Store<F>,
    name: u32,
    t: &Tuple,
    value: Ext<F>,
) -> Result<(), AllocError>
    ensures { OnOk result (store.new ≡ after_given Fx name ((t.now, value_is (extended F.value value)) ∷ []) store.old) }
{
    let _given = store.given(name);
    let x = number(value);
    store.put_lower(alloc, name, t, Some(x))?;
    store.put_upper(alloc, name, t, Some(x))?;
    store.put_level(alloc, name, t, x)
}

/// Writes a value of an element, by the suffix. A status, which no assignment gives, stays.
fn put_value<F: ExactField>(
    alloc: Global,
    store: &mut Store<F>,
    name: u32,
    suffix: Suffix,
    t: &Tuple,
    value: Ext<F>,
) -> Result<(), AllocError>
    ensures { OnOk result (store.new ≡ after_given suffix name ((t.now, value_is (extended F.value value)) ∷ []) store.old) }
{
    let _given = store.given(name);
    match suffix {
        Suffix::None => store.put(alloc, name, t, value),
        Suffix::Lo => store.put_lower(alloc, name, t, bound(value)),
        Suffix::Up => store.put_upper(alloc, name, t, bound(value)),
        Suffix::L => store.put_level(alloc, name, t, number(value)),
        Suffix::M => store.put_marginal(alloc, name, t, number(value)),
        Suffix::Fx => put_fixed(alloc, store, name, t, value),
        Suffix::ModelStat => Ok(()),
        Suffix::SolveStat => Ok(()),
    }
}

/// Writes what an element is given, in place of its old value.
fn put_given<F: ExactField>(
    alloc: Global,
    store: &mut Store<F>,
    name: u32,
    suffix: Suffix,
    t: &Tuple,
    given: Given<F>,
) -> Result<(), AllocError>
    ensures { OnOk result (store.new ≡ after_given suffix name ((t.now, given_in F.value given) ∷ []) store.old) }
{
    let _given = store.given(name);
    match given {
        Given::Member(on) => store.set_member(alloc, name, t, on),
        Given::Value(value) => put_value(alloc, store, name, suffix, t, value),
    }
}

/// Writes what is assigned to elements of a name, with this suffix, in place of their old values.
pub(crate) fn put_all<F: ExactField>(
    alloc: Global,
    store: &mut Store<F>,
    name: u32,
    suffix: Suffix,
    all: &[(Tuple, Given<F>)],
) -> Result<(), AllocError>
    ensures { OnOk result (store.new ≡ after_given suffix name (all_given_in F.value all.now) store.old) }
{
    let _given = store.given(name);
    for (t, given) in all {
        put_given(alloc, store, name, suffix, t, *given)?;
    }
    Ok(())
}
