//! The state in which a program begins.
ghost use Rattle.std.specs.Prelude.{◌≡◌, length, Ok, IfOk, OnOk};
ghost use Rattle.std.specs.List.{fold};
ghost use Rattle.gms_set.specs.Expansion.{expanded};
ghost use Rattle.gms_store.specs.Declarations.{blank_state, names_of, positions_of};
ghost use Rattle.gms_check.specs.InnerLoadable.{AreLoadable, IsLoadable, IsLoadableItem};
ghost use Rattle.gms_check.specs.Loaded.{loaded, IsAccepted};
ghost use Rattle.gms_check.specs.Past.{after_act, with_item};

use gms_ast::{Act, Decl, DeclKind, Program};
use gms_scope::{Data, positions, put_data};
use gms_set::{SetFaultOrMemory, expand};
use gms_store::Store;
use gq_field::ExactField;
use std::alloc::{AllocError, Global};

/// The state in which a run of an accepted program begins: the names that the program declares,
/// with all data of its declarations and no other data. The error is out of memory.
///
/// The program must be accepted: it has no compile error for some list of names of solvers. GAMS
/// User's Guide, "Data Entry: Parameters, Scalars and Tables".
pub fn load<F: ExactField>(alloc: Global, program: &Program<F>) -> Result<Store<F>, AllocError>
    requires { IsAccepted F.value program.now }
    ensures { IfOk result (λ store. store ≡ loaded F.value program.now) }
{
    let mut store = Store::blank(alloc, program.names.len())?;
    load_statements(alloc, &mut store, program)?;
    Ok(store)
}

/// Declares what the statements of an accepted program declare, with its data.
fn load_statements<F: ExactField>(
    alloc: Global,
    store: &mut Store<F>,
    program: &Program<F>,
) -> Result<(), AllocError>
    requires accepted { IsAccepted F.value program.now }
    requires blank { store.old ≡ blank_state (length program.now.names) }
    ensures { OnOk result (store.new ≡ loaded F.value program.now) }
{
    for statement in &program.statements {
        load_act(alloc, store, &statement.act)?;
    }
    Ok(())
}

/// Declares what a statement declares, with its data.
fn load_act<F: ExactField>(
    alloc: Global,
    store: &mut Store<F>,
    act: &Act<F>,
) -> Result<(), AllocError>
    requires { IsLoadable F.value store.old act.now }
    ensures { OnOk result (store.new ≡ after_act F.value store.old act.now) }
{
    match act {
        Act::Declare { kind, items } => load_items(alloc, store, *kind, items.as_slice()),
        act => store.declare_act(alloc, act),
    }
}

/// Declares names with their data.
fn load_items<F: ExactField>(
    alloc: Global,
    store: &mut Store<F>,
    kind: DeclKind,
    items: &[Decl<F>],
) -> Result<(), AllocError>
    requires { AreLoadable F.value kind store.old items.now }
    ensures { OnOk result (store.new ≡ fold (with_item F.value kind) store.old items.now) }
{
    for item in items {
        load_item(alloc, store, kind, item)?;
    }
    Ok(())
}

/// Declares a name with its data.
fn load_item<F: ExactField>(
    alloc: Global,
    store: &mut Store<F>,
    kind: DeclKind,
    item: &Decl<F>,
) -> Result<(), AllocError>
    requires { IsLoadableItem kind store.old item.now }
    ensures { OnOk result (store.new ≡ with_item F.value kind store.old item.now) }
{
    let data = data_of(alloc, store, kind, item)?;
    store.declare(alloc, kind, item.domain.as_slice(), item.named.name)?;
    put_data(alloc, store, item.named.name, &data)
}

/// The data of a name. An accepted program has no error in them.
fn data_of<F: ExactField>(
    alloc: Global,
    store: &Store<F>,
    kind: DeclKind,
    item: &Decl<F>,
) -> Result<Data<F>, AllocError>
    requires { IsLoadableItem kind store.now item.now }
    ensures { IfOk result (λ given. expanded store.now (positions_of kind (names_of item.now.domain)) item.now.items ≡ Ok given.items) }
{
    let positions = positions(alloc, kind, item.domain.as_slice())?;
    match expand(alloc, item.items.as_slice(), &positions, store) {
        Ok(data) => Ok(data),
        Err(SetFaultOrMemory::Memory) => Err(AllocError),
        Err(SetFaultOrMemory::Fault(_)) => Ok(Vec::new(alloc)),
    }
}
