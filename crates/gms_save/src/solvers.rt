//! The solvers that a program chooses and a save names.
ghost use Rattle.std.specs.Prelude.{◌≡◌, ◌++◌, ◌<◌, ◌^◌, ◌==◌, codes, flat_map, length, map, position, string_bytes, Some, None, IfOk, OnOk, if◌then◌else◌};
ghost use Rattle.std.specs.Str.{str_eq_ignore_ascii_case};
ghost use Rattle.gms_save.specs.Saves.{option_solvers, place_of_solver, solvers_chosen, solvers_in};

use gms_ast::{Act, Program, Sequence, Setting, Stmt, Word};
use gq_frac::Frac;
use std::alloc::{AllocError, Global};

/// The names of solvers to which the option statements of a program set `lp`, in order.
pub(crate) fn solvers_chosen(
    alloc: Global,
    program: &Program<Frac>,
) -> Result<Vec<Sequence<u8>>, AllocError>
    ensures { IfOk result (λ names. names.items ≡ solvers_chosen program.now) }
{
    let mut names = Vec::new(alloc);
    push_chosen(alloc, &program.statements, &mut names)?;
    Ok(names)
}

/// Appends the names of solvers that some statements choose.
#[cycle(chosen)]
fn push_chosen(
    alloc: Global,
    statements: &[Stmt<Frac>],
    names: &mut Vec<Sequence<u8>>,
) -> Result<(), AllocError>
    ensures { OnOk result (names.new.items ≡ names.old.items ++ flat_map solvers_in statements.now) }
{
    for statement in statements {
        push_chosen_by(alloc, statement, names)?;
    }
    Ok(())
}

/// Appends the names of solvers that a statement chooses; of a loop those that its body chooses.
#[cycle(chosen)]
fn push_chosen_by(
    alloc: Global,
    statement: &Stmt<Frac>,
    names: &mut Vec<Sequence<u8>>,
) -> Result<(), AllocError>
    ensures { OnOk result (names.new.items ≡ names.old.items ++ solvers_in statement.now) }
{
    match &statement.act {
        Act::Options { settings } => push_options(alloc, settings.as_slice(), names),
        Act::Loop { body, .. } => push_chosen(alloc, body, names),
        _ => Ok(()),
    }
}

/// Appends the names that options give to `lp`.
fn push_options(
    alloc: Global,
    settings: &[(Word, Setting<Frac>)],
    names: &mut Vec<Sequence<u8>>,
) -> Result<(), AllocError>
    ensures { OnOk result (names.new.items ≡ names.old.items ++ flat_map option_solvers settings.now) }
{
    for (word, setting) in settings {
        push_option(alloc, word, setting, names)?;
    }
    Ok(())
}

/// Appends the name that an option gives to `lp`, if it does.
fn push_option(
    alloc: Global,
    word: &Word,
    setting: &Setting<Frac>,
    names: &mut Vec<Sequence<u8>>,
) -> Result<(), AllocError>
    ensures { OnOk result (names.new.items ≡ names.old.items ++ option_solvers (word.now, setting.now)) }
{
    let Setting::Name(name) = setting else {
        return Ok(());
    };
    if !is_for_solver(word) {
        return Ok(());
    }
    let copy = Vec::from_slice(alloc, name.text.as_slice())?;
    names.push(Sequence::new(copy))?;
    Ok(())
}

/// Whether a word is the option that chooses the solver of a linear program, letter case ignored.
fn is_for_solver(word: &Word) -> bool
    ensures { result ≡ str_eq_ignore_ascii_case word.now.text (codes "lp") }
{
    word.text.as_slice().eq_ignore_ascii_case(b"lp".as_slice())
}

/// The index of a save's solver in the list of solvers: that of the first with its name, letter
/// case ignored; `None` if there is none. A save has the name `none` if there was no solver; it is
/// accepted, as index 0, only if the list is empty.
pub(crate) fn place_of_solver(solvers: &[String], solver: &[u8]) -> Option<u32>
    requires { length solvers.now < 2 ^ 32 }
    ensures { result ≡ place_of_solver (map string_bytes solvers.now) solver.now }
{
    if solver == b"none".as_slice() {
        return place_of_none(solvers);
    }
    place_of_name(solvers, solver)
}

/// The first place, if there are no solvers.
fn place_of_none(solvers: &[String]) -> Option<u32>
    ensures { result ≡ (if length solvers.now == 0 then Some 0 else None) }
{
    if solvers.is_empty() { Some(0) } else { None }
}

/// The place of the first solver of a name, letter case ignored.
fn place_of_name(solvers: &[String], name: &[u8]) -> Option<u32>
    requires { length solvers.now < 2 ^ 32 }
    ensures { result ≡ position (λ other. str_eq_ignore_ascii_case other name.now) (map string_bytes solvers.now) }
{
    for (place, solver) in solvers.iter().enumerate() {
        if has_name(solver, name) {
            return Some(place as u32);
        }
    }
    None
}

/// Whether a solver has a name, letter case ignored.
fn has_name(solver: &String, name: &[u8]) -> bool
    ensures { result ≡ str_eq_ignore_ascii_case (string_bytes solver.now) name.now }
{
    solver.as_bytes().eq_ignore_ascii_case(name)
}
