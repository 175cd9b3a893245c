//! Reading a saved state: its source, and the state after it.
ghost use Rattle.std.specs.Prelude.{◌≡◌, ◌≤◌, ◌^◌, ◌++◌, ◌∷◌, ℕ, Bool, List, true, length, codes, IfOk};
ghost use Rattle.gms_store.specs.declared.settings.Settings.{Settings as StateSettings};
ghost use Rattle.gms_store.specs.State.{State};
ghost use Rattle.gms_store.specs.Declarations.{declared_state};
ghost use Rattle.gms_save_text.specs.SavedState.{saved_line, source_text, switch_text, settings_line, state_text};
ghost use Rattle.gms_save_text.specs.Validity.{IsSavedOf, are_in_range, declared_symbols};
ghost use Rattle.gms_save_text.specs.Reading.{Finds, HasNone, unplaced};

use crate::fault::ReadFault;
use crate::parts::read_parts;
use crate::reading::{byte_before, count_line, cut, number_before, strip};
use gms_ast::Program;
use gms_store::{Settings, Store};
use gq_field::ExactField;
use std::alloc::Global;

/// The source in the text of a save, and the rest of the text after the source.
///
/// The error `Shape` occurs only if `text` begins like no save.
pub fn read_source(text: &[u8]) -> Result<(&[u8], &[u8]), ReadFault>
    ensures { (source rest : List ℕ) → text.now ≡ saved_line (codes "gams25 save 1") ++ (source_text source ++ rest) →
        Finds result (λ p. (p.0.now ≡ source) × (p.1.now ≡ rest)) }
{
    let first = strip(text, b"gams25 save 1\n")?;
    let digits = strip(first, b"source ")?;
    let (count, following) = count_line(digits)?;
    if count > following.len() {
        return Err(ReadFault::Shape);
    }
    let (source, end) = following.split_at(count);
    let rest = strip(end, b"\n")?;
    Ok((source, rest))
}

/// Whether the switch before a blank is on, and the text after that.
fn switch_before(text: &[u8]) -> Result<(bool, &[u8]), ReadFault>
    ensures { (on : Bool) (rest : List ℕ) → text.now ≡ switch_text on ++ 32 ∷ rest →
        Finds result (λ p. (p.0 ≡ on) × (p.1.now ≡ rest)) }
{
    let (word, rest) = cut(text, b' ')?;
    if word == b"on".as_slice() {
        Ok((true, rest))
    } else if word == b"off".as_slice() {
        Ok((false, rest))
    } else {
        Err(ReadFault::Shape)
    }
}

/// The settings in the first line of a text, with the first solver; the solver's name in it; and
/// the text after it.
fn settings_at(text: &[u8]) -> Result<(Settings, &[u8], &[u8]), ReadFault>
    ensures { (settings : StateSettings) (solver rest : List ℕ) → are_in_range settings ≡ true → HasNone 10 solver →
        text.now ≡ settings_line settings solver ++ rest →
        Finds result (λ p. (p.0 ≡ unplaced settings) × (p.1.now ≡ solver) × (p.2.now ≡ rest)) }
{
    let first = strip(text, b"settings ")?;
    let (limrow, second) = number_before(first, b' ')?;
    let (limcol, third) = number_before(second, b' ')?;
    let (iterlim, fourth) = number_before(third, b' ')?;
    let (decimals, fifth) = byte_before(fourth, b' ')?;
    let (solprint, sixth) = switch_before(fifth)?;
    let (solver, rest) = cut(sixth, b'\n')?;
    let settings = Settings {
        limrow,
        limcol,
        iterlim,
        decimals,
        solprint,
        solver: 0,
    };
    Ok((settings, solver, rest))
}

/// Reads a state of `program` and the name of the solver from `text`, the rest of a save after its
/// source. The program gives the names of the state's symbols.
///
/// If the program has at most 2^32 labels, and `text` is that of a saved state of the program
/// (`IsSavedOf`) with a solver's name, the result is this state and this name. Only the solver's
/// index in the settings becomes 0. In any other case the result may be some state and name, or the
/// error `Shape`. The error `Memory`, out of memory, may always occur. Each result has the
/// program's declarations.
pub fn read_state<'t, F: ExactField>(
    alloc: Global,
    program: &Program<F>,
    text: &'t [u8],
) -> Result<(Store<F>, &'t [u8]), ReadFault>
    ensures state { (labels : ℕ) (loaded : State) (assigned : ℕ → Bool) (state : State) (solver : List ℕ) → labels ≤ 2 ^ 32 →
        IsSavedOf F.limit labels (declared_state program.now) loaded assigned state solver →
        text.now ≡ state_text program.now.names state solver →
        Finds result (λ p. (p.0 ≡ record { symbols = state.symbols; settings = unplaced state.settings }) × (p.1.now ≡ solver)) }
    ensures declared { IfOk result (λ p. declared_symbols p.0 ≡ declared_symbols (declared_state program.now)) }
{
    let mut store = Store::new(alloc, program)?;
    let (settings, solver, parts) = settings_at(text)?;
    store.put_settings(settings);
    let end = read_parts(alloc, &mut store, &program.names, parts)?;
    let rest = strip(end, b"end\n")?;
    if rest.is_empty() {
        Ok((store, solver))
    } else {
        Err(ReadFault::Shape)
    }
}
