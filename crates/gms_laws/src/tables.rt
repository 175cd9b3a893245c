//! Laws of tables.
ghost use Rattle.std.specs.Prelude.{◌≡◌, ℕ, List, map};
ghost use Rattle.gq_number.specs.Number.{Number};
ghost use Rattle.gms_table.specs.declared.entry.Entry.{Entry};
ghost use Rattle.gms_table.specs.declared.entry.TableLine.{TableLine};
ghost use Rattle.gms_table.specs.declared.fault.TableFault.{TableFault};
ghost use Rattle.gms_table.specs.TableEntries.{IsTable, IsTableFault};
ghost use Rattle.gms_laws.specs.Tables.{meant_entry, HasEntries};

use gq_field::ExactField;

/// The lines of a table have one list of entries or one first fault: never both, and never neither
/// (GAMS User's Guide, "Data Entry: Parameters, Scalars and Tables").
///
/// `before` is the list of the source's labels when the reading of the table begins, and `after`
/// the only list with which it can end. Entries that are read store values of `F`. If each value is
/// replaced by the number that it means, they are the entries of the lines (`seen`).
pub fn table_laws<F: ExactField>()
    ensures seen { (lines : List TableLine) (before after : List (List ℕ)) (entries : List (Entry F)) →
        IsTable F.limit F.value lines before after entries → HasEntries F.limit lines before after (map (meant_entry F.value) entries) }
    ensures one_list { (limit : ℕ) (lines : List TableLine) (before after later : List (List ℕ)) (one other : List (Entry Number)) →
        HasEntries limit lines before after one → HasEntries limit lines before later other → (one ≡ other) × (after ≡ later) }
    ensures one_fault { (limit : ℕ) (lines : List TableLine) (before : List (List ℕ)) (one other : TableFault) →
        IsTableFault limit lines before one → IsTableFault limit lines before other → one ≡ other }
    ensures not_both { (limit : ℕ) (lines : List TableLine) (before after : List (List ℕ)) (entries : List (Entry Number)) (fault : TableFault) →
        HasEntries limit lines before after entries → IsTableFault limit lines before fault → ⊥ }
    ensures not_neither { (limit : ℕ) (lines : List TableLine) (before : List (List ℕ)) →
        ((fault : TableFault) → IsTableFault limit lines before fault → ⊥) →
        (after : List (List ℕ)) × ((entries : List (Entry Number)) × HasEntries limit lines before after entries) }
{}
