//! Laws of sources.
ghost use Rattle.std.specs.Prelude.{◌≡◌, ℕ, List};
ghost use Rattle.gms_parse.specs.declared.fault.SourceFault.{SourceFault};
ghost use Rattle.gms_parse.specs.Outcomes.{ProgramView, HasProgram, IsSourceFault};

/// Under a limit of the size of numbers, each source has exactly one program or exactly one first
/// fault, never both (GAMS User's Guide, "GAMS Programs").
///
/// Programs are compared by views: their names, labels, and trees of statements and tables. So two
/// programs of one source under one limit differ only in where their parts are stored, and in the
/// type of their numbers.
pub fn source_laws()
    ensures one_program { (limit : ℕ) (source : List ℕ) (one other : ProgramView) →
        HasProgram limit source one → HasProgram limit source other → one ≡ other }
    ensures one_fault { (limit : ℕ) (source : List ℕ) (one other : SourceFault) →
        IsSourceFault limit source one → IsSourceFault limit source other → one ≡ other }
    ensures not_both { (limit : ℕ) (source : List ℕ) (view : ProgramView) (fault : SourceFault) →
        HasProgram limit source view → IsSourceFault limit source fault → ⊥ }
    ensures not_neither { (limit : ℕ) (source : List ℕ) → ((fault : SourceFault) → IsSourceFault limit source fault → ⊥) →
        (view : ProgramView) × HasProgram limit source view }
{}
