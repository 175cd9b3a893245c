//! Laws of the grammar. In each, `D` is what a token tells beside its kind, as its place.
ghost use Rattle.std.specs.Prelude.{◌≡◌, ◌↔◌, List, [], ◌++◌};
ghost use Rattle.gms_grammar.specs.declared.terminal.Terminal.{Terminal};
ghost use Rattle.gms_grammar.specs.Grammar.{the, DerivationTree, yield, IsTree, Derives, Begins, Stops};
ghost use Rattle.gms_grammar.specs.Reading.{Found, read, stuck, Reads, Takes};
ghost use Rattle.gms_grammar.specs.GamsGrammar.{Nonterminal, Program, NamedStatement, LoopBody, SetItems, SetItem, ParameterItems, ParameterItem, ScalarItems, ScalarItem, PlainItems, PlainItem, ModelItems, ModelItem, productions};
ghost use Rattle.gms_grammar.specs.PlainGrammar.{plain_program, plain_named, plain_body, plain_items};
ghost use Rattle.gms_grammar.specs.GamsLookAhead.{look_ahead};

/// Laws of derivations. A token is a pair of a terminal and a datum of the type `D`.
///
/// `one_tree`: a nonterminal derives a list of tokens by at most one tree. `stops` and
/// `stops_once`: each list of tokens has exactly one longest prefix that begins a list the
/// nonterminal derives; `stops` requires a value of `D`. The token after this prefix, if any, is
/// the first unexpected one.
pub fn derivation_laws<D>()
    ensures one_tree { (n : Nonterminal) (one other : DerivationTree (Terminal × D)) →
        IsTree productions (the n) one → IsTree productions (the n) other → yield one ≡ yield other → one ≡ other }
    ensures stops { D → (n : Nonterminal) (tokens : List (Terminal × D)) →
        (prefix : List (Terminal × D)) × ((rest : List (Terminal × D)) × Stops productions (the n) tokens prefix rest) }
    ensures stops_once { (n : Nonterminal) (tokens prefix rest other following : List (Terminal × D)) →
        Stops productions (the n) tokens prefix rest → Stops productions (the n) tokens other following → prefix ≡ other }
{}

/// A predictive reader of a nonterminal finds a tree in a list of tokens, or is stuck. It decides
/// by the next token, and never backs up. A token is a terminal and a datum of type `D`; a law that
/// begins with `D` requires a value of `D`.
///
/// `finds`: in each list the reader finds a tree or is stuck. `tree` and `longest`: a found tree is
/// one of the nonterminal, and the tree's tokens are the longest prefix of the list that begins a
/// list the nonterminal derives. `unexpected` and `unfinished`: if the reader is stuck, the tokens
/// read are this longest prefix, and the nonterminal does not derive them, so the next token, if
/// any, is unexpected. `complete`: from the tokens of a tree of the nonterminal the reader reads
/// that tree. `gone_over`: the tokens read at any time are a prefix of the list and begin a list
/// the nonterminal derives.
pub fn reading_laws<D>()
    ensures finds { (n : Nonterminal) (tokens : List (Terminal × D)) →
        (found : Found (Terminal × D)) × Reads productions look_ahead (the n) tokens found }
    ensures tree { (n : Nonterminal) (tokens rest : List (Terminal × D)) (tree : DerivationTree (Terminal × D)) →
        Reads productions look_ahead (the n) tokens (read tree rest) → IsTree productions (the n) tree }
    ensures longest { D → (n : Nonterminal) (tokens rest : List (Terminal × D)) (tree : DerivationTree (Terminal × D)) →
        Reads productions look_ahead (the n) tokens (read tree rest) → Stops productions (the n) tokens (yield tree) rest }
    ensures unexpected { D → (n : Nonterminal) (tokens prefix rest : List (Terminal × D)) →
        Reads productions look_ahead (the n) tokens (stuck prefix rest) → Stops productions (the n) tokens prefix rest }
    ensures unfinished { D → (n : Nonterminal) (tokens prefix rest : List (Terminal × D)) →
        Reads productions look_ahead (the n) tokens (stuck prefix rest) → Derives productions (the n) prefix → ⊥ }
    ensures complete { (n : Nonterminal) (tree : DerivationTree (Terminal × D)) →
        IsTree productions (the n) tree → Reads productions look_ahead (the n) (yield tree) (read tree []) }
    ensures gone_over { D → (n : Nonterminal) (tokens prefix rest : List (Terminal × D)) →
        Takes productions look_ahead (the n) tokens prefix rest → (tokens ≡ prefix ++ rest) × Begins productions (the n) prefix }
{}

/// Some productions let one token decide which alternative to take. The `plain` form of each is
/// easier to understand; both forms derive the same lists of tokens. A token is a terminal and a
/// datum of the type `D`.
pub fn plain_laws<D>()
    ensures program { (tokens : List (Terminal × D)) →
        Derives productions (the Program) tokens ↔ Derives productions plain_program tokens }
    ensures named { (tokens : List (Terminal × D)) →
        Derives productions (the NamedStatement) tokens ↔ Derives productions plain_named tokens }
    ensures body { (tokens : List (Terminal × D)) →
        Derives productions (the LoopBody) tokens ↔ Derives productions plain_body tokens }
    ensures sets { (tokens : List (Terminal × D)) →
        Derives productions (the SetItems) tokens ↔ Derives productions (plain_items SetItem) tokens }
    ensures parameters { (tokens : List (Terminal × D)) →
        Derives productions (the ParameterItems) tokens ↔ Derives productions (plain_items ParameterItem) tokens }
    ensures scalars { (tokens : List (Terminal × D)) →
        Derives productions (the ScalarItems) tokens ↔ Derives productions (plain_items ScalarItem) tokens }
    ensures variables { (tokens : List (Terminal × D)) →
        Derives productions (the PlainItems) tokens ↔ Derives productions (plain_items PlainItem) tokens }
    ensures models { (tokens : List (Terminal × D)) →
        Derives productions (the ModelItems) tokens ↔ Derives productions (plain_items ModelItem) tokens }
{}
