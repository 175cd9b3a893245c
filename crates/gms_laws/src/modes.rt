//! Laws of modes: which tokens are read where.
ghost use Rattle.std.specs.Prelude.{◌≡◌, ℕ, suc, ◌+◌, true, false, List, Ok, Some, None, take, drop};
ghost use Rattle.gms_grammar.specs.declared.kind.Sym.{Sym};
ghost use Rattle.gms_grammar.specs.declared.kind.Sym.TheVariants.{LeftParen, RightParen, Comma, Semicolon, Slash};
ghost use Rattle.gms_grammar.specs.declared.kind.Kind.TheVariants.{Word, Label, Number, Symbol, TableLine};
ghost use Rattle.gms_grammar.specs.declared.lexeme.Lexeme.{Lexeme};
ghost use Rattle.gms_grammar.specs.declared.lexeme.Piece.{Piece};
ghost use Rattle.gms_grammar.specs.declared.lexeme.Piece.TheVariants.{LineEnd, Remark, Token};
ghost use Rattle.gms_lex.specs.declared.keyword.Shape.{Shape};
ghost use Rattle.gms_lex.specs.declared.keyword.Shape.TheVariants.{Parameter};
ghost use Rattle.gms_lex.specs.declared.keyword.Keyword.TheVariants.{Declarer, Table};
ghost use Rattle.gms_lex.specs.declared.mode.Stage.{Stage};
ghost use Rattle.gms_lex.specs.declared.mode.Stage.TheVariants.{Expected, After, Spaced};
ghost use Rattle.gms_lex.specs.declared.mode.Mode.{Mode};
ghost use Rattle.gms_lex.specs.declared.mode.Mode.TheVariants.{Code, Item, Named, Rest, Element, Tail, TableName, TableNamed, TableTexted, TableLines};
ghost use Rattle.gms_lex.specs.declared.mode.LineEnds.TheVariants.{Skipped};
ghost use Rattle.gms_lex.specs.Keywords.{keyword_of, begins_statement};
ghost use Rattle.gms_lex.specs.Longest.{IsCode, has_text};
ghost use Rattle.gms_lex.specs.Modes.{mode_after};
ghost use Rattle.gms_lex.specs.Pieces.{line_ends, piece_at};
ghost use Rattle.gms_laws.specs.Modes.{IsInItem, IsExpected, IsAfterElement, IsLabelExpected, IsEnd, Joins, IsLabelOrSymbol, HasDomain, IsInParentheses, EndsDomain, IsBeforeText, IsBeforeLines};

/// Where in a statement the next token is, by the tokens before it (GAMS User's Guide, "GAMS
/// Programs", data declarations and lists).
///
/// After a `;` the next token is read as code, that is, outside declarations (`code`). After the
/// keyword of a declaration an item begins (`declaration`), and after the keyword `table` a table's
/// name (`table`). A word where an item begins, if no keyword, is the item's name (`name`). After
/// an item's name, domain, text or list, a comma or a line end begins the next item (`item`), a `/`
/// a list (`list`). In a list, outside parentheses, after a label or in the text or value of an
/// element, a `/` ends the list (`list_end`), a comma or a line end the element (`element`). After
/// a label (`label`), a `.`, `..`, `*` or `**` joins another label to it (`joined`).
///
/// Where a label is expected, each token with text is a label or symbol (`labels`), none a number
/// (`never_numbers`): `1990` is a label there. After the labels of a parameter's element and a
/// blank, each token with text is read as in code (`value`), so that `1990` is a number, the
/// element's value. After a number the value is complete (`number`).
pub fn mode_laws()
    ensures code { (mode : Mode) (text : List ℕ) → mode_after mode (Token (Symbol Semicolon)) text ≡ Code }
    ensures declaration { (text : List ℕ) (shape : Shape) → keyword_of text ≡ Some (Declarer shape) → mode_after Code (Token Word) text ≡ Item shape }
    ensures table { (text : List ℕ) → keyword_of text ≡ Some Table → mode_after Code (Token Word) text ≡ TableName }
    ensures name { (text : List ℕ) (shape : Shape) → keyword_of text ≡ None → mode_after (Item shape) (Token Word) text ≡ Named shape }
    ensures item { (mode : Mode) (shape : Shape) (piece : Piece) (text : List ℕ) →
        IsInItem shape mode → IsEnd piece → mode_after mode piece text ≡ Item shape }
    ensures list { (mode : Mode) (shape : Shape) (text : List ℕ) →
        IsInItem shape mode → IsExpected shape (mode_after mode (Token (Symbol Slash)) text) }
    ensures element { (mode : Mode) (shape : Shape) (piece : Piece) (text : List ℕ) →
        IsAfterElement shape mode → IsEnd piece → IsExpected shape (mode_after mode piece text) }
    ensures list_end { (mode : Mode) (shape : Shape) (text : List ℕ) →
        IsAfterElement shape mode → mode_after mode (Token (Symbol Slash)) text ≡ Rest shape }
    ensures label { (shape : Shape) (depth : ℕ) (stage : Stage) (text : List ℕ) →
        IsLabelExpected stage → mode_after (Element shape depth stage) (Token Label) text ≡ Element shape depth After }
    ensures joined { (shape : Shape) (depth : ℕ) (symbol : Sym) (text : List ℕ) →
        Joins symbol → mode_after (Element shape depth After) (Token (Symbol symbol)) text ≡ Element shape depth Expected }
    ensures labels { (shape : Shape) (depth : ℕ) (stage : Stage) (text : List ℕ) (next : Lexeme) →
        IsLabelExpected stage → piece_at (Element shape depth stage) text ≡ Ok next → has_text next.piece ≡ true → IsLabelOrSymbol next.piece }
    ensures never_numbers { (shape : Shape) (depth : ℕ) (stage : Stage) (text : List ℕ) (next : Lexeme) →
        IsLabelExpected stage → piece_at (Element shape depth stage) text ≡ Ok next → next.piece ≡ Token Number → ⊥ }
    ensures value { (text : List ℕ) (next : Lexeme) →
        piece_at (Element Parameter 0 Spaced) text ≡ Ok next → has_text next.piece ≡ true →
        IsCode Label next.piece (take next.length text) (drop next.length text) }
    ensures number { (text : List ℕ) → mode_after (Element Parameter 0 Spaced) (Token Number) text ≡ Tail Parameter }
{}

/// How tokens change the mode in a domain, in parentheses of a list, and in a table (GAMS User's
/// Guide, "GAMS Programs", data declarations, lists and tables). A mode is where in a statement the
/// next token is.
///
/// A `(` after the name of an item or a table begins its domain (`domain`). In the domain each
/// token except `)` and `;`, even a keyword, leaves the mode as it is (`in_domain`); a `)` ends the
/// domain (`domain_end`). In a list a `(` where a label is expected opens parentheses (`opened`),
/// which may be nested; a `)` closes the innermost ones (`closed`). In parentheses each token with
/// text is a label or a symbol (`labels`), and after a comma a label is expected (`comma`). In
/// domains and parentheses a line end ends nothing (`lines`).
///
/// A word other than a keyword after `table` is the table's name (`table_name`). A text may follow
/// the name or the domain (`table_text`). A line end after the name, domain or text begins the
/// table's lines (`table_lines`). After a table line another may follow (`table_line`). No table
/// line begins with the keyword of a statement (`never_statements`). The keyword of a declaration
/// ends the table, and an item of that declaration is next (`table_end`).
pub fn place_laws()
    ensures domain { (named inside after : Mode) (text : List ℕ) →
        HasDomain named inside after → mode_after named (Token (Symbol LeftParen)) text ≡ inside }
    ensures in_domain { (named inside after : Mode) (piece : Piece) (text : List ℕ) →
        HasDomain named inside after → ¬ (EndsDomain piece) → mode_after inside piece text ≡ inside }
    ensures domain_end { (named inside after : Mode) (text : List ℕ) →
        HasDomain named inside after → mode_after inside (Token (Symbol RightParen)) text ≡ after }
    ensures opened { (shape : Shape) (depth : ℕ) (stage : Stage) (text : List ℕ) →
        IsLabelExpected stage → mode_after (Element shape depth stage) (Token (Symbol LeftParen)) text ≡ Element shape (depth + 1) Expected }
    ensures closed { (shape : Shape) (depth : ℕ) (stage : Stage) (text : List ℕ) →
        mode_after (Element shape (suc depth) stage) (Token (Symbol RightParen)) text ≡ Element shape depth After }
    ensures comma { (shape : Shape) (depth : ℕ) (stage : Stage) (text : List ℕ) →
        mode_after (Element shape (suc depth) stage) (Token (Symbol Comma)) text ≡ Element shape (suc depth) Expected }
    ensures labels { (shape : Shape) (depth : ℕ) (stage : Stage) (text : List ℕ) (next : Lexeme) →
        piece_at (Element shape (suc depth) stage) text ≡ Ok next → has_text next.piece ≡ true → IsLabelOrSymbol next.piece }
    ensures lines { (mode : Mode) → IsInParentheses mode → line_ends mode ≡ Skipped }
    ensures table_name { (text : List ℕ) → keyword_of text ≡ None → mode_after TableName (Token Word) text ≡ TableNamed }
    ensures table_text { (mode : Mode) (text : List ℕ) → IsBeforeText mode → mode_after mode Remark text ≡ TableTexted }
    ensures table_lines { (mode : Mode) (text : List ℕ) → IsBeforeLines mode → mode_after mode LineEnd text ≡ TableLines }
    ensures table_line { (text : List ℕ) → mode_after TableLines (Token TableLine) text ≡ TableLines }
    ensures never_statements { (text : List ℕ) (next : Lexeme) →
        piece_at TableLines text ≡ Ok next → next.piece ≡ Token TableLine → begins_statement text ≡ false }
    ensures table_end { (text : List ℕ) (shape : Shape) →
        keyword_of text ≡ Some (Declarer shape) → mode_after TableLines (Token Word) text ≡ Item shape }
{}
