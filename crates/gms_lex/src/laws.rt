//! Laws of tokens.
ghost use Rattle.std.specs.Prelude.{◌≡◌, ◌<◌, ◌≤◌, ℕ, List, Result, Ok, Err, All, length, take, true};
ghost use Rattle.gms_grammar.specs.Lines.{code_text};
ghost use Rattle.gms_grammar.specs.declared.lexeme.Lexeme.{Lexeme};
ghost use Rattle.gms_grammar.specs.declared.lexeme.Misread.{Misread};
ghost use Rattle.gms_lex.specs.declared.mode.Mode.{Mode};
ghost use Rattle.gms_lex.specs.declared.token.Token.{Token};
ghost use Rattle.gms_lex.specs.declared.fault.LexFault.{LexFault};
ghost use Rattle.gms_lex.specs.Apart.{AreApart, IsBreak, IsOneLineEnd, break_of};
ghost use Rattle.gms_lex.specs.Longest.{IsLongest, IsRefusedPiece, has_text};
ghost use Rattle.gms_lex.specs.Pieces.{piece_at};
ghost use Rattle.gms_lex.specs.Places.{IsEarlier, place_of_byte};
ghost use Rattle.gms_lex.specs.Tokens.{Means, IsTokens};
ghost use Rattle.gms_lex.specs.TokenTexts.{IsPlaced};

/// Each source has exactly one meaning: its list of tokens, or its first fault. A later byte has a
/// later place.
///
/// The text before a token determines its mode, which says what may follow. Each token except line
/// ends and the end of the source, and each descriptive text, is the longest that its mode allows:
/// `**` is one token in code or lists. Where a token may begin, there is an error only if the mode
/// allows nothing there, or if the longest text that it allows has over 63 bytes, quotation marks
/// not counted, or a byte that is not ASCII.
///
/// Only blanks, line ends, comments, control lines and descriptive texts come between two tokens. A
/// line end is a token exactly if it may end an item of a declaration or an element of a list in
/// its mode, and the first byte after blanks, line ends, comments and control lines exists and is
/// no `/` or `,` nor, after an item, `;`. GAMS User's Guide, "Language Items" and "GAMS Programs".
pub fn token_laws()
    ensures there_is_one { (source : List ℕ) → (meaning : Result (List Token) LexFault) × Means source meaning }
    ensures only_one { (source : List ℕ) (one other : Result (List Token) LexFault) →
        Means source one → Means source other → one ≡ other }
    ensures places_in_order { (source : List ℕ) (m n : ℕ) →
        m < n → n ≤ length source → IsEarlier (place_of_byte source m) (place_of_byte source n) }
    ensures longest { (mode : Mode) (text : List ℕ) (piece : Lexeme) →
        piece_at mode text ≡ Ok piece → has_text piece.piece ≡ true → IsLongest mode text piece }
    ensures refused { (mode : Mode) (text : List ℕ) (misread : Misread) →
        piece_at mode text ≡ Err misread → IsRefusedPiece mode text misread }
    ensures apart { (source : List ℕ) (tokens : List Token) → IsTokens source tokens → AreApart (code_text source) 0 tokens }
    ensures breaks { (mode : Mode) (text : List ℕ) (bytes : ℕ) →
        piece_at mode text ≡ Ok (break_of bytes) → IsBreak mode text × IsOneLineEnd (take bytes text) }
    ensures no_other_breaks { (mode : Mode) (text : List ℕ) →
        IsBreak mode text → (bytes : ℕ) × (piece_at mode text ≡ Ok (break_of bytes)) }
{}

/// Each token consists of bytes of its source, and its place is that of its start. Words, labels,
/// quoted texts and lines of tables are ASCII. Words and labels have at most 63 bytes without their
/// quotation marks; a quoted text begins with its quotation mark; a line of a table has at most
/// 32,768 bytes.
pub fn token_texts()
    ensures { (source : List ℕ) (tokens : List Token) → IsTokens source tokens → All (IsPlaced source) tokens }
{}
