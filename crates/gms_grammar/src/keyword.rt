//! The words that begin statements.
ghost use Rattle.std.specs.Prelude.{◌≡◌};
ghost use Rattle.gms_grammar.specs.Keywords.{statement_words, kind_among};

use crate::line::is_among;
use crate::terminal::Terminal;

/// A kind of words that begin a statement, and its words.
struct Keyword {
    kind: Terminal,
    words: &'static [&'static str],
}

/// The words that begin statements, each with its kind.
const KEYWORDS: [Keyword; 14] = [
    Keyword {
        kind: Terminal::Abort,
        words: &["abort"],
    },
    Keyword {
        kind: Terminal::Alias,
        words: &["alias"],
    },
    Keyword {
        kind: Terminal::Display,
        words: &["display"],
    },
    Keyword {
        kind: Terminal::Equation,
        words: &["equation", "equations"],
    },
    Keyword {
        kind: Terminal::Loop,
        words: &["loop"],
    },
    Keyword {
        kind: Terminal::Model,
        words: &["model", "models"],
    },
    Keyword {
        kind: Terminal::Option,
        words: &["option", "options"],
    },
    Keyword {
        kind: Terminal::Parameter,
        words: &["parameter", "parameters"],
    },
    Keyword {
        kind: Terminal::Scalar,
        words: &["scalar", "scalars"],
    },
    Keyword {
        kind: Terminal::Set,
        words: &["set", "sets"],
    },
    Keyword {
        kind: Terminal::Solve,
        words: &["solve"],
    },
    Keyword {
        kind: Terminal::Table,
        words: &["table"],
    },
    Keyword {
        kind: Terminal::Variable,
        words: &["variable", "variables"],
    },
    Keyword {
        kind: Terminal::VariableType,
        words: &[
            "free", "positive", "negative", "binary", "integer", "sos1", "sos2",
        ],
    },
];

/// The kind of the token `word`, if it is a keyword that begins a statement, letter case ignored
/// (GAMS User's Guide, "Language Items", reserved words). `None` for any other word.
pub fn statement_word(word: &[u8]) -> Option<Terminal>
    ensures { result ≡ kind_among word.now statement_words }
{
    for keyword in &KEYWORDS {
        if is_among(word, keyword.words) {
            return Some(keyword.kind);
        }
    }
    None
}
