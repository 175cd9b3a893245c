//! What tokens are.
ghost use Rattle.std.specs.Prelude.{◌≡◌};
ghost use Rattle.gms_grammar.specs.Symbols.{written_symbol};

/// An operator or a delimiter of the language (GAMS User's Guide, "Language Items").
#[derive(Clone, Copy)]
pub enum Sym {
    /// `=e=`
    EqE,
    /// `=l=`
    EqL,
    /// `=g=`
    EqG,
    /// `=n=`
    EqN,
    /// `**`
    Power,
    /// `..`
    DotDot,
    /// `<=`
    LessEq,
    /// `>=`
    GreaterEq,
    /// `<>`
    NotEq,
    /// `++`
    PlusPlus,
    /// `--`
    MinusMinus,
    /// `+`
    Plus,
    /// `-`
    Minus,
    /// `*`
    Star,
    /// `/`
    Slash,
    /// `=`
    Equals,
    /// `<`
    Less,
    /// `>`
    Greater,
    /// `(`
    LeftParen,
    /// `)`
    RightParen,
    /// `,`
    Comma,
    /// `;`
    Semicolon,
    /// `.`
    Dot,
    /// `$`
    Dollar,
}

impl Sym {
    /// The characters of this symbol, as a source has them.
    pub fn written(self) -> &'static str
        ensures { result.now ≡ written_symbol self }
    {
        match self {
            Sym::EqE => "=e=",
            Sym::EqL => "=l=",
            Sym::EqG => "=g=",
            Sym::EqN => "=n=",
            Sym::Power => "**",
            Sym::DotDot => "..",
            Sym::LessEq => "<=",
            Sym::GreaterEq => ">=",
            Sym::NotEq => "<>",
            Sym::PlusPlus => "++",
            Sym::MinusMinus => "--",
            Sym::Plus => "+",
            Sym::Minus => "-",
            Sym::Star => "*",
            Sym::Slash => "/",
            Sym::Equals => "=",
            Sym::Less => "<",
            Sym::Greater => ">",
            Sym::LeftParen => "(",
            Sym::RightParen => ")",
            Sym::Comma => ",",
            Sym::Semicolon => ";",
            Sym::Dot => ".",
            Sym::Dollar => "$",
        }
    }
}

/// The kind of a token by its form. Names and keywords are both words here.
#[derive(Clone, Copy)]
pub enum Kind {
    /// A name or a keyword: a letter, then letters, digits and `_`.
    Word,
    /// A label of a list: unquoted, or with its quotation marks.
    Label,
    /// A number.
    Number,
    /// A quoted token of code, with its quotation marks.
    Text,
    /// A symbol.
    Symbol(Sym),
    /// A line end that ends an item of a declaration, or an element of a list.
    Break,
    /// A line of a table, up to its end or to the `;` that ends the table.
    TableLine,
    /// The end of the source.
    End,
}
