//! The kinds of tokens that the grammar tells apart.
ghost use Rattle.std.specs.Prelude.{◌≡◌};
ghost use Rattle.gms_grammar.specs.Terminals.{is, is_terminal_among};

/// A kind of token, as the productions of the grammar name it (GAMS User's Guide, "Language Items",
/// reserved words and delimiters).
#[derive(Clone, Copy, PartialEq, Eq)]
pub enum Terminal {
    /// `abort`.
    Abort,
    /// `alias`.
    Alias,
    /// `display`.
    Display,
    /// `equation` or `equations`.
    Equation,
    /// `loop`.
    Loop,
    /// `model` or `models`.
    Model,
    /// `option` or `options`.
    Option,
    /// `parameter` or `parameters`.
    Parameter,
    /// `scalar` or `scalars`.
    Scalar,
    /// `set` or `sets`.
    Set,
    /// `solve`.
    Solve,
    /// `table`.
    Table,
    /// `variable` or `variables`.
    Variable,
    /// A type before `variable`: `free`, `positive`, `negative`, `binary`, `integer`, `sos1` or
    /// `sos2`.
    VariableType,
    /// A word that is not reserved, and no suffix.
    Name,
    /// `lo`, `up`, `l`, `m`, `fx`, `modelstat` or `solvestat`; without a dot before it, it is a
    /// name.
    Suffix,
    /// A function, as `abs`, also one that the language leaves out, as `exp`.
    Function,
    /// `ord` or `card`.
    OrdCard,
    /// `sum`, `prod`, `smin` or `smax`.
    FoldOp,
    /// `inf`.
    Infinity,
    /// `na`.
    NotAvailable,
    /// `yes` or `no`.
    YesNo,
    /// `not`.
    Not,
    /// `and`.
    And,
    /// `or` or `xor`.
    Or,
    /// `lt`, `le`, `eq`, `ne`, `ge` or `gt`.
    RelationWord,
    /// `all`.
    All,
    /// `using`.
    Using,
    /// `minimizing` or `maximizing`.
    Direction,
    /// `lp`.
    Reserved,
    /// A label of a list.
    Label,
    /// A number.
    Number,
    /// A quoted text that is short enough for a label.
    Text,
    /// A longer quoted text.
    LongText,
    /// `=e=`, `=l=`, `=g=` or `=n=`.
    Sense,
    /// `**`.
    Power,
    /// `..`.
    DotDot,
    /// `<`, `<=`, `<>`, `>=` or `>`.
    Relation,
    /// `++` or `--`.
    Circular,
    /// `+` or `-`.
    Sign,
    /// `*`.
    Star,
    /// `/`.
    Slash,
    /// `=`.
    Equals,
    /// `(`.
    LeftParen,
    /// `)`.
    RightParen,
    /// `,`.
    Comma,
    /// `;`.
    Semicolon,
    /// `.`.
    Dot,
    /// `$`.
    Dollar,
    /// A line end that ends an item of a declaration, or an element of a list.
    Break,
    /// A line of a table.
    TableLine,
    /// The end of the source.
    End,
    /// A word of a statement or a value that the language leaves out, such as `if`; no production
    /// has it.
    NotInProfile,
    /// A number that is too large or too long; no production has it.
    FaultyNumber,
    /// A `(` with 100 open before it; no production has it.
    DeepParen,
}

impl Terminal {
    /// Whether this kind of token is the kind `other`.
    pub fn is(self, other: Terminal) -> bool
        ensures { result ≡ is self other }
    {
        self == other
    }

    /// Whether this kind of token is one of `kinds`.
    pub fn is_among(self, kinds: &[Terminal]) -> bool
        ensures { result ≡ is_terminal_among kinds.now self }
    {
        kinds.contains(&self)
    }
}
