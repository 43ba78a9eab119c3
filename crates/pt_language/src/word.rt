use pt_value::Text;

/// A word of an expression's text.
#[derive(Debug, Drop)]
pub enum Word {
    /// Decimal digits: the number, or the greatest `u64` where it is more.
    Digits(u64),
    /// A text in quotes, without the quotes and with its escapes undone.
    Quoted(Text),
    /// A name.
    Name(Text),
    /// A word that is always spelled alike.
    Symbol(Symbol),
}

/// A word that is always spelled alike.
#[derive(Clone, Copy, Debug, PartialEq, Eq)]
pub enum Symbol {
    /// `true`
    True,
    /// `false`
    False,
    /// `abs`
    Abs,
    /// `max`
    Max,
    /// `min`
    Min,
    /// `(`
    Open,
    /// `)`
    Close,
    /// `{`
    OpenBrace,
    /// `}`
    CloseBrace,
    /// `,`
    Comma,
    /// `.`
    Dot,
    /// `?`
    Question,
    /// `:`
    Colon,
    /// `=`
    Assign,
    /// `!`
    Not,
    /// `-`
    Minus,
    /// `+`
    Plus,
    /// `*`
    Star,
    /// `/`
    Slash,
    /// `%`
    Percent,
    /// `<`
    Less,
    /// `<=`
    LessEqual,
    /// `>`
    Greater,
    /// `>=`
    GreaterEqual,
    /// `==`
    Equal,
    /// `!=`
    Unequal,
    /// `&&`
    And,
    /// `||`
    Or,
}

impl Word {
    ghost use Rattle.std.specs.Prelude.{◌≡◌};
    ghost use Rattle.pt_language.specs.Symbol.{is_symbol};

    /// Whether this is the symbol.
    pub fn is(&self, symbol: Symbol) -> bool
        ensures { result ≡ is_symbol symbol self.now }
    {
        match self {
            Word::Symbol(own) => *own as u8 == symbol as u8,
            _ => false,
        }
    }
}
