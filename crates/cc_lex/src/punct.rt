// The punctuators of C17 6.4.6, without `#` and `##`.

/// A punctuator.
#[derive(Clone, Copy, Debug, PartialEq, Eq)]
pub enum Punct {
    /// `...`
    Ellipsis,
    /// `<<=`
    ShiftLeftEqual,
    /// `>>=`
    ShiftRightEqual,
    /// `->`
    Arrow,
    /// `++`
    PlusPlus,
    /// `--`
    MinusMinus,
    /// `<<`
    ShiftLeft,
    /// `>>`
    ShiftRight,
    /// `<=`
    LessEqual,
    /// `>=`
    GreaterEqual,
    /// `==`
    EqualEqual,
    /// `!=`
    NotEqual,
    /// `&&`
    AndAnd,
    /// `||`
    OrOr,
    /// `*=`
    StarEqual,
    /// `/=`
    SlashEqual,
    /// `%=`
    PercentEqual,
    /// `+=`
    PlusEqual,
    /// `-=`
    MinusEqual,
    /// `&=`
    AndEqual,
    /// `^=`
    CaretEqual,
    /// `|=`
    OrEqual,
    /// `[`
    LeftBracket,
    /// `]`
    RightBracket,
    /// `(`
    LeftParen,
    /// `)`
    RightParen,
    /// `{`
    LeftBrace,
    /// `}`
    RightBrace,
    /// `.`
    Dot,
    /// `&`
    And,
    /// `*`
    Star,
    /// `+`
    Plus,
    /// `-`
    Minus,
    /// `~`
    Tilde,
    /// `!`
    Not,
    /// `/`
    Slash,
    /// `%`
    Percent,
    /// `<`
    Less,
    /// `>`
    Greater,
    /// `^`
    Caret,
    /// `|`
    Or,
    /// `?`
    Question,
    /// `:`
    Colon,
    /// `;`
    Semicolon,
    /// `=`
    Equal,
    /// `,`
    Comma,
}

/// Each punctuator with its spelling. A longer one stands before a shorter one.
pub const PUNCTS: [(&[u8], Punct); 46] = [
    (b"...", Punct::Ellipsis),
    (b"<<=", Punct::ShiftLeftEqual),
    (b">>=", Punct::ShiftRightEqual),
    (b"->", Punct::Arrow),
    (b"++", Punct::PlusPlus),
    (b"--", Punct::MinusMinus),
    (b"<<", Punct::ShiftLeft),
    (b">>", Punct::ShiftRight),
    (b"<=", Punct::LessEqual),
    (b">=", Punct::GreaterEqual),
    (b"==", Punct::EqualEqual),
    (b"!=", Punct::NotEqual),
    (b"&&", Punct::AndAnd),
    (b"||", Punct::OrOr),
    (b"*=", Punct::StarEqual),
    (b"/=", Punct::SlashEqual),
    (b"%=", Punct::PercentEqual),
    (b"+=", Punct::PlusEqual),
    (b"-=", Punct::MinusEqual),
    (b"&=", Punct::AndEqual),
    (b"^=", Punct::CaretEqual),
    (b"|=", Punct::OrEqual),
    (b"[", Punct::LeftBracket),
    (b"]", Punct::RightBracket),
    (b"(", Punct::LeftParen),
    (b")", Punct::RightParen),
    (b"{", Punct::LeftBrace),
    (b"}", Punct::RightBrace),
    (b".", Punct::Dot),
    (b"&", Punct::And),
    (b"*", Punct::Star),
    (b"+", Punct::Plus),
    (b"-", Punct::Minus),
    (b"~", Punct::Tilde),
    (b"!", Punct::Not),
    (b"/", Punct::Slash),
    (b"%", Punct::Percent),
    (b"<", Punct::Less),
    (b">", Punct::Greater),
    (b"^", Punct::Caret),
    (b"|", Punct::Or),
    (b"?", Punct::Question),
    (b":", Punct::Colon),
    (b";", Punct::Semicolon),
    (b"=", Punct::Equal),
    (b",", Punct::Comma),
];

/// The digraph tokens. They are cut like punctuators, and each is a fault of rule L9.
pub const DIGRAPHS: [&[u8]; 5] = [b"<:", b":>", b"<%", b"%>", b"%:"];
