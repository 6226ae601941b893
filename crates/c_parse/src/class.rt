/// A class of tokens that the grammar of the C profile doesn't tell apart.
#[derive(Clone, Copy, PartialEq, Eq)]
pub enum Class {
    Name,
    Number,
    Plus,
    Minus,
    Star,
    /// `/` and `%`.
    Divide,
    /// `<<` and `>>`.
    Shift,
    /// `<`, `>`, `<=` and `>=`.
    Relation,
    /// `==` and `!=`.
    Equality,
    Ampersand,
    Caret,
    Bar,
    AndAnd,
    BarBar,
    /// `~` and `!`.
    Complement,
    Question,
    Colon,
    Semicolon,
    Comma,
    Open,
    Close,
    OpenIndex,
    CloseIndex,
    OpenBrace,
    CloseBrace,
    Equals,
    /// `*=`, `/=`, `%=`, `+=`, `-=`, `<<=`, `>>=`, `&=`, `^=` and `|=`.
    Compound,
    /// `++` and `--`.
    Increment,
    /// `.` and `->`.
    Member,
    Static,
    Const,
    Void,
    Char,
    /// `signed` and `unsigned`.
    Sign,
    Short,
    Int,
    /// `int8_t`, `uint8_t`, `int16_t` and `uint16_t`.
    Fixed,
    Break,
    Continue,
    Return,
    If,
    Else,
    While,
    Do,
    For,
    Switch,
    Case,
    Default,
    /// A keyword of C11 that the grammar doesn't use.
    Unused,
}
