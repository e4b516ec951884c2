/// A symbol.
#[derive(Clone, Copy, Debug, PartialEq, Eq)]
pub enum Symbol {
    Semicolon,
    Colon,
    Comma,
    Dot,
    OpenBrace,
    CloseBrace,
    OpenParenthesis,
    CloseParenthesis,
    /// `->`
    Arrow,
    /// `=>`
    Implies,
    Equals,
    Bar,
    Star,
}
