use crate::{Keyword, Name};

/// A mark of one or two bytes.
#[derive(Clone, Copy, Debug, PartialEq, Eq)]
pub enum Mark {
    LeftParen,
    RightParen,
    LeftBracket,
    RightBracket,
    LeftBrace,
    RightBrace,
    Comma,
    Semicolon,
    Colon,
    Dot,
    Equals,
    Amp,
    Bar,
    Caret,
    Tilde,
    TildeCaret,
    CaretTilde,
    Question,
}

/// What a token is.
#[derive(Drop)]
pub enum TokenKind {
    Key(Keyword),
    /// A simple or an escaped name, without the backslash.
    Name(Name),
    /// A plain number, below 2^31.
    Number(u32),
    /// A constant with its size in bits, 1 to 128.
    Const { size: u8, value: u128 },
    Mark(Mark),
}

/// A token, with the number of the line where it begins.
#[derive(Drop)]
pub struct Token {
    pub kind: TokenKind,
    pub line: u32,
}
