//! What the bytes of a text can begin or go on.

ghost use Rattle.std.specs.Prelude.{◌≡◌};
ghost use Rattle.bb_lex.specs.Bytes.{class_of, is_number, is_constant, is_odd, is_sign, digit_of, base_of, radix_of, line_after};

use bb_base::{Mark, may_start};

/// What a byte can begin.
#[derive(Clone, Copy, Debug, PartialEq, Eq)]
pub(crate) enum Class {
    Letter,
    Digit,
    Blank,
    Slash,
    Backslash,
    Tick,
    Paren,
    Tilde,
    Caret,
    Single(Mark),
    Odd,
}

/// The base of a constant's digits.
#[derive(Clone, Copy, Debug, PartialEq, Eq)]
pub(crate) enum Base {
    Binary,
    Octal,
    Decimal,
    Hexadecimal,
}

/// What a byte can begin.
#[tactic(auto, unfolding(crate::specs::Bytes::class_of))]
pub(crate) fn class_of(b: u8) -> Class
    ensures { result ≡ class_of b }
{
    match b {
        _ if may_start(b) => Class::Letter,
        b'0'..=b'9' => Class::Digit,
        _ if b.is_ascii_whitespace() => Class::Blank,
        b'/' => Class::Slash,
        b'\\' => Class::Backslash,
        b'`' => Class::Tick,
        b'(' => Class::Paren,
        b'~' => Class::Tilde,
        b'^' => Class::Caret,
        b')' => Class::Single(Mark::RightParen),
        b'[' => Class::Single(Mark::LeftBracket),
        b']' => Class::Single(Mark::RightBracket),
        b'{' => Class::Single(Mark::LeftBrace),
        b'}' => Class::Single(Mark::RightBrace),
        b',' => Class::Single(Mark::Comma),
        b';' => Class::Single(Mark::Semicolon),
        b':' => Class::Single(Mark::Colon),
        b'.' => Class::Single(Mark::Dot),
        b'=' => Class::Single(Mark::Equals),
        b'&' => Class::Single(Mark::Amp),
        b'|' => Class::Single(Mark::Bar),
        b'?' => Class::Single(Mark::Question),
        _ => Class::Odd,
    }
}

/// Whether the byte may go on a plain number.
#[tactic(auto, unfolding(crate::specs::Bytes::is_number))]
pub(crate) fn is_number(b: u8) -> bool
    ensures { result ≡ is_number b }
{
    matches!(b, b'0'..=b'9' | b'_')
}

/// Whether the byte belongs to a constant whose digits have begun, be it of its base or not.
#[tactic(auto, unfolding(crate::specs::Bytes::is_constant))]
pub(crate) fn is_constant(b: u8) -> bool
    ensures { result ≡ is_constant b }
{
    matches!(b, b'A'..=b'Z' | b'a'..=b'z' | b'0'..=b'9' | b'_')
}

/// Whether the byte is neither white space nor one of names.
#[tactic(auto, unfolding(crate::specs::Bytes::is_odd))]
pub(crate) fn is_odd(b: u8) -> bool
    ensures { result ≡ is_odd b }
{
    !(b.is_ascii_whitespace() || b.is_ascii_graphic())
}

/// Whether the byte says that a constant is signed.
#[tactic(auto, unfolding(crate::specs::Bytes::is_sign))]
pub(crate) fn is_sign(b: u8) -> bool
    ensures { result ≡ is_sign b }
{
    matches!(b, b's' | b'S')
}

/// The base that a letter names.
#[tactic(auto, unfolding(crate::specs::Bytes::base_of))]
pub(crate) fn base_of(b: u8) -> Option<Base>
    ensures { result ≡ base_of b }
{
    match b {
        b'b' | b'B' => Some(Base::Binary),
        b'o' | b'O' => Some(Base::Octal),
        b'd' | b'D' => Some(Base::Decimal),
        b'h' | b'H' => Some(Base::Hexadecimal),
        _ => None,
    }
}

/// How many digits a base has.
pub(crate) fn radix_of(base: Base) -> u8
    ensures { result ≡ radix_of base }
{
    match base {
        Base::Binary => 2,
        Base::Octal => 8,
        Base::Decimal => 10,
        Base::Hexadecimal => 16,
    }
}

/// The value of a digit, or 16 where the byte is none.
#[tactic(auto, unfolding(crate::specs::Bytes::digit_of))]
pub(crate) fn digit_of(b: u8) -> u8
    ensures { result ≡ digit_of b }
{
    match b {
        b'0'..=b'9' => b - 48,
        b'a'..=b'f' => b - 87,
        b'A'..=b'F' => b - 55,
        _ => 16,
    }
}

/// The number of the line after a byte.
#[tactic(auto, unfolding(crate::specs::Bytes::feed))]
pub(crate) fn line_after(line: u32, b: u8) -> u32
    ensures { result ≡ line_after line b }
{
    match b {
        b'\n' => line.saturating_add(1),
        _ => line,
    }
}
