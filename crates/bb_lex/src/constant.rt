//! The value of a constant whose digits come one by one. None stands for 2^128 or more.

ghost use Rattle.std.specs.Prelude.{◌≡◌, ◌^◌, min, nat_lt};
ghost use Rattle.bb_lex.specs.Bytes.{radix_of, with_digit};
ghost use Rattle.bb_lex.specs.Machine.{constant_limit, capped};

use crate::bytes::{Base, digit_of, radix_of};

/// The value with one more digit, where `_` is none.
pub(crate) fn with_digit(value: Option<u128>, base: Base, b: u8) -> Option<u128>
    ensures { capped result ≡ min (with_digit (radix_of base) (capped value) b) constant_limit }
{
    if b == b'_' {
        return value;
    }
    value?
        .checked_mul(u128::from(radix_of(base)))?
        .checked_add(u128::from(digit_of(b)))
}

/// Whether the value is below 2 to the size.
pub(crate) fn fits(value: u128, size: u8) -> bool
    ensures { result ≡ nat_lt value (2 ^ min size 128) }
{
    size >= 128 || value >> size == 0
}
