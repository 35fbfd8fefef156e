//! Numbers in lines, which are written and read in one way.

ghost use Rattle.std.specs.Prelude.{◌≡◌, ◌++◌, ◌^◌, ◌≤◌, ◌<◌, OnOk, IfOk};
ghost use Rattle.bb_spell.specs.Canonical.{with_feed};
ghost use Rattle.bb_spell.specs.Front.{IsRead};
ghost use Rattle.bb_forms.specs.Fields.{hex_of, hex_word, number_word, field_limit};
ghost use Rattle.bb_forms.specs.Reading.{front_number, hex_at, front_hex, marked_number, marked_hex};

use bb_spell::{LineFault, after, read_number, write_number};
use std::alloc::AllocError;

/// Numbers of lines are below this.
const FIELD_LIMIT: u128 = 4_294_967_296;

/// The eight hexadecimal digits of a number.
#[tactic(auto, unfolding(crate::specs::Fields::hex_of))]
fn hex_digits(number: u32) -> [u8; 8]
    ensures { result ≡ hex_of number }
{
    let mut digits = [0; 8];
    match hex::encode_to_slice(&number.to_be_bytes(), &mut digits) {
        Ok(()) => digits,
        Err(_) => unreachable!(),
    }
}

/// Appends a space and a number in decimal digits.
pub(crate) fn write_field(text: &mut Vec<u8>, number: u64) -> Result<(), AllocError>
    ensures { OnOk result (text.new.items ≡ text.old.items ++ number_word number) }
{
    text.extend_from_slice(b" ")?;
    write_number(text, number)
}

/// Appends a space and a number in hexadecimal digits.
pub(crate) fn write_hex(text: &mut Vec<u8>, number: u32) -> Result<(), AllocError>
    ensures { OnOk result (text.new.items ≡ text.old.items ++ hex_word number) }
{
    text.extend_from_slice(b" ")?;
    text.extend_from_slice(&hex_digits(number))
}

/// Appends a line that is a mark and a number.
pub(crate) fn write_number_line(
    text: &mut Vec<u8>,
    mark: &[u8],
    number: u64,
) -> Result<(), AllocError>
    ensures { OnOk result (text.new.items ≡ text.old.items ++ with_feed (mark.now ++ number_word number)) }
{
    text.extend_from_slice(mark)?;
    write_field(text, number)?;
    text.extend_from_slice(b"\n")
}

/// Appends a line that is a mark and a number in hexadecimal digits.
pub(crate) fn write_hex_line(text: &mut Vec<u8>, mark: &[u8], number: u32) -> Result<(), AllocError>
    ensures { OnOk result (text.new.items ≡ text.old.items ++ with_feed (mark.now ++ hex_word number)) }
{
    text.extend_from_slice(mark)?;
    write_hex(text, number)?;
    text.extend_from_slice(b"\n")
}

/// The number below a limit that the next word is, and what follows it.
#[tactic(auto, unfolding(crate::specs::Reading::front_number))]
pub(crate) fn read_below(limit: u128, bytes: &[u8]) -> Result<(u64, &[u8]), LineFault>
    requires { limit ≤ 2 ^ 64 }
    ensures value { IsRead (λ r. (r.0, r.1.now)) result (front_number limit bytes.now) }
    ensures below { IfOk result (λ r. r.0 < limit) }
{
    let from = after(b" ", bytes)?;
    read_number(limit, from)
}

/// The number that the next word is, and what follows it.
pub(crate) fn read_field(bytes: &[u8]) -> Result<(u32, &[u8]), LineFault>
    ensures { IsRead (λ r. (r.0, r.1.now)) result (front_number field_limit bytes.now) }
{
    let (number, rest) = read_below(FIELD_LIMIT, bytes)?;
    Ok((number as u32, rest))
}

/// The number that eight hexadecimal digits are, and what follows them.
#[tactic(auto, unfolding(crate::specs::Reading::hex_at))]
fn read_digits(digits: &[u8]) -> Result<(u32, &[u8]), LineFault>
    ensures { IsRead (λ r. (r.0, r.1.now)) result (hex_at digits.now) }
{
    let front = &digits[..digits.len().min(8)];
    let mut bytes = [0; 4];
    if hex::decode_to_slice(front, &mut bytes).is_err() {
        return Err(LineFault::NotCanonical);
    }
    let number = u32::from_be_bytes(bytes);
    let rest = after(&hex_digits(number), digits)?;
    Ok((number, rest))
}

/// The number that the next word is in hexadecimal digits, and what follows it.
#[tactic(auto, unfolding(crate::specs::Reading::front_hex))]
pub(crate) fn read_hex(bytes: &[u8]) -> Result<(u32, &[u8]), LineFault>
    ensures { IsRead (λ r. (r.0, r.1.now)) result (front_hex bytes.now) }
{
    let digits = after(b" ", bytes)?;
    read_digits(digits)
}

/// The number below a limit of a line that is a mark and a number.
#[tactic(auto, unfolding(crate::specs::Reading::marked_number))]
pub(crate) fn read_number_line(mark: &[u8], limit: u128, line: &[u8]) -> Result<u64, LineFault>
    requires { limit ≤ 2 ^ 64 }
    ensures value { IsRead (λ n. n) result (marked_number mark.now limit line.now) }
    ensures below { IfOk result (λ n. n < limit) }
{
    let from = after(mark, line)?;
    let (number, rest) = read_below(limit, from)?;
    if rest.is_empty() {
        Ok(number)
    } else {
        Err(LineFault::NotCanonical)
    }
}

/// The number of a line that is a mark and a number.
pub(crate) fn read_field_line(mark: &[u8], line: &[u8]) -> Result<u32, LineFault>
    ensures { IsRead (λ n. n) result (marked_number mark.now field_limit line.now) }
{
    let number = read_number_line(mark, FIELD_LIMIT, line)?;
    Ok(number as u32)
}

/// The number of a line that is a mark and a number in hexadecimal digits.
#[tactic(auto, unfolding(crate::specs::Reading::marked_hex))]
pub(crate) fn read_hex_line(mark: &[u8], line: &[u8]) -> Result<u32, LineFault>
    ensures { IsRead (λ n. n) result (marked_hex mark.now line.now) }
{
    let from = after(mark, line)?;
    let (number, rest) = read_hex(from)?;
    if rest.is_empty() {
        Ok(number)
    } else {
        Err(LineFault::NotCanonical)
    }
}
