//! How numbers and names stand in lines.

ghost use Rattle.std.specs.Prelude.{◌≡◌, ◌++◌, OnOk, decimal};
ghost use Rattle.bb_spell.specs.Spelling.{spelled_index};
ghost use Rattle.bb_read.specs.Lines.{said_name, said, at_line};

use bb_base::Name;
use bb_spell::stands_plain;
use std::alloc::{AllocError, Global};

/// Appends a number in decimal digits.
fn put_number(alloc: Global, line: &mut Vec<u8>, number: u64) -> Result<(), AllocError>
    ensures { OnOk result (line.new.items ≡ line.old.items ++ decimal number) }
{
    let digits = format!(in alloc; "{number}")?;
    line.extend_from_slice(digits.as_bytes())
}

/// Appends a name, with a backslash before it where it needs one.
#[tactic(auto, unfolding(crate::specs::Lines::said_name))]
fn put_name(line: &mut Vec<u8>, name: &[u8]) -> Result<(), AllocError>
    ensures { OnOk result (line.new.items ≡ line.old.items ++ said_name name.now) }
{
    if stands_plain(name) {
        return line.extend_from_slice(name);
    }
    line.extend_from_slice(b"\\")?;
    line.extend_from_slice(name)
}

/// Appends the index of a vector's bit.
fn put_index(alloc: Global, line: &mut Vec<u8>, select: Option<u32>) -> Result<(), AllocError>
    ensures { OnOk result (line.new.items ≡ line.old.items ++ spelled_index select) }
{
    let Some(index) = select else {
        return Ok(());
    };
    line.extend_from_slice(b"[")?;
    put_number(alloc, line, u64::from(index))?;
    line.extend_from_slice(b"]")
}

/// Appends words and the name of a variable or a net behind them.
pub(crate) fn put_said(
    alloc: Global,
    line: &mut Vec<u8>,
    words: &[u8],
    name: &Name,
    select: Option<u32>,
) -> Result<(), AllocError>
    ensures { OnOk result (line.new.items ≡ line.old.items ++ (words.now ++ said name.now select)) }
{
    line.extend_from_slice(words)?;
    put_name(line, name.bytes())?;
    put_index(alloc, line, select)
}

/// Appends words behind the line that they speak of.
pub(crate) fn put_at_line(
    alloc: Global,
    line: &mut Vec<u8>,
    number: u32,
    words: &[u8],
) -> Result<(), AllocError>
    ensures { OnOk result (line.new.items ≡ line.old.items ++ at_line number words.now) }
{
    line.extend_from_slice(b"line ")?;
    put_number(alloc, line, u64::from(number))?;
    line.extend_from_slice(b" ")?;
    line.extend_from_slice(words)
}

/// Appends words and a number behind them.
pub fn put_counted(
    alloc: Global,
    line: &mut Vec<u8>,
    words: &[u8],
    number: u64,
) -> Result<(), AllocError>
    ensures { OnOk result (line.new.items ≡ line.old.items ++ (words.now ++ decimal number)) }
{
    line.extend_from_slice(words)?;
    put_number(alloc, line, number)
}
