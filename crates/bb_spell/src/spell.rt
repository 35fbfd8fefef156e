ghost use Rattle.std.specs.Prelude.{◌≡◌, ◌++◌, ◌<◌, ◌+◌, ◌-◌, Some, length, OnOk, decimal};
ghost use Rattle.std.specs.List.{list_all};
ghost use Rattle.bb_base.specs.Variables.{IsBit, bit_of};
ghost use Rattle.bb_base.specs.Named.{net_text};
ghost use Rattle.bb_base.specs.Words.{is_word_byte};
ghost use Rattle.bb_spell.specs.Spelling.{is_simple, stands_plain, spelled_name, spelled_index, spelled_bit};

use bb_base::{BitName, NetId, index_of, keyword_of, may_follow, may_start};
use bb_net::Named;
use itoa::Buffer;
use std::alloc::AllocError;

fn all_follow(bytes: &[u8]) -> bool
    ensures { result ≡ list_all is_word_byte bytes.now }
{
    bytes.iter().all(|byte| may_follow(*byte))
}

fn is_identifier(name: &[u8]) -> bool
    ensures { result ≡ is_simple name.now }
{
    match name.split_first() {
        None => false,
        Some((first, rest)) => may_start(*first) && all_follow(rest),
    }
}

/// Whether a name is written as it is.
pub fn stands_plain(name: &[u8]) -> bool
    ensures { result ≡ stands_plain name.now }
{
    is_identifier(name) && keyword_of(name).is_none()
}

/// Appends a name as it is written.
#[tactic(auto, unfolding(crate::specs::Spelling::spelled_name))]
pub fn write_name(line: &mut Vec<u8>, name: &[u8]) -> Result<(), AllocError>
    ensures { OnOk result (line.new.items ≡ line.old.items ++ spelled_name name.now) }
{
    if stands_plain(name) {
        return line.extend_from_slice(name);
    }
    line.extend_from_slice(b"\\")?;
    line.extend_from_slice(name)?;
    line.extend_from_slice(b" ")
}

/// Appends a number in decimal digits.
pub fn write_number(line: &mut Vec<u8>, number: u64) -> Result<(), AllocError>
    ensures { OnOk result (line.new.items ≡ line.old.items ++ decimal number) }
{
    let mut buffer = Buffer::new();
    line.extend_from_slice(buffer.format(number).as_bytes())
}

fn write_index(line: &mut Vec<u8>, index: u32) -> Result<(), AllocError>
    ensures { OnOk result (line.new.items ≡ line.old.items ++ spelled_index (Some index)) }
{
    line.extend_from_slice(b"[")?;
    write_number(line, u64::from(index))?;
    line.extend_from_slice(b"]")
}

/// Appends the text of a bit.
pub fn write_bit(line: &mut Vec<u8>, named: &Named, bit: BitName) -> Result<(), AllocError>
    requires { IsBit named.now.variables bit }
    ensures { OnOk result (line.new.items ≡ line.old.items ++ spelled_bit (bit_of named.now.variables bit)) }
{
    let (name, variable) = named.variable(bit.variable);
    write_name(line, name.bytes())?;
    match variable.range {
        None => Ok(()),
        Some(range) => write_index(line, index_of(range, bit.place)),
    }
}

/// Appends the text of a net's bit.
pub fn write_net(line: &mut Vec<u8>, named: &Named, net: NetId) -> Result<(), AllocError>
    requires { net < length named.now.names }
    ensures { OnOk result (line.new.items ≡ line.old.items ++ spelled_bit (net_text named.now net)) }
{
    let bit = named.name(net);
    write_bit(line, named, bit)
}
