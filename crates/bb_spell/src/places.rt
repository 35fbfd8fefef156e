//! Which line may stand where, by its form alone: the first line, declarations, gates, flip-flops in their order,
//! the last line. Whether names and bits fit isn't asked here.

ghost use Rattle.std.specs.Prelude.{◌≡◌, ◌≤◌, ◌<◌, ◌+◌, ◌-◌, ◌^◌, ℕ, length, Some, None, min, IfOk, Ok};
ghost use Rattle.bb_spell.specs.Forms.{IsBadLine, IsAllRight};
ghost use Rattle.bb_spell.specs.Front.{IsRead};
ghost use Rattle.bb_spell.specs.Places.{after_names, after_ports, head_of, counted_of, after_flops, after_gates, after_declarations, stage_after, may_end, bad_line, flops_before};

use crate::lines::next_line;
use crate::scan::{LineFault, after, begins_with, read_name};
use crate::statement::{Instance, read_declaration, read_pins, read_statement};
use bb_base::Name;
use itoa::Buffer;
use std::alloc::{AllocError, Global};

/// How far a text has come, by the kind of its last line.
#[derive(Clone, Copy, Debug, PartialEq, Eq)]
pub enum Stage {
    Head,
    Declarations,
    Gates,
    /// So many flip-flops have come.
    Flops { count: u64 },
    End,
}

/// What follows the further names at the front.
fn after_names(alloc: Global, bytes: &[u8]) -> Result<&[u8], LineFault>
    ensures { IsRead (λ rest. rest.now) result (after_names (length bytes.now) bytes.now) }
{
    let mut rest = bytes;
    'names: while begins_with(b", ", rest) {
        let (_, from) = rest.split_at(2);
        rest = match read_name(alloc, from) {
            Ok((_name, tail)) => tail,
            Err(fault) => return Err(fault),
        };
    }
    Ok(rest)
}

/// What follows the names of the ports.
#[tactic(auto, unfolding(crate::specs::Places::after_ports))]
fn after_ports(alloc: Global, bytes: &[u8]) -> Result<&[u8], LineFault>
    ensures { IsRead (λ rest. rest.now) result (after_ports bytes.now) }
{
    if begins_with(b")", bytes) {
        return Ok(bytes);
    }
    let (_name, rest) = read_name(alloc, bytes)?;
    after_names(alloc, rest)
}

/// Reads a first line to its end.
#[tactic(auto, unfolding(crate::specs::Places::head_of))]
fn read_header(alloc: Global, line: &[u8]) -> Result<Name, LineFault>
    ensures { IsRead (λ name. name) result (head_of line.now) }
{
    let rest = after(b"module ", line)?;
    let (name, rest) = read_name(alloc, rest)?;
    let rest = after(b" (", rest)?;
    let rest = after_ports(alloc, rest)?;
    if rest == b");".as_slice() {
        Ok(name)
    } else {
        Err(LineFault::NotCanonical)
    }
}

/// Reads the flip-flop of this number.
#[tactic(auto, unfolding(crate::specs::Places::counted_of))]
fn read_counted(alloc: Global, count: u64, line: &[u8]) -> Result<Instance, LineFault>
    ensures { IsRead (λ i. i) result (counted_of count line.now) }
{
    let mut buffer = Buffer::new();
    let rest = after(b"dff bt_f", line)?;
    let rest = after(buffer.format(count).as_bytes(), rest)?;
    read_pins(alloc, 0, rest)
}

#[tactic(auto, unfolding(crate::specs::Places::after_flops))]
fn after_flops(alloc: Global, count: u64, line: &[u8]) -> Result<Stage, LineFault>
    requires { count < 2 ^ 64 - 1 }
    ensures value { IsRead (λ stage. stage) result (after_flops count line.now) }
    ensures more { IfOk result (λ stage. flops_before stage ≤ count + 1) }
{
    if line == b"endmodule".as_slice() {
        return Ok(Stage::End);
    }
    let _flop = read_counted(alloc, count, line)?;
    Ok(Stage::Flops { count: count + 1 })
}

#[tactic(auto, unfolding(crate::specs::Places::after_gates))]
fn after_gates(alloc: Global, line: &[u8]) -> Result<Stage, LineFault>
    ensures value { IsRead (λ stage. stage) result (after_gates line.now) }
    ensures more { IfOk result (λ stage. flops_before stage ≤ 1) }
{
    match read_statement(alloc, line) {
        Ok(_statement) => Ok(Stage::Gates),
        Err(LineFault::NotCanonical) => after_flops(alloc, 0, line),
        Err(LineFault::NoMemory) => Err(LineFault::NoMemory),
    }
}

#[tactic(auto, unfolding(crate::specs::Places::after_declarations))]
fn after_declarations(alloc: Global, line: &[u8]) -> Result<Stage, LineFault>
    ensures value { IsRead (λ stage. stage) result (after_declarations line.now) }
    ensures more { IfOk result (λ stage. flops_before stage ≤ 1) }
{
    match read_declaration(alloc, line) {
        Ok(_variable) => Ok(Stage::Declarations),
        Err(LineFault::NotCanonical) => after_gates(alloc, line),
        Err(LineFault::NoMemory) => Err(LineFault::NoMemory),
    }
}

/// The stage after a line, where it may stand.
fn stage_after(alloc: Global, stage: Stage, line: &[u8]) -> Result<Stage, LineFault>
    requires { flops_before stage < 2 ^ 64 - 1 }
    ensures value { IsRead (λ stage. stage) result (stage_after stage line.now) }
    ensures more { IfOk result (λ after. flops_before after ≤ flops_before stage + 1) }
{
    match stage {
        Stage::Head => {
            let _name = read_header(alloc, line)?;
            Ok(Stage::Declarations)
        }
        Stage::Declarations => after_declarations(alloc, line),
        Stage::Gates => after_gates(alloc, line),
        Stage::Flops { count } => after_flops(alloc, count, line),
        Stage::End => Err(LineFault::NotCanonical),
    }
}

fn may_end(stage: Stage, rest: &[u8]) -> bool
    ensures { result ≡ may_end stage rest.now }
{
    match stage {
        Stage::End => rest.is_empty(),
        _ => false,
    }
}

/// The number of the line behind so many, or the greatest that fits.
fn number_behind(lines: u64) -> u32
    requires { lines < 2 ^ 64 - 1 }
    ensures { result ≡ min 4294967295 (lines + 1) }
{
    (lines + 1).min(u64::from(u32::MAX)) as u32
}

/// The first line of a text that may not stand in its place, or is missing, by its number: at most the greatest that fits.
pub fn bad_line(alloc: Global, text: &[u8]) -> Result<Option<u32>, AllocError>
    ensures value { IfOk result (λ line. line ≡ bad_line text.now) }
    ensures line { (n : ℕ) → result ≡ Ok (Some n) → IsBadLine n text.now }
    ensures right { result ≡ Ok None → IsAllRight text.now }
{
    let mut rest = text;
    let mut stage = Stage::Head;
    let mut lines = 0;
    'lines: while let Some((line, after)) = next_line(rest) {
        stage = match stage_after(alloc, stage, line) {
            Ok(stage) => stage,
            Err(LineFault::NotCanonical) => return Ok(Some(number_behind(lines))),
            Err(LineFault::NoMemory) => return Err(AllocError),
        };
        lines += 1;
        rest = after;
    }
    if may_end(stage, rest) {
        Ok(None)
    } else {
        Ok(Some(number_behind(lines)))
    }
}
