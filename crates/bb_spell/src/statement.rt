ghost use Rattle.std.specs.Prelude.{◌≡◌, Option, Some, None, length, IfOk};
ghost use Rattle.bb_base.specs.Variables.{IsRange};
ghost use Rattle.bb_spell.specs.Front.{IsRead};
ghost use Rattle.bb_spell.specs.Lines.{head_name, word_role, declaration_of, op_of, with_front, front_bits, primitive_of, constant_op, constant_of, statement_of, flop_pins, flop_of};

use crate::scan::{
    BitText, LineFault, after, begins_with, read_bit, read_name, read_range, read_small, word_at,
};
use bb_base::{Name, Op, Role, Variable};
use std::alloc::Global;
use std::marker::Model;

/// A gate, by the names of its bits.
#[derive(Drop)]
pub struct Statement {
    pub op: Op,
    pub out: BitText,
    pub ins: Vec<BitText>,
}

impl Model for Statement {
    ghost use Rattle.bb_base.specs.Variables.{Bit};
    ghost use Rattle.bb_base.specs.Net.{Gate};

    ghost Value = { Gate Bit };

    ghost view = { λ s. record { op = s.op; out = s.out; ins = s.ins.items } };
}

/// A flip-flop, by the names of its bits.
#[derive(Drop)]
pub struct Instance {
    pub number: u32,
    pub clock: BitText,
    pub q: BitText,
    pub d: BitText,
}

impl Model for Instance {
    ghost use Rattle.bb_spell.specs.Lines.{FlopLine as InstanceValue};

    ghost Value = { InstanceValue };

    ghost view = { λ i. record { number = i.number; clock = i.clock; flop = record { q = i.q; d = i.d } } };
}

/// The name of the module, in its first line.
#[tactic(auto, unfolding(crate::specs::Lines::head_name))]
pub fn read_module(alloc: Global, line: &[u8]) -> Result<Name, LineFault>
    ensures { IsRead (λ name. name) result (head_name line.now) }
{
    let rest = after(b"module ", line)?;
    let (name, _) = read_name(alloc, rest)?;
    Ok(name)
}

#[tactic(auto, unfolding(crate::specs::Lines::word_role))]
pub fn word_role(word: &[u8]) -> Option<Role>
    ensures { result ≡ word_role word.now }
{
    match word {
        b"input" => Some(Role::Input),
        b"output" => Some(Role::Output),
        b"wire" => Some(Role::Wire),
        _ => None,
    }
}

/// The variable that a line declares.
#[tactic(auto, unfolding(crate::specs::Lines::declaration_of))]
pub fn read_declaration(alloc: Global, line: &[u8]) -> Result<(Name, Variable), LineFault>
    ensures value { IsRead (λ v. (v.0, v.1)) result (declaration_of line.now) }
    ensures range { IfOk result (λ v. IsRange v.1.range) }
{
    let (word, rest) = word_at(line);
    let Some(role) = word_role(word) else {
        return Err(LineFault::NotCanonical);
    };
    let (range, rest) = read_range(rest)?;
    let rest = after(b" ", rest)?;
    let (name, rest) = read_name(alloc, rest)?;
    if rest == b";".as_slice() {
        Ok((name, Variable { range, role }))
    } else {
        Err(LineFault::NotCanonical)
    }
}

#[tactic(auto, unfolding(crate::specs::Lines::op_of))]
fn operator(word: &[u8]) -> Option<Op>
    ensures { result ≡ op_of word.now }
{
    match word {
        b"and" => Some(Op::And),
        b"nand" => Some(Op::Nand),
        b"or" => Some(Op::Or),
        b"nor" => Some(Op::Nor),
        b"xor" => Some(Op::Xor),
        b"xnor" => Some(Op::Xnor),
        b"not" => Some(Op::Not),
        b"buf" => Some(Op::Buf),
        _ => None,
    }
}

#[tactic(auto, unfolding(crate::specs::Lines::constant_op))]
fn constant(bytes: &[u8]) -> Option<Op>
    ensures { result ≡ constant_op bytes.now }
{
    match bytes {
        b"0;" => Some(Op::Zero),
        b"1;" => Some(Op::One),
        _ => None,
    }
}

#[tactic(auto, unfolding(crate::specs::Lines::constant_of))]
fn read_constant(alloc: Global, bytes: &[u8]) -> Result<Statement, LineFault>
    ensures { IsRead (λ s. s) result (constant_of bytes.now) }
{
    let rest = after(b" ", bytes)?;
    let (out, rest) = read_bit(alloc, rest)?;
    let rest = after(b" = 1'b", rest)?;
    let Some(op) = constant(rest) else {
        return Err(LineFault::NotCanonical);
    };
    Ok(Statement {
        op,
        out,
        ins: Vec::new(alloc),
    })
}

/// The further bits at the front, which are pushed, and what follows them.
fn read_bits<'a>(
    alloc: Global,
    bits: &mut Vec<BitText>,
    bytes: &'a [u8],
) -> Result<&'a [u8], LineFault>
    ensures { IsRead (λ rest. (bits.new.items, rest.now)) result (with_front bits.old.items (front_bits (length bytes.now) bytes.now)) }
{
    let mut rest = bytes;
    'bits: while begins_with(b", ", rest) {
        let (_, from) = rest.split_at(2);
        let (bit, tail) = match read_bit(alloc, from) {
            Ok(read) => read,
            Err(fault) => return Err(fault),
        };
        bits.push(bit)?;
        rest = tail;
    }
    Ok(rest)
}

#[tactic(auto, unfolding(crate::specs::Lines::primitive_of))]
fn read_primitive(alloc: Global, op: Op, bytes: &[u8]) -> Result<Statement, LineFault>
    ensures { IsRead (λ s. s) result (primitive_of op bytes.now) }
{
    let rest = after(b" (", bytes)?;
    let (out, rest) = read_bit(alloc, rest)?;
    let mut ins = Vec::new(alloc);
    let rest = read_bits(alloc, &mut ins, rest)?;
    if rest == b");".as_slice() {
        Ok(Statement { op, out, ins })
    } else {
        Err(LineFault::NotCanonical)
    }
}

/// The gate that a line says.
#[tactic(auto, unfolding(crate::specs::Lines::statement_of))]
pub fn read_statement(alloc: Global, line: &[u8]) -> Result<Statement, LineFault>
    ensures { IsRead (λ s. s) result (statement_of line.now) }
{
    let (word, rest) = word_at(line);
    if word == b"assign".as_slice() {
        return read_constant(alloc, rest);
    }
    match operator(word) {
        Some(op) => read_primitive(alloc, op, rest),
        None => Err(LineFault::NotCanonical),
    }
}

#[tactic(auto, unfolding(crate::specs::Lines::flop_pins))]
pub fn read_pins(alloc: Global, number: u32, bytes: &[u8]) -> Result<Instance, LineFault>
    ensures { IsRead (λ i. i) result (flop_pins number bytes.now) }
{
    let rest = after(b" (", bytes)?;
    let (clock, rest) = read_bit(alloc, rest)?;
    let rest = after(b", ", rest)?;
    let (q, rest) = read_bit(alloc, rest)?;
    let rest = after(b", ", rest)?;
    let (d, rest) = read_bit(alloc, rest)?;
    if rest == b");".as_slice() {
        Ok(Instance {
            number,
            clock,
            q,
            d,
        })
    } else {
        Err(LineFault::NotCanonical)
    }
}

/// The flip-flop that a line says.
#[tactic(auto, unfolding(crate::specs::Lines::flop_of))]
pub fn read_flop(alloc: Global, line: &[u8]) -> Result<Instance, LineFault>
    ensures { IsRead (λ i. i) result (flop_of line.now) }
{
    let rest = after(b"dff bt_f", line)?;
    let (number, rest) = read_small(rest)?;
    read_pins(alloc, number, rest)
}
