ghost use Rattle.std.specs.Prelude.{◌≡◌, ◌++◌, ◌<◌, Option, Some, All, length, map, OnOk};
ghost use Rattle.std.specs.List.{flat_map};
ghost use Rattle.bb_base.specs.Variables.{IsBit, bit_of};
ghost use Rattle.bb_base.specs.Net.{renamed_gate, renamed_flop};
ghost use Rattle.bb_base.specs.Named.{net_text};
ghost use Rattle.bb_spell.specs.Spelling.{spelled_name, spelled_bit, further, joined, role_word, spelled_range, declaration, op_word, constant_line, primitive_line, gate_line, pins, flop_line, module_line};
ghost use Rattle.bb_spell.specs.Canonical.{port_names};

use crate::spell::{write_bit, write_name, write_net, write_number};
use bb_base::{BitName, Flop, Gate, Name, NetId, Op, Role, Variable, is_port_role};
use bb_net::Named;
use std::alloc::AllocError;

/// Appends the ports' names, parted by commas.
fn write_ports(line: &mut Vec<u8>, named: &Named) -> Result<(), AllocError>
    ensures { OnOk result (line.new.items ≡ line.old.items ++ joined (map spelled_name (port_names named.now.variables))) }
{
    let mut parted = false;
    'ports: for number in 0..named.variables() {
        let (name, variable) = named.variable(number);
        if is_port_role(variable.role) {
            if parted {
                line.extend_from_slice(b", ")?;
            }
            write_name(line, name.bytes())?;
            parted = true;
        }
    }
    Ok(())
}

/// Appends the line of the module's name and ports.
pub(crate) fn write_module(line: &mut Vec<u8>, named: &Named) -> Result<(), AllocError>
    ensures { OnOk result (line.new.items ≡ line.old.items ++ module_line named.now.module_name (port_names named.now.variables)) }
{
    line.extend_from_slice(b"module ")?;
    write_name(line, named.module().bytes())?;
    line.extend_from_slice(b" (")?;
    write_ports(line, named)?;
    line.extend_from_slice(b");")
}

fn role_word(role: Role) -> &'static [u8]
    ensures { result.now ≡ role_word role }
{
    match role {
        Role::Input => b"input",
        Role::Output => b"output",
        Role::Wire => b"wire",
    }
}

fn write_range(line: &mut Vec<u8>, range: Option<(u32, u32)>) -> Result<(), AllocError>
    ensures { OnOk result (line.new.items ≡ line.old.items ++ spelled_range range) }
{
    let Some((left, right)) = range else {
        return Ok(());
    };
    line.extend_from_slice(b" [")?;
    write_number(line, u64::from(left))?;
    line.extend_from_slice(b":")?;
    write_number(line, u64::from(right))?;
    line.extend_from_slice(b"]")
}

/// Appends the declaration of a variable.
pub(crate) fn write_declaration(
    line: &mut Vec<u8>,
    name: &Name,
    variable: Variable,
) -> Result<(), AllocError>
    ensures { OnOk result (line.new.items ≡ line.old.items ++ declaration (name.now, variable)) }
{
    line.extend_from_slice(role_word(variable.role))?;
    write_range(line, variable.range)?;
    line.extend_from_slice(b" ")?;
    write_name(line, name.bytes())?;
    line.extend_from_slice(b";")
}

fn op_word(op: Op) -> &'static [u8]
    ensures { result.now ≡ op_word op }
{
    match op {
        Op::And => b"and",
        Op::Nand => b"nand",
        Op::Or => b"or",
        Op::Nor => b"nor",
        Op::Xor => b"xor",
        Op::Xnor => b"xnor",
        Op::Not => b"not",
        Op::Buf => b"buf",
        Op::Zero | Op::One => b"assign",
    }
}

fn write_constant(
    line: &mut Vec<u8>,
    named: &Named,
    out: NetId,
    value: &[u8],
) -> Result<(), AllocError>
    requires { out < length named.now.names }
    ensures { OnOk result (line.new.items ≡ line.old.items ++ constant_line (net_text named.now out) value.now) }
{
    line.extend_from_slice(b"assign ")?;
    write_net(line, named, out)?;
    line.extend_from_slice(b" = 1'b")?;
    line.extend_from_slice(value)?;
    line.extend_from_slice(b";")
}

fn write_further(line: &mut Vec<u8>, named: &Named, nets: &[NetId]) -> Result<(), AllocError>
    requires { All (λ net. net < length named.now.names) nets.now }
    ensures { OnOk result (line.new.items ≡ line.old.items ++ flat_map further (map spelled_bit (map (net_text named.now) nets.now))) }
{
    'nets: for net in nets {
        line.extend_from_slice(b", ")?;
        write_net(line, named, *net)?;
    }
    Ok(())
}

fn write_primitive(line: &mut Vec<u8>, named: &Named, gate: &Gate) -> Result<(), AllocError>
    requires out { gate.now.out < length named.now.names }
    requires ins { All (λ net. net < length named.now.names) gate.now.ins }
    ensures { OnOk result (line.new.items ≡ line.old.items ++ primitive_line gate.now.op (net_text named.now gate.now.out) (map (net_text named.now) gate.now.ins)) }
{
    line.extend_from_slice(op_word(gate.op))?;
    line.extend_from_slice(b" (")?;
    write_net(line, named, gate.out)?;
    write_further(line, named, &gate.ins)?;
    line.extend_from_slice(b");")
}

/// Appends the statement of a gate.
pub(crate) fn write_statement(
    line: &mut Vec<u8>,
    named: &Named,
    gate: &Gate,
) -> Result<(), AllocError>
    requires out { gate.now.out < length named.now.names }
    requires ins { All (λ net. net < length named.now.names) gate.now.ins }
    ensures { OnOk result (line.new.items ≡ line.old.items ++ gate_line (renamed_gate (net_text named.now) gate.now)) }
{
    match gate.op {
        Op::Zero => write_constant(line, named, gate.out, b"0"),
        Op::One => write_constant(line, named, gate.out, b"1"),
        _ => write_primitive(line, named, gate),
    }
}

fn write_pins(
    line: &mut Vec<u8>,
    named: &Named,
    clock: BitName,
    flop: Flop,
) -> Result<(), AllocError>
    requires clock { IsBit named.now.variables clock }
    requires q { flop.q < length named.now.names }
    requires d { flop.d < length named.now.names }
    ensures { OnOk result (line.new.items ≡ line.old.items ++ pins (Some (bit_of named.now.variables clock)) (renamed_flop (net_text named.now) flop)) }
{
    line.extend_from_slice(b" (")?;
    write_bit(line, named, clock)?;
    line.extend_from_slice(b", ")?;
    write_net(line, named, flop.q)?;
    line.extend_from_slice(b", ")?;
    write_net(line, named, flop.d)?;
    line.extend_from_slice(b");")
}

/// Appends the instance of a flip-flop.
pub(crate) fn write_flop(
    line: &mut Vec<u8>,
    named: &Named,
    clock: BitName,
    number: u64,
    flop: Flop,
) -> Result<(), AllocError>
    requires clock { IsBit named.now.variables clock }
    requires q { flop.q < length named.now.names }
    requires d { flop.d < length named.now.names }
    ensures { OnOk result (line.new.items ≡ line.old.items ++ flop_line (Some (bit_of named.now.variables clock)) number (renamed_flop (net_text named.now) flop)) }
{
    line.extend_from_slice(b"dff bt_f")?;
    write_number(line, number)?;
    write_pins(line, named, clock, flop)
}
