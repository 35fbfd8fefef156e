//! Marks on bits: a table of them by number.

ghost use Rattle.std.specs.Prelude.{◌≡◌, ◌<◌, ◌≤◌, ◌^◌, ◌+◌, ◌++◌, IfOk, ℕ, All, length, map, flat_map, if◌then◌else◌, [], List};
ghost use Rattle.std.specs.List.{range_with_len};
ghost use Rattle.bb_base.specs.Net.{Gate as GateValue};
ghost use Rattle.bb_base.specs.Variables.{range_width};
ghost use Rattle.bb_drive.specs.Nets.{bits_from, input_bits};
ghost use Rattle.bb_fault.specs.Work.{Work as WorkValue, Clocked as ClockedValue};
ghost use Rattle.bb_drive.specs.Clock.{is_buf, clock_pins, read_as_data};
ghost use Rattle.bb_drive.specs.Within.{IsWithin, IsGateWithin, IsFlopWithin};
ghost use Rattle.bb_drive.specs.Tallies.{is_role};
ghost use Rattle.bb_drive.specs.Origins.{AreMarked, AreMarks};

use crate::drivers::is_role;
use bb_base::{Gate, Name, NetId, Op, Role, Variable};
use bb_fault::{Clocked, Work, range_width};
use indexmap::IndexMap;
use std::alloc::{AllocError, Global};

/// Marks so many bits from this one on, as far as the table reaches.
fn mark_range(marks: &mut [bool], first: u64, width: u64)
    requires { length marks.old < 2 ^ 32 }
    ensures { AreMarked (range_with_len first width) marks.old marks.new }
{
    let end = first.saturating_add(width).min(marks.len() as u64);
    'bits: for bit in first..end {
        marks[bit as usize] = true;
    }
}

/// Marks the bits of a variable, where it has this role and its first bit this number.
fn mark_variable(marks: &mut [bool], first: u64, variable: &Variable, role: Role)
    requires { length marks.old < 2 ^ 32 }
    ensures { AreMarked (if is_role role variable.now.role then range_with_len first (range_width variable.now.range) else []) marks.old marks.new }
{
    if is_role(role, variable.role) {
        mark_range(marks, first, range_width(variable.range));
    }
}

/// Marks the bits of the variables of this role.
fn mark_role(marks: &mut [bool], vars: &IndexMap<Name, Variable>, role: Role)
    requires { length marks.old < 2 ^ 32 }
    ensures { AreMarked (bits_from (is_role role) 0 vars.now.entries) marks.old marks.new }
{
    let mut first: u64 = 0;
    'vars: for index in 0..vars.len() {
        if first >= marks.len() as u64 {
            return;
        }
        let (_, variable) = vars.get_index(index).unwrap();
        mark_variable(marks, first, variable, role);
        first = first.saturating_add(range_width(variable.range));
    }
}

/// Marks these nets.
fn mark_nets(marks: &mut [bool], nets: &[NetId])
    requires { All (λ n. n < length marks.old) nets.now }
    ensures { AreMarked nets.now marks.old marks.new }
{
    'nets: for net in nets {
        marks[net.0 as usize] = true;
    }
}

/// Marks the inputs of a gate that is no `Buf`.
fn mark_gate_inputs(marks: &mut [bool], gate: &Gate)
    requires { All (λ n. n < length marks.old) gate.now.ins }
    ensures { AreMarked (if is_buf gate.now.op then [] else gate.now.ins) marks.old marks.new }
{
    match gate.op {
        Op::Buf => {}
        _ => mark_nets(marks, &gate.ins),
    }
}

/// Marks the inputs of gates other than `Buf`.
fn mark_gates(marks: &mut [bool], gates: &[Gate])
    requires { All (IsGateWithin (length marks.old)) gates.now }
    ensures { AreMarked (flat_map (λ (g : GateValue ℕ). if is_buf g.op then [] else g.ins) gates.now) marks.old marks.new }
{
    'gates: for gate in gates {
        mark_gate_inputs(marks, gate);
    }
}

/// Marks clock pins.
fn mark_clock_pins(marks: &mut [bool], flops: &[Clocked])
    requires { All (IsFlopWithin (length marks.old)) flops.now }
    ensures { AreMarked (map (λ (f : ClockedValue). f.clock) flops.now) marks.old marks.new }
{
    'flops: for flop in flops {
        marks[flop.clock.0 as usize] = true;
    }
}

/// Marks d pins.
fn mark_d_pins(marks: &mut [bool], flops: &[Clocked])
    requires { All (IsFlopWithin (length marks.old)) flops.now }
    ensures { AreMarked (map (λ (f : ClockedValue). f.d) flops.now) marks.old marks.new }
{
    'flops: for flop in flops {
        marks[flop.d.0 as usize] = true;
    }
}

/// The input bits.
pub(crate) fn input_marks(
    alloc: Global,
    vars: &IndexMap<Name, Variable>,
    nets: u32,
) -> Result<Vec<bool>, AllocError>
    ensures { IfOk result (λ marks. AreMarks (input_bits vars.now.entries) nets marks.items) }
{
    let mut marks = vec![in alloc; false; nets as usize]?;
    mark_role(&mut marks, vars, Role::Input);
    Ok(marks)
}

/// The nets of clock pins.
pub(crate) fn pin_marks(alloc: Global, work: &Work) -> Result<Vec<bool>, AllocError>
    requires { IsWithin work.now }
    ensures { IfOk result (λ marks. AreMarks (clock_pins work.now) work.now.fresh marks.items) }
{
    let mut marks = vec![in alloc; false; work.fresh as usize]?;
    mark_clock_pins(&mut marks, &work.flops);
    Ok(marks)
}

/// What is read as data: by the outside, by gates other than `Buf`, and by d pins.
pub(crate) fn data_marks(
    alloc: Global,
    vars: &IndexMap<Name, Variable>,
    work: &Work,
) -> Result<Vec<bool>, AllocError>
    requires { IsWithin work.now }
    ensures { IfOk result (λ marks. AreMarks (read_as_data vars.now.entries work.now) work.now.fresh marks.items) }
{
    let mut marks = vec![in alloc; false; work.fresh as usize]?;
    mark_role(&mut marks, vars, Role::Output);
    mark_gates(&mut marks, &work.gates);
    mark_d_pins(&mut marks, &work.flops);
    Ok(marks)
}
