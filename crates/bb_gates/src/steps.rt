//! The gates of expressions.

ghost use Rattle.std.specs.Prelude.{◌≡◌, ◌<◌, ◌∷◌, [], ◌-◌, ◌^◌, ◌/◌, ◌%◌, ◌==◌, reverse, take, drop, OnOk, IfOk, IfSome, IfNone};
ghost use Rattle.std.specs.List.{range_with_len};
ghost use Rattle.bb_scope.specs.Names.{step_names, steps_names};
ghost use Rattle.bb_scope.specs.Uses.{AreNext};
ghost use Rattle.bb_scope.specs.Making.{as_value, const_bits, side_by_side, copies, not_made, two_made, choice_made, repeat_made, step_made, steps_made, terminal_made, copied_onto, makes_gates, assigned};
ghost use Rattle.bb_fault.specs.Work.{Makes};
ghost use Rattle.bb_gates.specs.Targets.{outs_in};

use crate::bitwise::{chosen, grounded, inverted, joined_by};
use bb_base::{NetId, Op};
use bb_fault::{Work, constant};
use bb_parse::Step;
use bb_scope::{Bit, Bits, Scope, behind_step};
use std::alloc::{AllocError, Global};
use std::marker::Model;

/// The bits of a value, from left to right.
#[derive(Drop)]
struct Value {
    bits: Vec<Bit>,
}

impl Model for Value {
    ghost use Rattle.std.specs.Prelude.{List};
    ghost use Rattle.bb_scope.specs.declared.value.Bit.{Bit as BitValue};

    ghost Value = { List BitValue };

    ghost view = { λ v. v.bits.items };
}

/// The values that stand open, the last one first.
#[derive(Drop)]
struct Values {
    items: Vec<Value>,
}

impl Model for Values {
    ghost use Rattle.std.specs.Prelude.{List, reverse};
    ghost use Rattle.bb_scope.specs.declared.value.Bit.{Bit as BitValue};

    ghost Value = { List (List BitValue) };

    ghost view = { λ s. reverse s.items.items };
}

impl Values {
    /// No values.
    fn new(alloc: Global) -> Values
        ensures { result ≡ [] }
    {
        Values {
            items: Vec::new(alloc),
        }
    }

    /// Puts a value behind the others.
    fn push(&mut self, bits: Vec<Bit>) -> Result<(), AllocError>
        ensures { OnOk result (self.new ≡ bits.items ∷ self.old) }
    {
        self.items.push(Value { bits })?;
        Ok(())
    }

    /// Takes the value that stands last.
    fn pop(&mut self) -> Option<Value>
        ensures some { IfSome result (λ value. self.old ≡ value ∷ self.new) }
        ensures none { IfNone result ((self.old ≡ []) × (self.new ≡ [])) }
    {
        self.items.pop()
    }

    /// The last so many values become one, side by side.
    fn join(&mut self, alloc: Global, count: u64) -> Result<(), AllocError>
        ensures { OnOk result (self.new ≡ side_by_side (reverse (take count self.old)) ∷ drop count self.old) }
    {
        let kept = (self.items.len() as u64).saturating_sub(count) as usize;
        let bits = joined(alloc, self.items.split_at(kept).1)?;
        self.items.truncate(kept);
        self.push(bits)
    }

    /// The last value becomes so many copies of it, side by side.
    fn repeat(&mut self, alloc: Global, times: u32) -> Result<(), AllocError>
        ensures { OnOk result (self.new ≡ repeat_made times self.old) }
    {
        let Some(value) = self.pop() else {
            return Ok(());
        };
        let bits = copies(alloc, times, &value.bits)?;
        self.push(bits)
    }
}

/// Values side by side.
fn joined(alloc: Global, values: &[Value]) -> Result<Vec<Bit>, AllocError>
    ensures { IfOk result (λ bits. bits.items ≡ side_by_side values.now) }
{
    let mut bits = Vec::new(alloc);
    for value in values {
        bits.extend_from_slice(&value.bits)?;
    }
    Ok(bits)
}

/// So many copies of a value, side by side.
fn copies(alloc: Global, times: u32, value: &[Bit]) -> Result<Vec<Bit>, AllocError>
    ensures { IfOk result (λ bits. bits.items ≡ copies times value.now) }
{
    let mut bits = Vec::new(alloc);
    for _ in 0..times {
        bits.extend_from_slice(value)?;
    }
    Ok(bits)
}

/// The value of a reference.
fn ref_value(alloc: Global, named: Bits) -> Result<Vec<Bit>, AllocError>
    ensures { IfOk result (λ bits. bits.items ≡ as_value (range_with_len named.first (named.end - named.first))) }
{
    let width = named.end.saturating_sub(named.first);
    let mut bits = Vec::with_capacity(alloc, width as usize)?;
    for net in named.first..named.end {
        bits.push(Bit::Net(net))?;
    }
    Ok(bits)
}

/// The bit of a number at a place from the right.
fn bit_at(number: u128, place: u8) -> bool
    ensures { result ≡ ((number / 2 ^ place) % 2 == 1) }
{
    match number.checked_shr(place as u32) {
        Some(rest) => rest % 2 == 1,
        None => false,
    }
}

/// The bits of a constant, the highest of them first.
fn const_bits(alloc: Global, size: u8, number: u128) -> Result<Vec<Bit>, AllocError>
    ensures { IfOk result (λ bits. bits.items ≡ const_bits size number) }
{
    let mut bits = Vec::with_capacity(alloc, size as usize)?;
    for place in 0..size {
        bits.push(Bit::Fixed(bit_at(number, size - 1 - place)))?;
    }
    Ok(bits)
}

/// The operand of `~` becomes its value.
fn not_made(work: &mut Work, outs: Option<&[NetId]>, stack: &mut Values) -> Result<(), AllocError>
    requires room { (not_made (outs_in outs) stack.old work.old).1.fresh < 2 ^ 32 }
    ensures { OnOk result (Makes (not_made (outs_in outs.entry) stack.old) work.old stack.new work.new) }
{
    let Some(a) = stack.pop() else {
        return Ok(());
    };
    let bits = inverted(work, outs, &a.bits)?;
    stack.push(bits)
}

/// Two operands become one value.
fn two_made(
    work: &mut Work,
    op: Op,
    outs: Option<&[NetId]>,
    stack: &mut Values,
) -> Result<(), AllocError>
    requires room { (two_made op (outs_in outs) stack.old work.old).1.fresh < 2 ^ 32 }
    ensures { OnOk result (Makes (two_made op (outs_in outs.entry) stack.old) work.old stack.new work.new) }
{
    let Some(b) = stack.pop() else {
        return Ok(());
    };
    let Some(a) = stack.pop() else {
        return Ok(());
    };
    let bits = joined_by(work, op, outs, &a.bits, &b.bits)?;
    stack.push(bits)
}

/// A condition and two operands become one value.
fn choice_made(
    work: &mut Work,
    outs: Option<&[NetId]>,
    stack: &mut Values,
) -> Result<(), AllocError>
    requires room { (choice_made (outs_in outs) stack.old work.old).1.fresh < 2 ^ 32 }
    ensures { OnOk result (Makes (choice_made (outs_in outs.entry) stack.old) work.old stack.new work.new) }
{
    let Some(b) = stack.pop() else {
        return Ok(());
    };
    let Some(a) = stack.pop() else {
        return Ok(());
    };
    let Some(condition) = stack.pop() else {
        return Ok(());
    };
    let bits = chosen(work, outs, &condition.bits, &a.bits, &b.bits)?;
    stack.push(bits)
}

/// A step of an expression, whose gates drive targets or new nets.
fn step_made(
    work: &mut Work,
    scope: &Scope,
    outs: Option<&[NetId]>,
    uses: &[usize],
    step: &Step,
    stack: &mut Values,
) -> Result<(), AllocError>
    requires next { AreNext scope.now (step_names step.now) uses.now }
    requires room { (step_made scope.now (outs_in outs) step.now stack.old work.old).1.fresh < 2 ^ 32 }
    ensures { OnOk result (Makes (step_made scope.now (outs_in outs.entry) step.now stack.old) work.old stack.new work.new) }
{
    match step {
        Step::Ref(reference) => stack.push(ref_value(work.alloc, scope.bits(uses, reference))?),
        Step::Const { size, value } => stack.push(const_bits(work.alloc, *size, *value)?),
        Step::Not => not_made(work, outs, stack),
        Step::And => two_made(work, Op::And, outs, stack),
        Step::Or => two_made(work, Op::Or, outs, stack),
        Step::Xor => two_made(work, Op::Xor, outs, stack),
        Step::Xnor => two_made(work, Op::Xnor, outs, stack),
        Step::Cond => choice_made(work, outs, stack),
        Step::Join(count) => stack.join(work.alloc, *count),
        Step::Repeat(times) => stack.repeat(work.alloc, *times),
    }
}

/// Steps one after the other, whose gates drive new nets.
#[tactic(auto, using(bb_scope::proofs::UseLaws::use_laws))]
fn steps_made(
    work: &mut Work,
    scope: &Scope,
    uses: &[usize],
    steps: &[Step],
    stack: &mut Values,
) -> Result<(), AllocError>
    requires next { AreNext scope.now (steps_names steps.now) uses.now }
    requires room { (steps_made scope.now steps.now stack.old work.old).1.fresh < 2 ^ 32 }
    ensures { OnOk result (Makes (steps_made scope.now steps.now stack.old) work.old stack.new work.new) }
{
    let mut rest = uses;
    for step in steps {
        step_made(work, scope, None, rest, step, stack)?;
        rest = behind_step(rest, step);
    }
    Ok(())
}

/// The net of a terminal or pin that is read, as a list of one.
#[tactic(auto, using(crate::proofs::Growing::growth))]
pub(crate) fn terminal_made(
    work: &mut Work,
    scope: &Scope,
    uses: &[usize],
    steps: &[Step],
) -> Result<Vec<NetId>, AllocError>
    requires next { AreNext scope.now (steps_names steps.now) uses.now }
    requires room { (terminal_made scope.now steps.now work.old).1.fresh < 2 ^ 32 }
    ensures { IfOk result (λ nets. Makes (terminal_made scope.now steps.now) work.old nets.items work.new) }
{
    if let [Step::Ref(reference)] = steps {
        let nets = scope.bits(uses, reference).nets(work.alloc)?;
        return Ok(nets);
    }
    let mut stack = Values::new(work.alloc);
    steps_made(work, scope, uses, steps, &mut stack)?;
    match stack.pop() {
        Some(value) => grounded(work, &value.bits),
        None => Ok(Vec::new(work.alloc)),
    }
}

/// A gate for each target that copies its bit.
fn copied_onto(work: &mut Work, targets: &[NetId], bits: &[Bit]) -> Result<(), AllocError>
    ensures { OnOk result (work.new ≡ (copied_onto targets.now bits.now work.old).1) }
{
    for (index, target) in targets.iter().enumerate() {
        let Some(bit) = bits.get(index) else {
            return Ok(());
        };
        match bit {
            Bit::Net(net) => work.drive(Op::Buf, &[NetId(*net)], *target)?,
            Bit::Fixed(one) => work.drive(constant(*one), &[], *target)?,
        };
    }
    Ok(())
}

/// Whether a step has gates of its own.
fn is_operator(step: &Step) -> bool
    ensures { result ≡ makes_gates step.now }
{
    match step {
        Step::Not | Step::And | Step::Or | Step::Xor | Step::Xnor | Step::Cond => true,
        Step::Ref(_) | Step::Const { .. } | Step::Join(_) | Step::Repeat(_) => false,
    }
}

/// The gates of an assign: those of an operator that stands last drive the targets.
#[tactic(auto, using(bb_scope::proofs::UseLaws::use_laws, crate::proofs::Growing::growth))]
pub(crate) fn assigned(
    work: &mut Work,
    scope: &Scope,
    targets: &[NetId],
    uses: &[usize],
    steps: &[Step],
) -> Result<(), AllocError>
    requires next { AreNext scope.now (steps_names steps.now) uses.now }
    requires room { (assigned scope.now targets.now steps.now [] work.old).1.fresh < 2 ^ 32 }
    ensures { IfOk result (λ done. work.new ≡ (assigned scope.now targets.now steps.now [] work.old).1) }
{
    let mut stack = Values::new(work.alloc);
    let mut rest = uses;
    for (index, step) in steps.iter().enumerate() {
        if index + 1 == steps.len() && is_operator(step) {
            return step_made(work, scope, Some(targets), rest, step, &mut stack);
        }
        step_made(work, scope, None, rest, step, &mut stack)?;
        rest = behind_step(rest, step);
    }
    match stack.pop() {
        Some(value) => copied_onto(work, targets, &value.bits),
        None => Ok(()),
    }
}
