//! The widths of values, and how many nets expressions make.

ghost use Rattle.std.specs.Prelude.{◌≡◌, ◌<◌, ◌≤◌, ◌+◌, ◌∷◌, [], length, take, drop, OnOk, IfOk, IfNone, IfSome, false};
ghost use Rattle.bb_parse.specs.declared.syntax.Step.TheVariants as step;
ghost use Rattle.bb_scope.specs.References.{ref_fault, ref_span, width_of, width_limit};
ghost use Rattle.bb_scope.specs.Names.{step_names, steps_names};
ghost use Rattle.bb_fault.specs.Limits.{told_count};
ghost use Rattle.bb_scope.specs.Uses.{AreNext};
ghost use Rattle.bb_scope.specs.Answers.{IsAnswer, IsAnswerWith};
ghost use Rattle.bb_scope.specs.Cells.{is_plain};
ghost use Rattle.bb_scope.specs.Sizes.{width, of_nets, total, too_wide, own_nets, two_fault, choice_fault, repeat_fault, step_fault, not_stack, two_stack, choice_stack, repeat_stack, step_stack, not_nets, two_nets, choice_nets, step_nets, steps_fault, steps_stack, steps_nets, last_size, expr_fault, terminal_nets, value_nets};
ghost use Rattle.bb_scope.specs.Terminals.{is_last};

use bb_fault::ElabFault;
use bb_parse::{Ref, Step};
use bb_scope::{Scope, Size, WIDTH_LIMIT, behind_step, bits_of, span_fault};
use std::alloc::{AllocError, Global};
use std::marker::Model;

/// How many bits a value has.
fn width(size: Size) -> u32
    requires { width size ≤ width_limit }
    ensures { result ≡ width size }
{
    size.nets + size.constants
}

/// The values that stand open, the last one first.
#[derive(Drop)]
struct Stack {
    items: Vec<Size>,
}

impl Model for Stack {
    ghost use Rattle.std.specs.Prelude.{List, reverse, All, ◌≤◌};
    ghost use Rattle.bb_scope.specs.References.{width_limit};
    ghost use Rattle.bb_scope.specs.Sizes.{width};
    ghost use Rattle.bb_scope.specs.declared.size.Size.{Size as SizeValue};

    ghost Value = { List SizeValue };

    ghost view = { λ s. reverse s.items.items };

    ghost invariant = { λ s. All (λ a. width a ≤ width_limit) s.items.items };
}

impl Stack {
    fn new(alloc: Global) -> Stack
        ensures { result ≡ [] }
    {
        Stack {
            items: Vec::new(alloc),
        }
    }

    fn push(&mut self, size: Size) -> Result<(), AllocError>
        requires { width size ≤ width_limit }
        ensures { OnOk result (self.new ≡ size ∷ self.old) }
    {
        self.items.push(size)?;
        Ok(())
    }

    fn pop(&mut self) -> Option<Size>
        ensures some { IfSome result (λ size. self.old ≡ size ∷ self.new) }
        ensures narrow { IfSome result (λ size. width size ≤ width_limit) }
        ensures none { IfNone result ((self.old ≡ []) × (self.new ≡ [])) }
    {
        self.items.pop()
    }
}

/// Puts a value on the stack, unless it is too wide.
fn push_wide(stack: &mut Stack, line: u32, nets: u64, constants: u64) -> Result<(), ElabFault>
    ensures fault { IsAnswer (too_wide line (record { nets = nets; constants = constants })) result }
    ensures stack { OnOk result (stack.new ≡ record { nets = nets; constants = constants } ∷ stack.old) }
{
    if nets.saturating_add(constants) > WIDTH_LIMIT {
        return Err(ElabFault::TooWide { line });
    }
    stack.push(Size {
        nets: nets as u32,
        constants: constants as u32,
    })?;
    Ok(())
}

/// A value whose bits are nets.
fn push_nets(stack: &mut Stack, width: u32) -> Result<(), AllocError>
    requires { width ≤ width_limit }
    ensures { OnOk result (stack.new ≡ record { nets = width; constants = 0 } ∷ stack.old) }
{
    stack.push(Size {
        nets: width,
        constants: 0,
    })
}

/// How many nets an operator's own bits get.
fn own_nets(drives: bool, width: u32) -> u64
    ensures { result ≡ own_nets drives width }
{
    if drives { 0 } else { width as u64 }
}

/// The operand of `~` becomes its value.
fn invert(stack: &mut Stack, drives: bool) -> Result<u64, AllocError>
    ensures nets { IfOk result (λ nets. nets ≡ not_nets drives stack.old) }
    ensures stack { OnOk result (stack.new ≡ not_stack stack.old) }
{
    let Some(a) = stack.pop() else {
        return Ok(0);
    };
    push_nets(stack, width(a))?;
    Ok(a.constants as u64 + own_nets(drives, width(a)))
}

/// Two operands become one value.
fn join_by(stack: &mut Stack, line: u32, drives: bool) -> Result<u64, ElabFault>
    ensures counts { IsAnswerWith (two_fault line stack.old) (two_nets drives stack.old) result }
    ensures stack { OnOk result (stack.new ≡ two_stack stack.old) }
{
    let Some(b) = stack.pop() else {
        return Ok(0);
    };
    let Some(a) = stack.pop() else {
        return Ok(0);
    };
    let bits = width(a);
    if bits != width(b) {
        return Err(ElabFault::WidthDiffers { line });
    }
    push_nets(stack, bits)?;
    Ok(a.constants as u64 + b.constants as u64 + own_nets(drives, bits))
}

/// A condition and two operands become one value.
fn choose(stack: &mut Stack, line: u32, drives: bool) -> Result<u64, ElabFault>
    ensures counts { IsAnswerWith (choice_fault line stack.old) (choice_nets drives stack.old) result }
    ensures stack { OnOk result (stack.new ≡ choice_stack stack.old) }
{
    let Some(b) = stack.pop() else {
        return Ok(0);
    };
    let Some(a) = stack.pop() else {
        return Ok(0);
    };
    let Some(condition) = stack.pop() else {
        return Ok(0);
    };
    let bits = width(a);
    if width(condition) != 1 || bits != width(b) {
        return Err(ElabFault::WidthDiffers { line });
    }
    push_nets(stack, bits)?;
    let grounded = condition.constants as u64 + a.constants as u64 + b.constants as u64;
    Ok(grounded + 1 + 2 * bits as u64 + own_nets(drives, bits))
}

/// Takes the last values, and answers their bits together.
fn take_last(stack: &mut Stack, count: u64) -> (u64, u64)
    ensures nets { result.0 ≡ told_count (total (take count stack.old)).nets }
    ensures constants { result.1 ≡ told_count (total (take count stack.old)).constants }
    ensures stack { stack.new ≡ drop count stack.old }
{
    let mut nets: u64 = 0;
    let mut constants: u64 = 0;
    for _ in 0..count {
        let Some(a) = stack.pop() else {
            break;
        };
        nets = nets.saturating_add(a.nets as u64);
        constants = constants.saturating_add(a.constants as u64);
    }
    (nets, constants)
}

/// The last values become one, side by side.
fn join(stack: &mut Stack, line: u32, count: u64) -> Result<(), ElabFault>
    ensures fault { IsAnswer (too_wide line (total (take count stack.old))) result }
    ensures stack { OnOk result (stack.new ≡ total (take count stack.old) ∷ drop count stack.old) }
{
    let (nets, constants) = take_last(stack, count);
    push_wide(stack, line, nets, constants)
}

/// The last value becomes so many copies of it, side by side.
fn repeat(stack: &mut Stack, line: u32, times: u32) -> Result<(), ElabFault>
    ensures fault { IsAnswer (repeat_fault line times stack.old) result }
    ensures stack { OnOk result (stack.new ≡ repeat_stack times stack.old) }
{
    let Some(a) = stack.pop() else {
        return Ok(());
    };
    let nets = (a.nets as u64).saturating_mul(times as u64);
    let constants = (a.constants as u64).saturating_mul(times as u64);
    push_wide(stack, line, nets, constants)
}

/// A reference becomes a value.
fn push_ref(
    scope: &Scope,
    stack: &mut Stack,
    line: u32,
    uses: &[usize],
    reference: &Ref,
) -> Result<(), ElabFault>
    requires { AreNext scope.now (reference.now.name ∷ []) uses.now }
    ensures fault { IsAnswer (ref_fault scope.now line reference.now) result }
    ensures stack { OnOk result (stack.new ≡ of_nets (width_of (ref_span scope.now reference.now)) ∷ stack.old) }
{
    match scope.span(uses, reference) {
        None => Err(ElabFault::BadSelect { line }),
        Some(span) => push_wide(stack, line, span.width, 0),
    }
}

/// A step of an expression, which drives targets or not.
fn step(
    scope: &Scope,
    line: u32,
    drives: bool,
    uses: &[usize],
    step: &Step,
    stack: &mut Stack,
) -> Result<u64, ElabFault>
    requires { AreNext scope.now (step_names step.now) uses.now }
    ensures counts { IsAnswerWith (step_fault scope.now line step.now stack.old) (step_nets drives step.now stack.old) result }
    ensures stack { OnOk result (stack.new ≡ step_stack scope.now step.now stack.old) }
{
    match step {
        Step::Ref(reference) => {
            push_ref(scope, stack, line, uses, reference)?;
            Ok(0)
        }
        Step::Const { size, value: _ } => {
            stack.push(Size {
                nets: 0,
                constants: *size as u32,
            })?;
            Ok(0)
        }
        Step::Not => Ok(invert(stack, drives)?),
        Step::And | Step::Or | Step::Xor | Step::Xnor => join_by(stack, line, drives),
        Step::Cond => choose(stack, line, drives),
        Step::Join(count) => {
            join(stack, line, *count)?;
            Ok(0)
        }
        Step::Repeat(times) => {
            repeat(stack, line, *times)?;
            Ok(0)
        }
    }
}

/// The value that stands last.
fn last_size(stack: &mut Stack) -> Size
    ensures size { result ≡ last_size stack.old }
    ensures narrow { width result ≤ width_limit }
{
    match stack.pop() {
        Some(size) => size,
        None => Size {
            nets: 0,
            constants: 0,
        },
    }
}

/// Whether no step stands behind this one.
fn is_at_end(steps: &[Step], index: usize) -> bool
    requires { index < length steps.now }
    ensures { result ≡ is_last (drop (index + 1) steps.now) }
{
    index + 1 == steps.len()
}

/// The size of an expression's value, and the nets that its steps make, of which the last one drives targets or not.
#[tactic(auto, using(bb_scope::proofs::UseLaws::use_laws))]
fn walk(
    alloc: Global,
    scope: &Scope,
    line: u32,
    drives: bool,
    uses: &[usize],
    steps: &[Step],
) -> Result<(Size, u64), ElabFault>
    requires { AreNext scope.now (steps_names steps.now) uses.now }
    ensures fault { IsAnswer (steps_fault scope.now line steps.now []) result }
    ensures size { IfOk result (λ value. value.0 ≡ last_size (steps_stack scope.now steps.now [])) }
    ensures narrow { IfOk result (λ value. width value.0 ≤ width_limit) }
    ensures nets { IfOk result (λ value. value.1 ≡ told_count (steps_nets scope.now drives steps.now [])) }
{
    let mut stack = Stack::new(alloc);
    let mut nets: u64 = 0;
    let mut rest = uses;
    for (index, one) in steps.iter().enumerate() {
        let driving = drives && is_at_end(steps, index);
        let more = step(scope, line, driving, rest, one, &mut stack)?;
        nets = nets.saturating_add(more);
        rest = behind_step(rest, one);
    }
    Ok((last_size(&mut stack), nets))
}

/// The reference that an expression is, where it is one.
fn only_reference(steps: &[Step]) -> Option<&Ref>
    ensures some { IfSome result (λ reference. steps.now ≡ step.Ref reference.now ∷ []) }
    ensures none { IfNone result (is_plain steps.now ≡ false) }
{
    match steps {
        [Step::Ref(reference)] => Some(reference),
        _ => None,
    }
}

/// The nets of a reference at a terminal or pin, which are none, or its fault. Most terminals are references, so they get no stack.
fn plain_terminal(
    scope: &Scope,
    line: u32,
    uses: &[usize],
    reference: &Ref,
) -> Result<u64, ElabFault>
    requires { AreNext scope.now (reference.now.name ∷ []) uses.now }
    ensures { IsAnswerWith (expr_fault scope.now line 1 (step.Ref reference.now ∷ [])) 0 result }
{
    let span = scope.span(uses, reference);
    if let Some(fault) = span_fault(line, span) {
        return Err(fault);
    }
    if bits_of(span) != 1 {
        return Err(ElabFault::WidthDiffers { line });
    }
    Ok(0)
}

/// The nets of an expression at a terminal or pin, which must have one bit, or the first fault.
pub(crate) fn terminal(
    alloc: Global,
    scope: &Scope,
    line: u32,
    uses: &[usize],
    steps: &[Step],
) -> Result<u64, ElabFault>
    requires { AreNext scope.now (steps_names steps.now) uses.now }
    ensures { IsAnswerWith (expr_fault scope.now line 1 steps.now) (told_count (terminal_nets scope.now steps.now)) result }
{
    if let Some(reference) = only_reference(steps) {
        return plain_terminal(scope, line, uses, reference);
    }
    let (size, nets) = walk(alloc, scope, line, false, uses, steps)?;
    if width(size) != 1 {
        return Err(ElabFault::WidthDiffers { line });
    }
    Ok(nets.saturating_add(size.constants as u64))
}

/// The nets of an assign's expression, which must have this width, or the first fault.
pub(crate) fn value(
    alloc: Global,
    scope: &Scope,
    line: u32,
    wanted: u128,
    uses: &[usize],
    steps: &[Step],
) -> Result<u64, ElabFault>
    requires { AreNext scope.now (steps_names steps.now) uses.now }
    ensures { IsAnswerWith (expr_fault scope.now line wanted steps.now) (told_count (value_nets scope.now steps.now)) result }
{
    let (size, nets) = walk(alloc, scope, line, true, uses, steps)?;
    if width(size) as u128 != wanted {
        return Err(ElabFault::WidthDiffers { line });
    }
    Ok(nets)
}
