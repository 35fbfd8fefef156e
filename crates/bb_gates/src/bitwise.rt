//! The gates of operators.

ghost use Rattle.std.specs.Prelude.{◌≡◌, ◌<◌, ◌^◌, ◌∷◌, [], ◌++◌, IfOk};
ghost use Rattle.bb_scope.specs.Making.{grounded, each_alone, each_pair, each_choice, as_value, inverted, joined_by, choice_between, first_out};
ghost use Rattle.bb_fault.specs.Work.{Makes};
ghost use Rattle.bb_gates.specs.Targets.{outs_in, outs_after, one_choice};

use bb_base::{NetId, Op};
use bb_fault::{Work, constant};
use bb_scope::Bit;
use smallvec::SmallVec;
use std::alloc::{AllocError, Global};

/// The nets of an operand, of which each constant bit gets one of its own.
pub(crate) fn grounded(work: &mut Work, bits: &[Bit]) -> Result<Vec<NetId>, AllocError>
    requires room { (grounded bits.now work.old).1.fresh < 2 ^ 32 }
    ensures { IfOk result (λ nets. Makes (grounded bits.now) work.old nets.items work.new) }
{
    let mut nets = Vec::with_capacity(work.alloc, bits.len())?;
    for bit in bits {
        match bit {
            Bit::Net(net) => nets.push(NetId(*net))?,
            Bit::Fixed(one) => {
                let net = work.make(constant(*one), &[])?;
                nets.push(net)?;
            }
        }
    }
    Ok(nets)
}

/// The target of the gate behind so many others, none where that one gets a new net.
fn target_at(outs: Option<&[NetId]>, index: usize) -> Option<NetId>
    ensures { result ≡ first_out (outs_after index (outs_in outs.entry)) }
{
    match outs {
        None => None,
        Some(targets) => targets.get(index).copied(),
    }
}

/// One gate for each bit.
fn each_alone(
    work: &mut Work,
    op: Op,
    xs: &[NetId],
    outs: Option<&[NetId]>,
) -> Result<Vec<NetId>, AllocError>
    requires room { (each_alone op xs.now (outs_in outs) work.old).1.fresh < 2 ^ 32 }
    ensures { IfOk result (λ nets. Makes (each_alone op xs.now (outs_in outs.entry)) work.old nets.items work.new) }
{
    let mut nets = Vec::with_capacity(work.alloc, xs.len())?;
    for (index, x) in xs.iter().enumerate() {
        let net = work.make_onto(op, &[*x], target_at(outs, index))?;
        nets.push(net)?;
    }
    Ok(nets)
}

/// One gate for each pair of bits.
fn each_pair(
    work: &mut Work,
    op: Op,
    xs: &[NetId],
    ys: &[NetId],
    outs: Option<&[NetId]>,
) -> Result<Vec<NetId>, AllocError>
    requires room { (each_pair op xs.now ys.now (outs_in outs) work.old).1.fresh < 2 ^ 32 }
    ensures { IfOk result (λ nets. Makes (each_pair op xs.now ys.now (outs_in outs.entry)) work.old nets.items work.new) }
{
    let mut nets = Vec::with_capacity(work.alloc, xs.len())?;
    for (index, x) in xs.iter().enumerate() {
        let Some(y) = ys.get(index) else {
            return Ok(nets);
        };
        let net = work.make_onto(op, &[*x, *y], target_at(outs, index))?;
        nets.push(net)?;
    }
    Ok(nets)
}

/// Nets with one more behind them.
fn with_last(alloc: Global, nets: &[NetId], last: NetId) -> Result<SmallVec<NetId, 4>, AllocError>
    ensures { IfOk result (λ all. all.items ≡ nets.now ++ last ∷ []) }
{
    let mut all = SmallVec::from_slice(alloc, nets)?;
    all.push(last)?;
    Ok(all)
}

/// And of the condition and a, And of its Not and b, and Or of these.
#[tactic(auto, using(crate::proofs::Growing::growth))]
fn one_choice(
    work: &mut Work,
    condition: &[NetId],
    inverse: NetId,
    a: NetId,
    b: NetId,
    target: Option<NetId>,
) -> Result<NetId, AllocError>
    requires room { (one_choice condition.now inverse a b target work.old).1.fresh < 2 ^ 32 }
    ensures { IfOk result (λ net. Makes (one_choice condition.now inverse a b target) work.old net work.new) }
{
    let ins = with_last(work.alloc, condition, a)?;
    let first = work.make(Op::And, &ins)?;
    let second = work.make(Op::And, &[inverse, b])?;
    work.make_onto(Op::Or, &[first, second], target)
}

/// For each pair And of the condition and a, And of its Not and b, and Or of these.
pub(crate) fn each_choice(
    work: &mut Work,
    condition: &[NetId],
    inverse: NetId,
    xs: &[NetId],
    ys: &[NetId],
    outs: Option<&[NetId]>,
) -> Result<Vec<NetId>, AllocError>
    requires room { (each_choice condition.now inverse xs.now ys.now (outs_in outs) work.old).1.fresh < 2 ^ 32 }
    ensures { IfOk result (λ nets. Makes (each_choice condition.now inverse xs.now ys.now (outs_in outs.entry)) work.old nets.items work.new) }
{
    let mut nets = Vec::with_capacity(work.alloc, xs.len())?;
    for (index, x) in xs.iter().enumerate() {
        let Some(y) = ys.get(index) else {
            return Ok(nets);
        };
        let net = one_choice(work, condition, inverse, *x, *y, target_at(outs, index))?;
        nets.push(net)?;
    }
    Ok(nets)
}

/// Nets as the bits of a value.
pub(crate) fn as_value(alloc: Global, nets: &[NetId]) -> Result<Vec<Bit>, AllocError>
    ensures { IfOk result (λ value. value.items ≡ as_value nets.now) }
{
    let mut value = Vec::with_capacity(alloc, nets.len())?;
    for net in nets {
        value.push(Bit::Net(net.0))?;
    }
    Ok(value)
}

/// Not of each bit.
#[tactic(auto, using(crate::proofs::Growing::growth))]
pub(crate) fn inverted(
    work: &mut Work,
    outs: Option<&[NetId]>,
    a: &[Bit],
) -> Result<Vec<Bit>, AllocError>
    requires room { (inverted (outs_in outs) a.now work.old).1.fresh < 2 ^ 32 }
    ensures { IfOk result (λ value. Makes (inverted (outs_in outs.entry) a.now) work.old value.items work.new) }
{
    let xs = grounded(work, a)?;
    let nets = each_alone(work, Op::Not, &xs, outs)?;
    as_value(work.alloc, &nets)
}

/// An operator of two operands, bit by bit.
#[tactic(auto, using(crate::proofs::Growing::growth))]
pub(crate) fn joined_by(
    work: &mut Work,
    op: Op,
    outs: Option<&[NetId]>,
    a: &[Bit],
    b: &[Bit],
) -> Result<Vec<Bit>, AllocError>
    requires room { (joined_by op (outs_in outs) a.now b.now work.old).1.fresh < 2 ^ 32 }
    ensures { IfOk result (λ value. Makes (joined_by op (outs_in outs.entry) a.now b.now) work.old value.items work.new) }
{
    let left = grounded(work, a)?;
    let right = grounded(work, b)?;
    let nets = each_pair(work, op, &left, &right, outs)?;
    as_value(work.alloc, &nets)
}

/// Where the condition is true the second operand, and else the third.
#[tactic(auto, using(crate::proofs::Growing::growth))]
pub(crate) fn chosen(
    work: &mut Work,
    outs: Option<&[NetId]>,
    condition: &[Bit],
    a: &[Bit],
    b: &[Bit],
) -> Result<Vec<Bit>, AllocError>
    requires room { (choice_between (outs_in outs) condition.now a.now b.now work.old).1.fresh < 2 ^ 32 }
    ensures { IfOk result (λ value. Makes (choice_between (outs_in outs.entry) condition.now a.now b.now) work.old value.items work.new) }
{
    let zs = grounded(work, condition)?;
    let xs = grounded(work, a)?;
    let ys = grounded(work, b)?;
    let inverse = work.make(Op::Not, &zs)?;
    let nets = each_choice(work, &zs, inverse, &xs, &ys, outs)?;
    as_value(work.alloc, &nets)
}
