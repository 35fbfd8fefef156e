//! The gates of primitives.

ghost use Rattle.std.specs.Prelude.{◌≡◌, ◌≤◌, ◌<◌, ◌^◌, ◌-◌, ◌++◌, ◌∷◌, [], OnOk, IfOk, flat_map};
ghost use Rattle.std.specs.List.{range_with_len};
ghost use Rattle.bb_scope.specs.Names.{steps_names};
ghost use Rattle.bb_scope.specs.Uses.{AreNext};
ghost use Rattle.bb_scope.specs.Terminals.{outs_of, ins_of};
ghost use Rattle.bb_scope.specs.References.{ref_bits};
ghost use Rattle.bb_scope.specs.Making.{terminals_made, driven_bits, all_driven, prim_made};
ghost use Rattle.bb_fault.specs.Work.{Makes};

use crate::steps::terminal_made;
use bb_base::{NetId, Op};
use bb_fault::Work;
use bb_parse::{Expr, Ref, Step};
use bb_scope::{Bits, Scope, behind_steps, behind_terms};
use std::alloc::AllocError;

/// The nets of terminals that are read, one after the other.
fn terminals_made(
    work: &mut Work,
    scope: &Scope,
    uses: &[usize],
    terms: &[Expr],
) -> Result<Vec<NetId>, AllocError>
    requires next { AreNext scope.now (flat_map steps_names terms.now) uses.now }
    requires room { (terminals_made scope.now terms.now work.old).1.fresh < 2 ^ 32 }
    ensures { IfOk result (λ nets. Makes (terminals_made scope.now terms.now) work.old nets.items work.new) }
{
    let mut nets = Vec::new(work.alloc);
    let mut rest = uses;
    for term in terms {
        let more = terminal_made(work, scope, rest, term.as_slice())?;
        nets.extend_from_slice(&more)?;
        rest = behind_steps(rest, term.as_slice());
    }
    Ok(nets)
}

/// Adds bits that stand together.
fn add_bits(nets: &mut Vec<NetId>, bits: Bits) -> Result<(), AllocError>
    requires { bits.first ≤ bits.end }
    ensures { OnOk result (nets.new.items ≡ nets.old.items ++ range_with_len bits.first (bits.end - bits.first)) }
{
    for bit in bits.first..bits.end {
        nets.push(NetId(bit))?;
    }
    Ok(())
}

/// Adds the bits that a reference names.
pub(crate) fn add_ref_bits(
    scope: &Scope,
    uses: &[usize],
    reference: &Ref,
    nets: &mut Vec<NetId>,
) -> Result<(), AllocError>
    requires { AreNext scope.now (reference.now.name ∷ []) uses.now }
    ensures { OnOk result (nets.new.items ≡ nets.old.items ++ ref_bits scope.now reference.now) }
{
    add_bits(nets, scope.bits(uses, reference))
}

/// Adds the nets of a terminal that is driven.
#[tactic(auto, using(bb_scope::proofs::UseLaws::use_laws))]
pub(crate) fn add_driven_bits(
    scope: &Scope,
    uses: &[usize],
    steps: &[Step],
    nets: &mut Vec<NetId>,
) -> Result<(), AllocError>
    requires { AreNext scope.now (steps_names steps.now) uses.now }
    ensures { OnOk result (nets.new.items ≡ nets.old.items ++ driven_bits scope.now steps.now) }
{
    match steps.first() {
        Some(Step::Ref(reference)) => add_ref_bits(scope, uses, reference, nets),
        _ => Ok(()),
    }
}

/// Adds the nets of terminals that are driven.
fn add_all_driven_bits(
    scope: &Scope,
    uses: &[usize],
    terms: &[Expr],
    nets: &mut Vec<NetId>,
) -> Result<(), AllocError>
    requires { AreNext scope.now (flat_map steps_names terms.now) uses.now }
    ensures { OnOk result (nets.new.items ≡ nets.old.items ++ flat_map (driven_bits scope.now) terms.now) }
{
    let mut rest = uses;
    for term in terms {
        add_driven_bits(scope, rest, term.as_slice(), nets)?;
        rest = behind_steps(rest, term.as_slice());
    }
    Ok(())
}

/// The same gate for each target.
fn all_driven(work: &mut Work, op: Op, ins: &[NetId], targets: &[NetId]) -> Result<(), AllocError>
    ensures { OnOk result (work.new ≡ (all_driven op ins.now targets.now work.old).1) }
{
    for target in targets {
        work.drive(op, ins, *target)?;
    }
    Ok(())
}

/// The terminals that a primitive drives, and those that it reads: not and buf drive every one but the last, others the first alone.
fn parts_of(op: Op, terms: &[Expr]) -> (&[Expr], &[Expr])
    ensures outs { result.0.now ≡ outs_of op terms.now }
    ensures ins { result.1.now ≡ ins_of op terms.now }
{
    let count = terms.len();
    let outs = match op {
        Op::Not | Op::Buf => count.saturating_sub(1),
        _ => 1,
    };
    terms.split_at(outs.min(count))
}

/// The gates of a primitive: those of the terminals that it reads come first, and then one for each net that it drives.
#[tactic(auto, using(crate::proofs::Growing::growth))]
pub(crate) fn prim_made(
    work: &mut Work,
    scope: &Scope,
    op: Op,
    uses: &[usize],
    terms: &[Expr],
) -> Result<(), AllocError>
    requires next { AreNext scope.now (flat_map steps_names terms.now) uses.now }
    requires room { (prim_made scope.now op terms.now work.old).1.fresh < 2 ^ 32 }
    ensures { OnOk result (work.new ≡ (prim_made scope.now op terms.now work.old).1) }
{
    let (outs, ins) = parts_of(op, terms);
    let nets = terminals_made(work, scope, behind_terms(uses, outs), ins)?;
    let mut targets = Vec::new(work.alloc);
    add_all_driven_bits(scope, uses, outs, &mut targets)?;
    all_driven(work, op, &nets, &targets)
}
