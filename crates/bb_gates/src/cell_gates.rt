//! The gates and flip-flops of cells.

ghost use Rattle.std.specs.Prelude.{◌≡◌, ◌<◌, ◌^◌, IfOk, OnOk, drop, length, map};
ghost use Rattle.std.specs.Option.{option_map};
ghost use Rattle.bb_scope.specs.Names.{pin_names, conns_names};
ghost use Rattle.bb_scope.specs.Uses.{AreNext, pins_names};
ghost use Rattle.bb_scope.specs.Cells.{kind_of, pins_of, by_place};
ghost use Rattle.bb_scope.specs.Kinds.{kind_value, texts};
ghost use Rattle.bb_scope.specs.Making.{first_out, pins_made, nets_of, out_of, out_net, flip_flop_made, all_nets, gate_made, second_inverted, multiplexer_made, body_made, kind_made, cell_made};
ghost use Rattle.bb_fault.specs.Work.{Makes};
ghost use Rattle.bb_gates.specs.Targets.{outs_in, outs_given};

use crate::bitwise::each_choice;
use crate::prims::add_driven_bits;
use crate::steps::terminal_made;
use bb_base::{Name, NetId, Op};
use bb_fault::{Clocked, Work};
use bb_parse::{Conns, Expr, Step};
use bb_scope::{Body, Kind, Scope, behind_steps, kind_of};
use std::alloc::{AllocError, Global};
use std::marker::Model;

/// A pin of an instance: its name, and what it is connected to unless it is open.
#[derive(Drop)]
struct Pin<'a> {
    name: &'a [u8],
    expr: Option<&'a [Step]>,
}

impl<'a> Model for Pin<'a> {
    ghost use Rattle.std.specs.Option.{option_map};
    ghost use Rattle.bb_scope.specs.Cells.{Pin as PinValue};

    ghost Value = { PinValue };

    ghost view = { λ p. (p.name.now, option_map (λ r. r.now) p.expr) };
}

/// The nets of a pin that is read.
#[derive(Drop)]
struct PinNets<'a> {
    name: &'a [u8],
    nets: Vec<NetId>,
}

impl<'a> Model for PinNets<'a> {
    ghost use Rattle.std.specs.Prelude.{ℕ, List};

    ghost Value = { List ℕ × List ℕ };

    ghost view = { λ p. (p.name.now, p.nets.items) };
}

/// The pins of an instance that are given by name.
fn named_pins<'a>(
    alloc: Global,
    pins: &'a [(Name, Option<Expr>)],
) -> Result<Vec<Pin<'a>>, AllocError>
    ensures { IfOk result (λ list. list.items ≡ pins.now) }
{
    let mut list = Vec::with_capacity(alloc, pins.len())?;
    for (name, expr) in pins {
        let expr = match expr {
            None => None,
            Some(steps) => Some(steps.as_slice()),
        };
        list.push(Pin {
            name: name.bytes(),
            expr,
        })?;
    }
    Ok(list)
}

/// The pins of an instance whose terminals stand in order.
fn placed_pins<'a>(
    alloc: Global,
    kind: &Kind,
    terms: &'a [Expr],
) -> Result<Vec<Pin<'a>>, AllocError>
    ensures { IfOk result (λ list. list.items ≡ by_place (kind_value kind.now) terms.now) }
{
    let mut list = Vec::with_capacity(alloc, terms.len())?;
    for (place, name) in kind.places.iter().enumerate() {
        let Some(term) = terms.get(place) else {
            return Ok(list);
        };
        list.push(Pin {
            name: *name,
            expr: Some(term.as_slice()),
        })?;
    }
    Ok(list)
}

/// The pins of an instance.
fn pins_of<'a>(alloc: Global, kind: &Kind, conns: &'a Conns) -> Result<Vec<Pin<'a>>, AllocError>
    ensures { IfOk result (λ pins. pins.items ≡ pins_of (kind_value kind.now) conns.now) }
{
    match conns {
        Conns::Pins(pins) => named_pins(alloc, pins.as_slice()),
        Conns::Places(terms) => placed_pins(alloc, kind, terms.as_slice()),
    }
}

/// The uses behind those of what a pin is connected to.
fn behind_pin<'a, 'b>(uses: &'b [usize], pin: &Pin<'a>) -> &'b [usize]
    ensures { result.now ≡ drop (length (pin_names pin.now.1)) uses.now }
{
    match pin.expr {
        None => uses,
        Some(steps) => behind_steps(uses, steps),
    }
}

/// The nets of the pins that are read, in the text's order.
fn pins_made<'a>(
    work: &mut Work,
    scope: &Scope,
    kind: &Kind,
    uses: &[usize],
    pins: &[Pin<'a>],
) -> Result<Vec<PinNets<'a>>, AllocError>
    requires next { AreNext scope.now (pins_names pins.now) uses.now }
    requires room { (pins_made scope.now (kind_value kind.now) pins.now work.old).1.fresh < 2 ^ 32 }
    ensures { IfOk result (λ read. Makes (pins_made scope.now (kind_value kind.now) pins.now) work.old read.items work.new) }
{
    let mut read = Vec::with_capacity(work.alloc, pins.len())?;
    let mut rest = uses;
    for pin in pins {
        if let Some(steps) = pin.expr {
            if kind.out != pin.name {
                let nets = terminal_made(work, scope, rest, steps)?;
                read.push(PinNets {
                    name: pin.name,
                    nets,
                })?;
            }
        }
        rest = behind_pin(rest, pin);
    }
    Ok(read)
}

/// The nets of the pin of this name.
fn nets_of<'a>(read: &'a [PinNets<'a>], name: &[u8]) -> &'a [NetId]
    ensures { result.now ≡ nets_of read.now name.now }
{
    for pin in read {
        if name == pin.name {
            return &pin.nets;
        }
    }
    &[]
}

/// The nets of the inputs of a kind, in its order.
fn inputs<'a>(
    alloc: Global,
    read: &'a [PinNets<'a>],
    names: &[&[u8]],
) -> Result<Vec<&'a [NetId]>, AllocError>
    ensures { IfOk result (λ ins. map (λ r. r.now) ins.items ≡ map (nets_of read.now) (texts names.now)) }
{
    let mut ins = Vec::with_capacity(alloc, names.len())?;
    for name in names {
        ins.push(nets_of(read, *name))?;
    }
    Ok(ins)
}

/// Where the output goes: to the net of its pin, or to a new one where that is absent or open.
fn out_of<'a>(
    alloc: Global,
    scope: &Scope,
    kind: &Kind,
    uses: &[usize],
    pins: &[Pin<'a>],
) -> Result<Option<Vec<NetId>>, AllocError>
    requires { AreNext scope.now (pins_names pins.now) uses.now }
    ensures { IfOk result (λ out. outs_given (option_map (λ v. v.items) out) ≡ out_of scope.now (kind_value kind.now) pins.now) }
{
    let mut rest = uses;
    for pin in pins {
        if let Some(steps) = pin.expr {
            if kind.out == pin.name {
                let mut targets = Vec::new(alloc);
                add_driven_bits(scope, rest, steps, &mut targets)?;
                return Ok(Some(targets));
            }
        }
        rest = behind_pin(rest, pin);
    }
    Ok(None)
}

/// The net that takes the output: a new one, unless there is a target.
fn out_net(work: &mut Work, target: Option<NetId>) -> NetId
    requires room { (out_net target work.old).1.fresh < 2 ^ 32 }
    ensures { Makes (out_net target) work.old result work.new }
{
    match target {
        None => work.new_net(),
        Some(target) => target,
    }
}

/// The first target.
fn first_out(outs: Option<&[NetId]>) -> Option<NetId>
    ensures { result ≡ first_out (outs_in outs.entry) }
{
    match outs {
        None => None,
        Some(targets) => targets.first().copied(),
    }
}

/// A flip-flop, from its clock and its data.
fn flip_flop_made(
    work: &mut Work,
    outs: Option<&[NetId]>,
    ins: &[&[NetId]],
) -> Result<(), AllocError>
    requires room { (flip_flop_made (outs_in outs) (map (λ r. r.now) ins.now) work.old).1.fresh < 2 ^ 32 }
    ensures { OnOk result (work.new ≡ (flip_flop_made (outs_in outs.entry) (map (λ r. r.now) ins.now) work.old).1) }
{
    let [[clock, ..], [d, ..], ..] = ins else {
        return Ok(());
    };
    let q = out_net(work, first_out(outs));
    work.flops.push(Clocked {
        q,
        d: *d,
        clock: *clock,
    })?;
    Ok(())
}

/// All nets of inputs, one after the other.
fn all_nets(alloc: Global, ins: &[&[NetId]]) -> Result<Vec<NetId>, AllocError>
    ensures { IfOk result (λ nets. nets.items ≡ all_nets (map (λ r. r.now) ins.now)) }
{
    let mut nets = Vec::new(alloc);
    for part in ins {
        nets.extend_from_slice(*part)?;
    }
    Ok(nets)
}

/// One gate.
fn gate_made(
    work: &mut Work,
    op: Op,
    outs: Option<&[NetId]>,
    ins: &[NetId],
) -> Result<(), AllocError>
    requires room { (gate_made op (outs_in outs) ins.now work.old).1.fresh < 2 ^ 32 }
    ensures { OnOk result (work.new ≡ (gate_made op (outs_in outs.entry) ins.now work.old).1) }
{
    work.make_onto(op, ins, first_out(outs))?;
    Ok(())
}

/// Not of the second input, and then a gate of the first and it.
#[tactic(auto, using(crate::proofs::Growing::growth))]
fn second_inverted(
    work: &mut Work,
    op: Op,
    outs: Option<&[NetId]>,
    ins: &[&[NetId]],
) -> Result<(), AllocError>
    requires room { (second_inverted op (outs_in outs) (map (λ r. r.now) ins.now) work.old).1.fresh < 2 ^ 32 }
    ensures { OnOk result (work.new ≡ (second_inverted op (outs_in outs.entry) (map (λ r. r.now) ins.now) work.old).1) }
{
    let [first, second, ..] = ins else {
        return Ok(());
    };
    let inverse = work.make(Op::Not, *second)?;
    let mut both = Vec::from_slice(work.alloc, *first)?;
    both.push(inverse)?;
    gate_made(work, op, outs, &both)
}

/// The second input where the third is 1, and else the first.
#[tactic(auto, using(crate::proofs::Growing::growth))]
fn multiplexer_made(
    work: &mut Work,
    outs: Option<&[NetId]>,
    ins: &[&[NetId]],
) -> Result<(), AllocError>
    requires room { (multiplexer_made (outs_in outs) (map (λ r. r.now) ins.now) work.old).1.fresh < 2 ^ 32 }
    ensures { OnOk result (work.new ≡ (multiplexer_made (outs_in outs.entry) (map (λ r. r.now) ins.now) work.old).1) }
{
    let [first, second, select, ..] = ins else {
        return Ok(());
    };
    let inverse = work.make(Op::Not, *select)?;
    each_choice(work, *select, inverse, *second, *first, outs)?;
    Ok(())
}

/// The body of a cell, from the nets of its inputs in their order.
fn body_made(
    work: &mut Work,
    body: Body,
    outs: Option<&[NetId]>,
    ins: &[&[NetId]],
) -> Result<(), AllocError>
    requires room { (body_made body (outs_in outs) (map (λ r. r.now) ins.now) work.old).1.fresh < 2 ^ 32 }
    ensures { OnOk result (work.new ≡ (body_made body (outs_in outs.entry) (map (λ r. r.now) ins.now) work.old).1) }
{
    match body {
        Body::FlipFlop => flip_flop_made(work, outs, ins),
        Body::Gate(op) => {
            let nets = all_nets(work.alloc, ins)?;
            gate_made(work, op, outs, &nets)
        }
        Body::SecondInverted(op) => second_inverted(work, op, outs, ins),
        Body::Choice => multiplexer_made(work, outs, ins),
    }
}

/// The gates of an instance by its pins: those of what they are connected to come first.
#[tactic(auto, using(crate::proofs::Growing::growth))]
fn kind_made<'a>(
    work: &mut Work,
    scope: &Scope,
    kind: &Kind,
    uses: &[usize],
    pins: &[Pin<'a>],
) -> Result<(), AllocError>
    requires next { AreNext scope.now (pins_names pins.now) uses.now }
    requires room { (kind_made scope.now (kind_value kind.now) pins.now work.old).1.fresh < 2 ^ 32 }
    ensures { OnOk result (work.new ≡ (kind_made scope.now (kind_value kind.now) pins.now work.old).1) }
{
    let read = pins_made(work, scope, kind, uses, pins)?;
    let ins = inputs(work.alloc, &read, kind.ins)?;
    match out_of(work.alloc, scope, kind, uses, pins)? {
        None => body_made(work, kind.body, None, &ins),
        Some(targets) => body_made(work, kind.body, Some(targets.as_slice()), &ins),
    }
}

/// The gates of an instance. An unknown cell makes none.
pub(crate) fn cell_made(
    work: &mut Work,
    scope: &Scope,
    cell: &Name,
    uses: &[usize],
    conns: &Conns,
) -> Result<(), AllocError>
    requires next { AreNext scope.now (conns_names conns.now) uses.now }
    requires room { (cell_made scope.now (kind_of cell.now) conns.now work.old).1.fresh < 2 ^ 32 }
    ensures { OnOk result (work.new ≡ (cell_made scope.now (kind_of cell.now) conns.now work.old).1) }
{
    let Some(kind) = kind_of(cell.bytes()) else {
        return Ok(());
    };
    let pins = pins_of(work.alloc, &kind, conns)?;
    kind_made(work, scope, &kind, uses, &pins)
}
