//! The parts of items: pins, selects and widths, and the nets that they make.

ghost use Rattle.std.specs.Prelude.{◌≡◌, ◌+◌, ◌++◌, map, flat_map};
ghost use Rattle.std.specs.List.{list_all};
ghost use Rattle.bb_fault.specs.Firsts.{first_answer};
ghost use Rattle.bb_scope.specs.Names.{steps_names, pin_names, conns_names, item_names};
ghost use Rattle.bb_fault.specs.Limits.{told_count};
ghost use Rattle.bb_scope.specs.Uses.{AreNext};
ghost use Rattle.bb_scope.specs.Answers.{IsAnswerWith};
ghost use Rattle.bb_scope.specs.Cells.{is_plain, kind_of};
ghost use Rattle.bb_scope.specs.Kinds.{kind_value};
ghost use Rattle.bb_scope.specs.References.{ref_fault, left_width};
ghost use Rattle.bb_scope.specs.Sizes.{expr_fault, value_nets};
ghost use Rattle.bb_scope.specs.Terminals.{drives_all};
ghost use Rattle.bb_scope.specs.Parts.{are_right_terms, pin_fault, conns_fault, cell_fault, prim_fault, assign_fault, item_fault, terms_nets, pin_nets, pins_nets, conns_nets, inner_nets, open_nets, cell_nets, item_nets, items_nets};

use crate::pins::{are_right, is_given, is_plain};
use crate::sizes::{terminal, value};
use bb_base::{Name, Op};
use bb_fault::ElabFault;
use bb_parse::{Conns, Expr, Item, Ref, Step};
use bb_scope::{
    Body, Kind, Scope, behind, behind_item, behind_pin, behind_steps, bits_of, kind_of, span_fault,
};
use std::alloc::Global;

/// How many bits the references of a left side have together, or the first fault.
#[tactic(auto, using(bb_scope::proofs::UseLaws::use_laws))]
fn left_width(scope: &Scope, line: u32, uses: &[usize], left: &[Ref]) -> Result<u128, ElabFault>
    requires { AreNext scope.now (map (λ r. r.name) left.now) uses.now }
    ensures { IsAnswerWith (first_answer (ref_fault scope.now line) left.now) (left_width scope.now left.now) result }
{
    let mut width: u128 = 0;
    let mut rest = uses;
    for reference in left {
        let span = scope.span(rest, reference);
        if let Some(fault) = span_fault(line, span) {
            return Err(fault);
        }
        width += bits_of(span) as u128;
        rest = behind(rest, 1);
    }
    Ok(width)
}

/// The nets of expressions at terminals, or the first fault.
fn terms(
    alloc: Global,
    scope: &Scope,
    line: u32,
    uses: &[usize],
    terms: &[Expr],
) -> Result<u64, ElabFault>
    requires { AreNext scope.now (flat_map steps_names terms.now) uses.now }
    ensures { IsAnswerWith (first_answer (expr_fault scope.now line 1) terms.now) (told_count (terms_nets scope.now terms.now)) result }
{
    let mut nets: u64 = 0;
    let mut rest = uses;
    for term in terms {
        let more = terminal(alloc, scope, line, rest, term.as_slice())?;
        nets = nets.saturating_add(more);
        rest = behind_steps(rest, term.as_slice());
    }
    Ok(nets)
}

/// The nets of what a pin is connected to, or the first fault.
fn pin(
    alloc: Global,
    scope: &Scope,
    line: u32,
    uses: &[usize],
    pin: &(Name, Option<Expr>),
) -> Result<u64, ElabFault>
    requires { AreNext scope.now (pin_names pin.now.1) uses.now }
    ensures { IsAnswerWith (pin_fault scope.now line pin.now) (told_count (pin_nets scope.now pin.now)) result }
{
    match &pin.1 {
        None => Ok(0),
        Some(steps) => terminal(alloc, scope, line, uses, steps.as_slice()),
    }
}

/// The nets of pins, or the first fault.
fn pins(
    alloc: Global,
    scope: &Scope,
    line: u32,
    uses: &[usize],
    pins: &[(Name, Option<Expr>)],
) -> Result<u64, ElabFault>
    requires { AreNext scope.now (flat_map (λ p. pin_names p.1) pins.now) uses.now }
    ensures { IsAnswerWith (first_answer (pin_fault scope.now line) pins.now) (told_count (pins_nets scope.now pins.now)) result }
{
    let mut nets: u64 = 0;
    let mut rest = uses;
    for one in pins {
        let more = pin(alloc, scope, line, rest, one)?;
        nets = nets.saturating_add(more);
        rest = behind_pin(rest, one);
    }
    Ok(nets)
}

/// The nets of what an instance is connected to, or the first fault.
fn connections(
    alloc: Global,
    scope: &Scope,
    line: u32,
    uses: &[usize],
    conns: &Conns,
) -> Result<u64, ElabFault>
    requires { AreNext scope.now (conns_names conns.now) uses.now }
    ensures { IsAnswerWith (conns_fault scope.now line conns.now) (told_count (conns_nets scope.now conns.now)) result }
{
    match conns {
        Conns::Places(places) => terms(alloc, scope, line, uses, places.as_slice()),
        Conns::Pins(list) => pins(alloc, scope, line, uses, list.as_slice()),
    }
}

/// The nets between the gates of a cell.
fn inner_nets(body: Body) -> u64
    ensures { result ≡ inner_nets body }
{
    match body {
        Body::FlipFlop | Body::Gate(_) => 0,
        Body::SecondInverted(_) => 1,
        Body::Choice => 3,
    }
}

/// The net of an output that is absent or open. Terminals in order leave none open.
fn open_nets(kind: &Kind, conns: &Conns) -> u64
    ensures { result ≡ open_nets (kind_value kind.now) conns.now }
{
    match conns {
        Conns::Places(_) => 0,
        Conns::Pins(pins) => {
            if is_given(pins.as_slice(), kind.out) {
                0
            } else {
                1
            }
        }
    }
}

/// The nets of an instance, or its first fault. An unknown cell has its fault before.
fn cell(
    alloc: Global,
    scope: &Scope,
    line: u32,
    name: &Name,
    uses: &[usize],
    conns: &Conns,
) -> Result<u64, ElabFault>
    requires { AreNext scope.now (conns_names conns.now) uses.now }
    ensures { IsAnswerWith (cell_fault scope.now line (kind_of name.now) conns.now) (told_count (cell_nets scope.now (kind_of name.now) conns.now)) result }
{
    let Some(kind) = kind_of(name.bytes()) else {
        return Ok(0);
    };
    if !are_right(&kind, conns) {
        return Err(ElabFault::BadPins { line });
    }
    let nets = connections(alloc, scope, line, uses, conns)?;
    Ok(nets.saturating_add(inner_nets(kind.body) + open_nets(&kind, conns)))
}

/// Whether a primitive drives every terminal but the last.
fn drives_all(op: Op) -> bool
    ensures { result ≡ drives_all op }
{
    match op {
        Op::Not | Op::Buf => true,
        _ => false,
    }
}

/// Whether expressions are references.
fn all_plain(terms: &[Expr]) -> bool
    ensures { result ≡ list_all is_plain terms.now }
{
    for term in terms {
        if !is_plain(term.as_slice()) {
            return false;
        }
    }
    true
}

/// Whether a primitive's terminals are as it wants them.
fn are_right_terms(op: Op, terms: &[Expr]) -> bool
    ensures { result ≡ are_right_terms op terms.now }
{
    let count = terms.len();
    if count < 2 {
        return false;
    }
    let outs = if drives_all(op) { count - 1 } else { 1 };
    all_plain(terms.split_at(outs).0)
}

/// The nets of a primitive, or its first fault.
fn prim(
    alloc: Global,
    scope: &Scope,
    line: u32,
    op: Op,
    uses: &[usize],
    list: &[Expr],
) -> Result<u64, ElabFault>
    requires { AreNext scope.now (flat_map steps_names list.now) uses.now }
    ensures { IsAnswerWith (prim_fault scope.now line op list.now) (told_count (terms_nets scope.now list.now)) result }
{
    if !are_right_terms(op, list) {
        return Err(ElabFault::BadPins { line });
    }
    terms(alloc, scope, line, uses, list)
}

/// The nets of an assign, or its first fault.
#[tactic(auto, using(bb_scope::proofs::UseLaws::use_laws))]
fn assign(
    alloc: Global,
    scope: &Scope,
    line: u32,
    uses: &[usize],
    left: &[Ref],
    right: &[Step],
) -> Result<u64, ElabFault>
    requires { AreNext scope.now (map (λ r. r.name) left.now ++ steps_names right.now) uses.now }
    ensures { IsAnswerWith (assign_fault scope.now line left.now right.now) (told_count (value_nets scope.now right.now)) result }
{
    let width = left_width(scope, line, uses, left)?;
    value(alloc, scope, line, width, behind(uses, left.len()), right)
}

/// The nets of an item, or its first fault.
fn item(alloc: Global, scope: &Scope, uses: &[usize], one: &Item) -> Result<u64, ElabFault>
    requires { AreNext scope.now (item_names one.now) uses.now }
    ensures { IsAnswerWith (item_fault scope.now one.now) (told_count (item_nets scope.now one.now)) result }
{
    match one {
        Item::Decl(_) => Ok(0),
        Item::Assign { line, left, right } => assign(
            alloc,
            scope,
            *line,
            uses,
            left.as_slice(),
            right.as_slice(),
        ),
        Item::Prim { line, op, terms } => prim(alloc, scope, *line, *op, uses, terms.as_slice()),
        Item::Cell {
            line,
            cell: name,
            conns,
        } => cell(alloc, scope, *line, name, uses, conns),
    }
}

/// The nets that items make, or the first fault of one.
pub(crate) fn items(
    alloc: Global,
    scope: &Scope,
    uses: &[usize],
    list: &[Item],
) -> Result<u64, ElabFault>
    requires { AreNext scope.now (flat_map item_names list.now) uses.now }
    ensures { IsAnswerWith (first_answer (item_fault scope.now) list.now) (told_count (items_nets scope.now list.now)) result }
{
    let mut nets: u64 = 0;
    let mut rest = uses;
    for one in list {
        let more = item(alloc, scope, rest, one)?;
        nets = nets.saturating_add(more);
        rest = behind_item(rest, one);
    }
    Ok(nets)
}
