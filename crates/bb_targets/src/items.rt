// The bits that inputs and items drive, in the text's order.

ghost use Rattle.std.specs.Prelude.{◌≡◌, ◌<◌, ◌^◌, ◌∷◌, [], map, flat_map, fold};
ghost use Rattle.bb_base.specs.Variables.{bit_count, is_input};
ghost use Rattle.bb_scope.specs.Names.{steps_names, conns_names, item_names};
ghost use Rattle.bb_scope.specs.Uses.{AreNext, pins_names};
ghost use Rattle.bb_scope.specs.Cells.{kind_of, by_place};
ghost use Rattle.bb_scope.specs.Kinds.{kind_value};
ghost use Rattle.bb_scope.specs.References.{ref_bits};
ghost use Rattle.bb_scope.specs.Terminals.{outs_of};
ghost use Rattle.bb_drive.specs.Nets.{input_bits};
ghost use Rattle.bb_scope.specs.Making.{driven_bits};
ghost use Rattle.bb_targets.specs.Marks.{with_mark};
ghost use Rattle.bb_targets.specs.Targets.{out_bits, cell_targets, item_targets};

use crate::marks::Marks;
use bb_base::{Name, Op, Role, Variable};
use bb_fault::range_width;
use bb_parse::{Conns, Expr, Item, Ref, Step};
use bb_scope::{Kind, Scope, behind, behind_item, behind_pin, behind_steps, kind_of};
use indexmap::IndexMap;

/// Whether a role is that of an input.
fn is_input(role: Role) -> bool
    ensures { result ≡ is_input role }
{
    matches!(role, Role::Input)
}

/// Marks the bits of the inputs.
pub(crate) fn mark_inputs(marks: &mut Marks, table: &IndexMap<Name, Variable>)
    requires { bit_count table.now.entries < 2 ^ 32 }
    ensures { marks.new ≡ fold with_mark marks.old (input_bits table.now.entries) }
{
    let mut first: u32 = 0;
    'variables: for index in 0..table.len() {
        let (_, variable) = table.get_index(index).unwrap();
        let end = first + range_width(variable.range) as u32;
        if is_input(variable.role) {
            marks.mark(first, end);
        }
        first = end;
    }
}

/// Marks the bits that a reference names.
fn mark_ref(marks: &mut Marks, scope: &Scope, uses: &[usize], reference: &Ref)
    requires { AreNext scope.now (reference.now.name ∷ []) uses.now }
    ensures { marks.new ≡ fold with_mark marks.old (ref_bits scope.now reference.now) }
{
    let bits = scope.bits(uses, reference);
    marks.mark(bits.first, bits.end);
}

/// Marks the bits of a left side.
#[tactic(auto, using(bb_scope::proofs::UseLaws::use_laws))]
fn mark_left(marks: &mut Marks, scope: &Scope, uses: &[usize], left: &[Ref])
    requires { AreNext scope.now (map (λ r. r.name) left.now) uses.now }
    ensures { marks.new ≡ fold with_mark marks.old (flat_map (ref_bits scope.now) left.now) }
{
    let mut rest = uses;
    'references: for reference in left {
        mark_ref(marks, scope, rest, reference);
        rest = behind(rest, 1);
    }
}

/// Marks the bits of a terminal that is driven.
#[tactic(auto, using(bb_scope::proofs::UseLaws::use_laws))]
fn mark_driven(marks: &mut Marks, scope: &Scope, uses: &[usize], steps: &[Step])
    requires { AreNext scope.now (steps_names steps.now) uses.now }
    ensures { marks.new ≡ fold with_mark marks.old (driven_bits scope.now steps.now) }
{
    match steps.first() {
        Some(Step::Ref(reference)) => mark_ref(marks, scope, uses, reference),
        _ => (),
    }
}

/// The terminals that a primitive drives: not and buf drive every one but the last, others the first alone.
fn outs_of(op: Op, terms: &[Expr]) -> &[Expr]
    ensures { result.now ≡ outs_of op terms.now }
{
    let count = terms.len();
    let outs = match op {
        Op::Not | Op::Buf => count.saturating_sub(1),
        _ => 1,
    };
    terms.split_at(outs.min(count)).0
}

/// Marks the bits of terminals that are driven.
fn mark_outs(marks: &mut Marks, scope: &Scope, uses: &[usize], outs: &[Expr])
    requires { AreNext scope.now (flat_map steps_names outs.now) uses.now }
    ensures { marks.new ≡ fold with_mark marks.old (flat_map (driven_bits scope.now) outs.now) }
{
    let mut rest = uses;
    'terms: for term in outs {
        mark_driven(marks, scope, rest, term.as_slice());
        rest = behind_steps(rest, term.as_slice());
    }
}

/// Marks the bit of the output of an instance whose pins are given by name.
fn mark_pins(
    marks: &mut Marks,
    scope: &Scope,
    kind: &Kind,
    uses: &[usize],
    pins: &[(Name, Option<Expr>)],
)
    requires { AreNext scope.now (pins_names pins.now) uses.now }
    ensures { marks.new ≡ fold with_mark marks.old (out_bits scope.now (kind_value kind.now) pins.now) }
{
    let mut rest = uses;
    'pins: for pin in pins {
        if let Some(steps) = &pin.1 {
            if kind.out == pin.0.bytes() {
                mark_driven(marks, scope, rest, steps.as_slice());
                return;
            }
        }
        rest = behind_pin(rest, pin);
    }
}

/// Marks the bit of the output of an instance whose terminals stand in order.
fn mark_places(marks: &mut Marks, scope: &Scope, kind: &Kind, uses: &[usize], terms: &[Expr])
    requires { AreNext scope.now (flat_map steps_names terms.now) uses.now }
    ensures { marks.new ≡ fold with_mark marks.old (out_bits scope.now (kind_value kind.now) (by_place (kind_value kind.now) terms.now)) }
{
    let mut rest = uses;
    'places: for (place, name) in kind.places.iter().enumerate() {
        let Some(term) = terms.get(place) else {
            return;
        };
        if kind.out == *name {
            mark_driven(marks, scope, rest, term.as_slice());
            return;
        }
        rest = behind_steps(rest, term.as_slice());
    }
}

/// Marks the bit of the output of an instance.
fn mark_cell(marks: &mut Marks, scope: &Scope, cell: &Name, uses: &[usize], conns: &Conns)
    requires { AreNext scope.now (conns_names conns.now) uses.now }
    ensures { marks.new ≡ fold with_mark marks.old (cell_targets scope.now (kind_of cell.now) conns.now) }
{
    let Some(kind) = kind_of(cell.bytes()) else {
        return;
    };
    match conns {
        Conns::Pins(pins) => mark_pins(marks, scope, &kind, uses, pins.as_slice()),
        Conns::Places(terms) => mark_places(marks, scope, &kind, uses, terms.as_slice()),
    }
}

/// Marks the bits that an item drives.
#[tactic(auto, using(bb_scope::proofs::UseLaws::use_laws))]
fn mark_item(marks: &mut Marks, scope: &Scope, uses: &[usize], item: &Item)
    requires { AreNext scope.now (item_names item.now) uses.now }
    ensures { marks.new ≡ fold with_mark marks.old (item_targets scope.now item.now) }
{
    match item {
        Item::Decl(_) => (),
        Item::Assign {
            line: _,
            left,
            right: _,
        } => mark_left(marks, scope, uses, left.as_slice()),
        Item::Prim { line: _, op, terms } => {
            mark_outs(marks, scope, uses, outs_of(*op, terms.as_slice()))
        }
        Item::Cell {
            line: _,
            cell,
            conns,
        } => mark_cell(marks, scope, cell, uses, conns),
    }
}

/// Marks the bits that items drive.
pub(crate) fn mark_items(marks: &mut Marks, scope: &Scope, uses: &[usize], items: &[Item])
    requires { AreNext scope.now (flat_map item_names items.now) uses.now }
    ensures { marks.new ≡ fold with_mark marks.old (flat_map (item_targets scope.now) items.now) }
{
    let mut rest = uses;
    'items: for item in items {
        mark_item(marks, scope, rest, item);
        rest = behind_item(rest, item);
    }
}
