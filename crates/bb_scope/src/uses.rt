//! The uses of names: the index of the variable of each, in the text's order. A part's uses stand first in a list of them, and those
//! of what comes behind it follow.

ghost use Rattle.std.specs.Prelude.{◌≡◌, drop, length, flat_map};
ghost use Rattle.bb_scope.specs.Names.{step_names, steps_names, pin_names, conns_names, item_names};

use bb_base::Name;
use bb_parse::{Conns, Expr, Item, Step};

/// The uses behind so many.
pub fn behind(uses: &[usize], count: usize) -> &[usize]
    ensures { result.now ≡ drop count uses.now }
{
    uses.split_at(count.min(uses.len())).1
}

/// The uses behind those of a step.
pub fn behind_step<'a>(uses: &'a [usize], step: &Step) -> &'a [usize]
    ensures { result.now ≡ drop (length (step_names step.now)) uses.now }
{
    match step {
        Step::Ref(_) => behind(uses, 1),
        _ => uses,
    }
}

/// The uses behind those of an expression.
pub fn behind_steps<'a>(uses: &'a [usize], steps: &[Step]) -> &'a [usize]
    ensures { result.now ≡ drop (length (steps_names steps.now)) uses.now }
{
    let mut rest = uses;
    for step in steps {
        rest = behind_step(rest, step);
    }
    rest
}

/// The uses behind those of expressions.
pub fn behind_terms<'a>(uses: &'a [usize], terms: &[Expr]) -> &'a [usize]
    ensures { result.now ≡ drop (length (flat_map steps_names terms.now)) uses.now }
{
    let mut rest = uses;
    for term in terms {
        rest = behind_steps(rest, term.as_slice());
    }
    rest
}

/// The uses behind those of what a pin is connected to.
pub fn behind_pin<'a>(uses: &'a [usize], pin: &(Name, Option<Expr>)) -> &'a [usize]
    ensures { result.now ≡ drop (length (pin_names pin.now.1)) uses.now }
{
    match &pin.1 {
        None => uses,
        Some(steps) => behind_steps(uses, steps.as_slice()),
    }
}

/// The uses behind those of what pins are connected to.
fn behind_pins<'a>(uses: &'a [usize], pins: &[(Name, Option<Expr>)]) -> &'a [usize]
    ensures { result.now ≡ drop (length (flat_map (λ p. pin_names p.1) pins.now)) uses.now }
{
    let mut rest = uses;
    for pin in pins {
        rest = behind_pin(rest, pin);
    }
    rest
}

/// The uses behind those of what an instance is connected to.
fn behind_connections<'a>(uses: &'a [usize], conns: &Conns) -> &'a [usize]
    ensures { result.now ≡ drop (length (conns_names conns.now)) uses.now }
{
    match conns {
        Conns::Places(terms) => behind_terms(uses, terms.as_slice()),
        Conns::Pins(pins) => behind_pins(uses, pins.as_slice()),
    }
}

/// The uses behind those of an item.
pub fn behind_item<'a>(uses: &'a [usize], item: &Item) -> &'a [usize]
    ensures { result.now ≡ drop (length (item_names item.now)) uses.now }
{
    match item {
        Item::Decl(_) => behind(uses, 1),
        Item::Assign {
            line: _,
            left,
            right,
        } => behind_steps(behind(uses, left.as_slice().len()), right.as_slice()),
        Item::Prim {
            line: _,
            op: _,
            terms,
        } => behind_terms(uses, terms.as_slice()),
        Item::Cell {
            line: _,
            cell: _,
            conns,
        } => behind_connections(uses, conns),
    }
}
