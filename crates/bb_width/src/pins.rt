//! What an instance of a cell must be connected to.

ghost use Rattle.std.specs.Prelude.{◌≡◌, [], is_some};
ghost use Rattle.std.specs.List.{list_all};
ghost use Rattle.bb_fault.specs.Firsts.{first_behind};
ghost use Rattle.bb_scope.specs.Names.{has_name};
ghost use Rattle.bb_scope.specs.Cells.{is_plain, is_open_or_plain, by_place, is_known, is_repeated, is_given, is_right_out, are_right_pins, are_right_places, are_right};
ghost use Rattle.bb_scope.specs.Kinds.{kind_value, texts};

use bb_base::Name;
use bb_parse::{Conns, Expr, Step};
use bb_scope::Kind;

/// Whether a name is among pins.
fn has_pin(pins: &[&[u8]], name: &[u8]) -> bool
    ensures { result ≡ has_name (texts pins.now) name.now }
{
    for pin in pins {
        if name == *pin {
            return true;
        }
    }
    false
}

/// Whether an expression is one reference.
pub(crate) fn is_plain(steps: &[Step]) -> bool
    ensures { result ≡ is_plain steps.now }
{
    match steps {
        [Step::Ref(_)] => true,
        _ => false,
    }
}

fn is_open_or_plain(expr: &Option<Expr>) -> bool
    ensures { result ≡ is_open_or_plain expr.now }
{
    match expr {
        None => true,
        Some(steps) => is_plain(steps.as_slice()),
    }
}

/// Whether the kind has a pin.
fn is_known(kind: &Kind, pin: &(Name, Option<Expr>)) -> bool
    ensures { result ≡ is_known (kind_value kind.now) pin.now }
{
    kind.out == pin.0.bytes() || has_pin(kind.ins, pin.0.bytes())
}

fn all_known(kind: &Kind, pins: &[(Name, Option<Expr>)]) -> bool
    ensures { result ≡ list_all (is_known (kind_value kind.now)) pins.now }
{
    for pin in pins {
        if !is_known(kind, pin) {
            return false;
        }
    }
    true
}

/// Whether a pin of the same name stands before.
fn is_repeated(before: &[(Name, Option<Expr>)], pin: &(Name, Option<Expr>)) -> bool
    ensures { result ≡ is_repeated before.now pin.now }
{
    for other in before {
        if pin.0 == other.0 {
            return true;
        }
    }
    false
}

/// Whether some pin is repeated. Where all pins are known, one of the first few is.
fn any_repeated(pins: &[(Name, Option<Expr>)]) -> bool
    ensures { result ≡ is_some (first_behind is_repeated [] pins.now) }
{
    for (index, pin) in pins.iter().enumerate() {
        if is_repeated(pins.split_at(index).0, pin) {
            return true;
        }
    }
    false
}

/// Whether a pin is connected.
pub(crate) fn is_given(pins: &[(Name, Option<Expr>)], name: &[u8]) -> bool
    ensures { result ≡ is_given pins.now name.now }
{
    for pin in pins {
        if name == pin.0.bytes() && pin.1.is_some() {
            return true;
        }
    }
    false
}

fn all_given(pins: &[(Name, Option<Expr>)], names: &[&[u8]]) -> bool
    ensures { result ≡ list_all (is_given pins.now) (texts names.now) }
{
    for name in names {
        if !is_given(pins, name) {
            return false;
        }
    }
    true
}

/// Whether a pin is no output, or one that may be driven.
fn is_right_out(kind: &Kind, pin: &(Name, Option<Expr>)) -> bool
    ensures { result ≡ is_right_out (kind_value kind.now) pin.now }
{
    kind.out != pin.0.bytes() || is_open_or_plain(&pin.1)
}

fn all_right_outs(kind: &Kind, pins: &[(Name, Option<Expr>)]) -> bool
    ensures { result ≡ list_all (is_right_out (kind_value kind.now)) pins.now }
{
    for pin in pins {
        if !is_right_out(kind, pin) {
            return false;
        }
    }
    true
}

fn are_right_pins(kind: &Kind, pins: &[(Name, Option<Expr>)]) -> bool
    ensures { result ≡ are_right_pins (kind_value kind.now) pins.now }
{
    all_known(kind, pins)
        && !any_repeated(pins)
        && all_given(pins, kind.ins)
        && all_right_outs(kind, pins)
}

/// Whether the terminal in the output's place may be driven.
fn is_driven_in_place(kind: &Kind, terms: &[Expr]) -> bool
    ensures { result ≡ list_all (is_right_out (kind_value kind.now)) (by_place (kind_value kind.now) terms.now) }
{
    for (index, place) in kind.places.iter().enumerate() {
        let Some(term) = terms.get(index) else {
            return true;
        };
        if kind.out == *place && !is_plain(term.as_slice()) {
            return false;
        }
    }
    true
}

fn are_right_places(kind: &Kind, terms: &[Expr]) -> bool
    ensures { result ≡ are_right_places (kind_value kind.now) terms.now }
{
    let count = terms.len();
    count > 0 && count == kind.places.len() && is_driven_in_place(kind, terms)
}

/// Whether an instance is connected as its kind wants it.
pub(crate) fn are_right(kind: &Kind, conns: &Conns) -> bool
    ensures { result ≡ are_right (kind_value kind.now) conns.now }
{
    match conns {
        Conns::Places(terms) => are_right_places(kind, terms.as_slice()),
        Conns::Pins(pins) => are_right_pins(kind, pins.as_slice()),
    }
}
