// Netlists that tests read from canonical texts, each with the order of its gates.

ghost use Rattle.std.specs.Prelude.{IfSome};
ghost use Rattle.bb_base.specs.Order.{IsOrder};

use bb_canon::read_canonical;
use bb_net::Named;
use bb_netlist::{Order, find_order};
use std::alloc::Global;

/// A half adder, with the nets a, b, s and c.
pub(crate) const HALF: &str =
    "module half (a, b, s, c);\ninput a;\ninput b;\noutput s;\noutput c;\nxor (s, a, b);\nand (c, a, b);\nendmodule\n";

/// A flip-flop that takes its complement.
pub(crate) const TOGGLE: &str =
    "module row (ck, q);\ninput ck;\noutput q;\nwire d;\nnot (d, q);\ndff bt_f0 (ck, q, d);\nendmodule\n";

/// Two flip-flops that take each other's bit.
pub(crate) const SWAP: &str =
    "module row (ck, p, q);\ninput ck;\noutput p;\noutput q;\ndff bt_f0 (ck, p, q);\ndff bt_f1 (ck, q, p);\nendmodule\n";

/// The netlist of a text, and the order of its gates.
pub(crate) fn read(alloc: Global, text: &str) -> Option<(Named, Order)>
    ensures { IfSome result (λ found. IsOrder found.0.netlist.gates found.1) }
{
    let Ok(named) = read_canonical(alloc, text.as_bytes()) else {
        return None;
    };
    match find_order(alloc, named.netlist()) {
        Ok(order) => Some((named, order)),
        Err(_) => None,
    }
}
