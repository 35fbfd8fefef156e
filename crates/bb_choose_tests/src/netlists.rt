// Netlists that tests read from canonical texts, each with the order of its gates.

ghost use Rattle.std.specs.Prelude.{IfSome};
ghost use Rattle.bb_base.specs.Order.{IsOrder};

use bb_canon::read_canonical;
use bb_net::Named;
use bb_netlist::{Order, find_order};
use std::alloc::Global;

/// A half adder.
pub(crate) const HALF: &str =
    "module half (a, b, s, c);\ninput a;\ninput b;\noutput s;\noutput c;\nxor (s, a, b);\nand (c, a, b);\nendmodule\n";

/// An input, and nothing that reads it.
pub(crate) const NONE: &str = "module none (a);\ninput a;\nendmodule\n";

/// An output that is an input.
pub(crate) const WIRE: &str = "module w (a, y);\ninput a;\noutput y;\nbuf (y, a);\nendmodule\n";

/// A constant.
pub(crate) const ONE: &str = "module one (y);\noutput y;\nassign y = 1'b1;\nendmodule\n";

/// A flip-flop that takes its complement.
pub(crate) const TOGGLE: &str =
    "module tog (clk, q);\ninput clk;\noutput q;\nwire d;\nnot (d, q);\ndff bt_f0 (clk, q, d);\nendmodule\n";

/// Two flip-flops that take each other's bit.
pub(crate) const SWAP: &str =
    "module swap (clk, y);\ninput clk;\noutput y;\nwire p;\ndff bt_f0 (clk, y, p);\ndff bt_f1 (clk, p, y);\nendmodule\n";

/// A gate of nine inputs.
pub(crate) const NINE: &str =
    "module nine (a, y);\ninput [0:8] a;\noutput y;\nand (y, a[0], a[1], a[2], a[3], a[4], a[5], a[6], a[7], a[8]);\nendmodule\n";

/// A gate that reads one input nine times.
pub(crate) const AGAIN: &str =
    "module again (a, y);\ninput a;\noutput y;\nand (y, a, a, a, a, a, a, a, a, a);\nendmodule\n";

/// The parity of 32 inputs by gates of two, in five levels.
pub(crate) const TREE: &str =
    "module tree (i, y);\ninput [0:31] i;\noutput y;\nwire [0:15] t;\nwire [0:7] u;\nwire [0:3] v;\nwire [0:1] w;\nxor (t[0], i[0], i[1]);\nxor (t[1], i[2], i[3]);\nxor (t[2], i[4], i[5]);\nxor (t[3], i[6], i[7]);\nxor (t[4], i[8], i[9]);\nxor (t[5], i[10], i[11]);\nxor (t[6], i[12], i[13]);\nxor (t[7], i[14], i[15]);\nxor (t[8], i[16], i[17]);\nxor (t[9], i[18], i[19]);\nxor (t[10], i[20], i[21]);\nxor (t[11], i[22], i[23]);\nxor (t[12], i[24], i[25]);\nxor (t[13], i[26], i[27]);\nxor (t[14], i[28], i[29]);\nxor (t[15], i[30], i[31]);\nxor (u[0], t[0], t[1]);\nxor (u[1], t[2], t[3]);\nxor (u[2], t[4], t[5]);\nxor (u[3], t[6], t[7]);\nxor (u[4], t[8], t[9]);\nxor (u[5], t[10], t[11]);\nxor (u[6], t[12], t[13]);\nxor (u[7], t[14], t[15]);\nxor (v[0], u[0], u[1]);\nxor (v[1], u[2], u[3]);\nxor (v[2], u[4], u[5]);\nxor (v[3], u[6], u[7]);\nxor (w[0], v[0], v[1]);\nxor (w[1], v[2], v[3]);\nxor (y, w[0], w[1]);\nendmodule\n";

/// Ten gates and three flip-flops, each of which reads itself, after a small known benchmark.
pub(crate) const SMALL: &str =
    "module s (clk, G0, G1, G2, G3, G17);\ninput clk;\ninput G0;\ninput G1;\ninput G2;\ninput G3;\noutput G17;\nwire G5;\nwire G6;\nwire G7;\nwire G8;\nwire G9;\nwire G10;\nwire G11;\nwire G12;\nwire G13;\nwire G14;\nwire G15;\nwire G16;\nnot (G14, G0);\nnot (G17, G11);\nand (G8, G14, G6);\nor (G15, G12, G8);\nor (G16, G3, G8);\nnand (G9, G16, G15);\nnor (G10, G14, G11);\nnor (G11, G5, G9);\nnor (G12, G1, G7);\nnor (G13, G2, G12);\ndff bt_f0 (clk, G5, G10);\ndff bt_f1 (clk, G6, G11);\ndff bt_f2 (clk, G7, G13);\nendmodule\n";

/// Two of sixteen inputs are read.
pub(crate) const DRAWN: &str =
    "module sample (i, o);\ninput [0:15] i;\noutput [0:0] o;\nwire [0:0] g;\nor (g[0], i[0], i[4]);\nbuf (o[0], g[0]);\nendmodule\n";

/// The netlist of a text, and the order of its gates.
pub(crate) fn read(alloc: Global, text: &str) -> Option<(Named, Order)>
    ensures { IfSome result (λ found. IsOrder found.0.netlist.gates found.1) }
{
    let Ok(named) = read_canonical(alloc, text.as_bytes()) else {
        return None;
    };
    match find_order(alloc, named.netlist()) {
        Ok(order) => Some((named, order)),
        Err(_) => None,
    }
}
