//! What the text of a file denotes: nets by their numbers, gates in their order, and the drivers that nets are found with.

use bb_base::{Driver, NetId};
use bb_edge::MemStore;
use bb_net::Named;
use bb_netlist::Order;
use bb_read::read_named;
use std::alloc::{AllocError, Global};
use std::test::Fail;

/// A small benchmark of ten gates and three flip-flops.
const PLAIN: &str = "module s (clk, G0, G1, G2, G3, G17);\n\
    input clk, G0, G1, G2, G3;\n\
    output G17;\n\
    wire G5, G6, G7, G8, G9, G10, G11, G12, G13, G14, G15, G16;\n\
    dff a (clk, G5, G10);\n\
    dff b (clk, G6, G11);\n\
    dff c (clk, G7, G13);\n\
    not (G14, G0);\n\
    not (G17, G11);\n\
    and (G8, G14, G6);\n\
    or (G15, G12, G8);\n\
    or (G16, G3, G8);\n\
    nand (G9, G16, G15);\n\
    nor (G10, G14, G11);\n\
    nor (G11, G5, G9);\n\
    nor (G12, G1, G7);\n\
    nor (G13, G2, G12);\n\
    endmodule\n";

/// The netlist that a text denotes, where names of its own may begin with `bt_` or not.
fn named_of(alloc: Global, text: &str, own: bool) -> Result<Option<(Named, Order)>, AllocError> {
    let mut store = MemStore::new(alloc, Vec::new(alloc));
    store.set("in.v", text.as_bytes())?;
    Ok(read_named(alloc, &mut store, "in.v", own, 10_000).ok())
}

/// The gates and flip-flops of a netlist by numbers of nets.
fn rows_of(alloc: Global, named: &Named) -> Result<String, AllocError> {
    let mut text = String::new(alloc);
    for gate in named.netlist().gates() {
        let part = format!(in alloc; "{:?} {}", gate.op, gate.out.0)?;
        text.push_str(part.as_str())?;
        for net in gate.ins.as_slice() {
            let part = format!(in alloc; " {}", net.0)?;
            text.push_str(part.as_str())?;
        }
        text.push_str("; ")?;
    }
    for flop in named.netlist().flops() {
        let part = format!(in alloc; "dff {} {}; ", flop.q.0, flop.d.0)?;
        text.push_str(part.as_str())?;
    }
    Ok(text)
}

/// The order of gates, and then the number of variables.
fn order_of(alloc: Global, named: &Named, order: &Order) -> Result<String, AllocError> {
    let mut text = String::from_str(alloc, "order")?;
    for gate in order.gates() {
        let part = format!(in alloc; " {gate}")?;
        text.push_str(part.as_str())?;
    }
    let part = format!(in alloc; ", {} variables", named.variables())?;
    text.push_str(part.as_str())?;
    Ok(text)
}

/// What a text denotes, in one line.
fn denoted(alloc: Global, text: &str, own: bool) -> Result<String, AllocError> {
    let Some((named, order)) = named_of(alloc, text, own)? else {
        return String::from_str(alloc, "a fault");
    };
    let rows = rows_of(alloc, &named)?;
    let order = order_of(alloc, &named, &order)?;
    format!(in alloc; "{rows}{order}")
}

#[test]
fn a_text_denotes_its_netlist(rt: HostRuntime) -> Result<(), Fail> {
    let rows = [
        (
            PLAIN,
            false,
            "Not 14 0; Not 4 11; And 8 14 6; Or 15 12 8; Or 16 3 8; Nand 9 16 15; Nor 10 14 11; Nor 11 5 9; Nor 12 1 7; Nor 13 2 12; dff 5 10; dff 6 11; dff 7 13; order 0 8 2 9 3 4 5 7 1 6, 18 variables",
        ),
        (
            "module m (s, a, b, c, y); input s; input [1:0] a; input [0:1] b; input [1:0] c; output [1:0] y; assign y = s ? a & ~b | c : {c[0], 1'b0}; endmodule",
            false,
            "Not 9 3; Not 10 4; And 11 1 9; And 12 2 10; Or 13 11 5; Or 14 12 6; Zero 15; Not 16 0; And 17 0 13; And 18 16 6; Or 7 17 18; And 19 0 14; And 20 16 15; Or 8 19 20; order 0 1 6 7 2 3 9 12 4 5 8 11 10 13, 17 variables",
        ),
        (
            "module t (k, y); input [0:1] k; output y; dff f (k[1], y, k[0]); endmodule",
            false,
            "dff 1 0; order, 2 variables",
        ),
        (
            "module t (k, d, y); input k, d; output y; wire j; buf (j, k); dff f (j, y, d); endmodule",
            false,
            "dff 1 0; order, 4 variables",
        ),
        (
            "module t (a, y); input a; output y; assign y = 1'b1 | (a & 1'b0); endmodule",
            false,
            "Zero 2; And 3 0 2; One 4; Or 1 4 3; order 0 2 1 3, 5 variables",
        ),
        (
            "module t (a, s, y); input a, s; output y; wire b; not (b, a); \\$_MUX_ u (.S(s), .Y(y), .B(b), .A(a)); endmodule",
            false,
            "Not 3 0; Not 4 1; And 5 1 3; And 6 4 0; Or 2 5 6; order 0 1 2 3 4, 7 variables",
        ),
        // Names of its own are read where they are allowed.
        (
            "module m (a, y); input a; output y; buf (y, bt_w); not (bt_w, a); endmodule",
            true,
            "Buf 1 2; Not 2 0; order 1 0, 3 variables",
        ),
        (
            "module m (a, y); input a; output y; buf (y, bt_w); not (bt_w, a); endmodule",
            false,
            "a fault",
        ),
    ];
    for (text, own, wanted) in rows {
        let line = denoted(rt.alloc(), text, own)?;
        assert!(rt; line.as_str() == wanted, "{text}");
    }
    Ok(())
}

/// The name of the last variable of what a text denotes.
fn last_variable(alloc: Global, text: &str, own: bool) -> Result<Vec<u8>, AllocError> {
    let Some((named, _)) = named_of(alloc, text, own)? else {
        return Vec::from_slice(alloc, b"a fault");
    };
    match named.variables().checked_sub(1) {
        Some(last) => Vec::from_slice(alloc, named.variable(last).0.bytes()),
        None => Ok(Vec::new(alloc)),
    }
}

#[test]
fn a_made_net_has_the_first_name_that_is_no_variable(rt: HostRuntime) -> Result<(), Fail> {
    let rows = [
        ("assign y = ~(~a);", false, "bt_w0"),
        (
            "wire bt_w0; not (bt_w0, a); assign y = ~(~bt_w0);",
            true,
            "bt_w1",
        ),
        // The name of an instance is no variable.
        ("\\$_NOT_ bt_w0 (.A(a)); buf (y, a);", false, "bt_w0"),
        // The net is the clock's and no net of the netlist, and its variable stays.
        ("\\$_BUF_ u (.A(k)); dff f (k, y, a);", false, "bt_w0"),
    ];
    for (body, own, wanted) in rows {
        let text = format!(in rt.alloc();
            "module m (k, a, y); input k, a; output y;\n{body}\nendmodule\n"
        )?;
        let name = last_variable(rt.alloc(), text.as_str(), own)?;
        assert!(rt; name.as_slice() == wanted.as_bytes(), "{body}");
    }
    Ok(())
}

/// Whether each name is found where it stands, and the nets have these drivers.
fn are_found(named: &Named, drivers: &[Driver]) -> bool {
    for number in 0..named.variables() {
        if named.lookup(named.variable(number).0) != Some(number) {
            return false;
        }
    }
    for net in 0..named.netlist().nets() {
        let net = NetId(net);
        if named.find(named.name(net)) != Some(net)
            || drivers.get(net.0 as usize) != Some(&named.netlist().driver(net))
        {
            return false;
        }
    }
    true
}

#[test]
fn nets_are_found_by_name_with_their_drivers(rt: HostRuntime) -> Result<(), Fail> {
    let half = [
        Driver::Input(0),
        Driver::Input(1),
        Driver::Gate(0),
        Driver::Gate(1),
    ];
    let held = [
        Driver::Input(0),
        Driver::Flop(0),
        Driver::Input(1),
        Driver::Gate(0),
    ];
    let rows = [
        (
            "module half (a, b, s, c);\ninput a, b;\noutput s, c;\nxor (s, a, b);\nand (c, a, b);\nendmodule\n",
            half,
        ),
        (
            "module held (ck, d, q, e);\ninput ck;\ninput d;\noutput q;\ninput e;\nwire w;\nbuf (w, d);\ndff bt_f0 (ck, q, w);\nendmodule\n",
            held,
        ),
    ];
    for (text, drivers) in rows {
        match named_of(rt.alloc(), text, false)? {
            Some((named, _)) => assert!(rt; are_found(&named, &drivers), "{text}"),
            None => panic!(rt; "{text}"),
        }
    }
    Ok(())
}
