//! Changes of the written netlist and of the original, each with the line that `check` puts.

use crate::call::checked_with;
use std::test::Fail;

#[test]
fn a_netlist_is_judged_by_what_it_denotes(rt: HostRuntime) -> Result<(), Fail> {
    let rows = [
        ("wire bt_ni;", "wire [4:4] bt_ni;"),
        (
            "wire bt_ni;",
            "wire bt_ni, more; // nothing drives it, and nothing reads it",
        ),
        ("wire bt_ni;\n", ""),
        (
            "xor (s, bt_r0, bt_r1);\nand (c, bt_r0, bt_r1);\n",
            "and (c, bt_r0, bt_r1);\nassign s = bt_r0 ^ bt_r1;\n",
        ),
        ("input a;\ninput b;\n", "input a, b;\n"),
        (
            "dff bt_f0 (bt_clk, bt_x0, bt_xd0);",
            "\\$_DFF_P_ f (.D(bt_xd0), .Q(bt_x0), .C(bt_clk));",
        ),
        ("endmodule\n", "endmodule"),
    ];
    for (old, new) in rows {
        let end = checked_with(rt.alloc(), "o.v", old, new)?;
        assert!(rt; end.says(0, "pass"), "{new:?}");
    }
    Ok(())
}

#[test]
fn another_netlist_is_refused_by_its_first_net_that_differs(rt: HostRuntime) -> Result<(), Fail> {
    let rows = [
        ("module half", "module whole", "check: rule 17 at 0"),
        ("(a, b,", "(b, a,", "check: rule 17 at 0"),
        ("input a;", "input [0:0] a;", "check: rule 17 at 0"),
        ("xor (s,", "xnor (s,", "check: rule 17 at 3"),
        (
            "and (c, bt_r0, bt_r1)",
            "and (c, bt_r1, bt_r0)",
            "check: rule 17 at 4",
        ),
        (
            "(bt_xd0, bt_go, bt_f)",
            "(bt_xd0, bt_f, bt_go)",
            "check: rule 17 at 16",
        ),
        (
            "endmodule",
            "wire more;\nbuf (more, a);\nendmodule",
            "check: rule 17 at 76",
        ),
    ];
    for (old, new, words) in rows {
        let end = checked_with(rt.alloc(), "o.v", old, new)?;
        assert!(rt; end.refuses(words), "{new:?}");
    }
    Ok(())
}

#[test]
fn a_text_that_denotes_no_netlist_is_refused(rt: HostRuntime) -> Result<(), Fail> {
    let rows = [
        (
            "i.v",
            "input a;\n",
            "inputs a;\n",
            "input: line 2 unreadable",
        ),
        (
            "i.v",
            "xor (s, a, b);",
            "xor (s, a, bt_b);",
            "input: reserved bt_b",
        ),
        (
            "i.v",
            "xor (s, a, b);",
            "xor (s, a, b), (s, a, b);",
            "input: two drivers s",
        ),
        (
            "i.v",
            "xor (s, a, b);",
            "xnor (s, a, b);",
            "check: rule 17 at 3",
        ),
        (
            "o.v",
            "input a;\n",
            "input # a;\n",
            "netlist: line 2 bad byte",
        ),
        (
            "o.v",
            "input a;\n",
            "input a;\ninput a;\n",
            "netlist: redeclared a",
        ),
        (
            "o.v",
            "not (bt_ni, bt_init);",
            "not (bt_ni, bt_init), (bt_ni, a);",
            "netlist: two drivers bt_ni",
        ),
        (
            "o.v",
            "and (bt_done, bt_go, bt_ring1);\n",
            "",
            "netlist: undriven bt_done",
        ),
        (
            "o.v",
            "not (bt_ni, bt_init);",
            "not (bt_ni, bt_ni);",
            "netlist: loop through bt_ni, 1 nets",
        ),
        (
            "o.v",
            "dff bt_f0 (bt_clk,",
            "dff bt_f0 (a,",
            "netlist: two clocks a and bt_clk",
        ),
        (
            "o.v",
            "wire bt_ni;",
            "wire [134217727:0] w;\nwire bt_ni;",
            "netlist: too many bits 134217804 over 134217728",
        ),
    ];
    for (name, old, new, words) in rows {
        let end = checked_with(rt.alloc(), name, old, new)?;
        assert!(rt; end.refuses(words), "{name} {new:?}");
    }
    Ok(())
}
