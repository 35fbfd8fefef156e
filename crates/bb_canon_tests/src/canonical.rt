use bb_canon::{CanonFault, read_canonical};
use bb_print::print;

const HALF: &str =
    "module half (a, b, s, c);\ninput a;\ninput b;\noutput s;\noutput c;\nxor (s, a, b);\nand (c, a, b);\nendmodule\n";

/// With two spaces in its second line.
const HALF_SPACED: &str =
    "module half (a, b, s, c);\ninput  a;\ninput b;\noutput s;\noutput c;\nxor (s, a, b);\nand (c, a, b);\nendmodule\n";

/// Without its last line feed.
const HALF_OPEN: &str =
    "module half (a, b, s, c);\ninput a;\ninput b;\noutput s;\noutput c;\nxor (s, a, b);\nand (c, a, b);\nendmodule";

/// Without its last line.
const HALF_CUT: &str =
    "module half (a, b, s, c);\ninput a;\ninput b;\noutput s;\noutput c;\nxor (s, a, b);\nand (c, a, b);\n";

/// Without the statement of its first gate.
const HALF_UNDRIVEN: &str =
    "module half (a, b, s, c);\ninput a;\ninput b;\noutput s;\noutput c;\nand (c, a, b);\nendmodule\n";

#[test]
fn a_canonical_text_is_read_and_printed_again(rt: HostRuntime) {
    let texts = [
        HALF,
        "module empty ();\nendmodule\n",
        "module loop ();\nwire w;\nwire [7:0] unused;\nnot (w, w);\nendmodule\n",
        "module \\m+  (a, \\and , \\y+ );\ninput a;\ninput \\and ;\noutput [3:2] \\y+ ;\nbuf (\\y+ [3], \\and );\nassign \\y+ [2] = 1'b1;\nendmodule\n",
        "module \\1$  (ck, _$9);\ninput [0:1] ck;\noutput _$9;\nwire z;\nassign z = 1'b0;\ndff bt_f0 (ck[1], _$9, z);\nendmodule\n",
        "module two (ck, q, d);\ninput ck;\noutput q;\ninput d;\nwire [0:1] r;\nnor (r[0], r[1], d, d, d, d, d);\ndff bt_f0 (ck, q, r[0]);\ndff bt_f1 (ck, r[1], q);\nendmodule\n",
    ];
    for text in texts {
        match read_canonical(rt.alloc(), text.as_bytes()) {
            Ok(named) => {
                let mut out = Vec::new(rt.alloc());
                assert!(rt; print(rt.alloc(), &named, &mut out).is_ok());
                assert!(rt; out.as_slice() == text.as_bytes(), "{text}");
            }
            Err(_) => panic!(rt; "{text}"),
        }
    }
}

#[test]
fn a_fault_names_the_first_line_that_may_not_stand_in_its_place(rt: HostRuntime) {
    let rows = [
        (HALF_SPACED, 2),
        (HALF_OPEN, 8),
        (HALF_CUT, 8),
        ("", 1),
        ("endmodule\n", 1),
        ("module half (a);", 1),
        ("module half (a);\ninput a;\n", 3),
        ("module half (a);\ninput a;\nendmodule\n\n", 4),
        ("module half (a);\ninput a;\nendmodule\n ", 4),
        ("module half (a);\ninput a;\nendmodule \n", 3),
        ("module half (a,b);\ninput a;\ninput b;\nendmodule\n", 1),
        ("module half;\nendmodule\n", 1),
        ("module m (a);\ninput [01:0] a;\nendmodule\n", 2),
        ("module m (a);\ninput [2147483648:0] a;\nendmodule\n", 2),
        ("module m (a[0]);\ninput [0:0] a;\nendmodule\n", 1),
        ("module m (\\a );\ninput \\a ;\nendmodule\n", 1),
        ("module m (a);\ninput \\a ;\nendmodule\n", 2),
        ("module m (a);\ninput and;\nendmodule\n", 2),
        ("module m (a);\ninput a+;\nendmodule\n", 2),
        ("module m ();\nwire w;\nbuf (w);\nwire v;\nendmodule\n", 4),
        ("module m ();\nwire w;\nbuf ();\nendmodule\n", 3),
        ("module m ();\nwire w;\nassign w = 1'b2;\nendmodule\n", 3),
        ("module m ();\nwire w;\nbuf (w[00], w);\nendmodule\n", 3),
        (
            "module m (ck, q);\ninput ck;\noutput q;\ndff bt_f1 (ck, q, q);\nendmodule\n",
            4,
        ),
        (
            "module m (ck, q);\ninput ck;\noutput q;\ndff bt_f0 (ck, q, q);\nbuf (q, q);\nendmodule\n",
            5,
        ),
        (
            "module m (ck, q);\ninput ck;\noutput q;\ndff bt_f0 (ck, q, q);\ndff bt_f0 (ck, q, q);\nendmodule\n",
            5,
        ),
        (
            "module m (y);\noutput y;\nbuf (y, none);\nbuf (y, y);\nbuf (y,y);\nendmodule\n",
            5,
        ),
    ];
    for (text, line) in rows {
        match read_canonical(rt.alloc(), text.as_bytes()) {
            Ok(_) => panic!(rt; "{text}"),
            Err(answer) => assert_eq!(rt; answer, CanonFault::Line { line }, "{text}"),
        }
    }
}

#[test]
fn lines_that_no_netlist_has_are_unfit(rt: HostRuntime) {
    let texts = [
        HALF_UNDRIVEN,
        "module m (a);\ninput [0:134217728] a;\nendmodule\n",
        "module m (a, y);\ninput a;\noutput [0:2147483647] y;\nendmodule\n",
        "module m ();\nwire w;\nbuf (w, v);\nendmodule\n",
        "module m (y, y);\noutput y;\noutput y;\nassign y = 1'b0;\nendmodule\n",
        "module m (y);\nwire w;\noutput y;\nassign y = 1'b0;\nassign w = 1'b0;\nendmodule\n",
        "module m ();\noutput y;\nassign y = 1'b0;\nendmodule\n",
        "module m (a, b);\ninput a;\nendmodule\n",
        "module m (c, d, q);\ninput c;\ninput d;\noutput q;\nwire r;\ndff bt_f0 (c, q, q);\ndff bt_f1 (d, r, r);\nendmodule\n",
    ];
    for text in texts {
        match read_canonical(rt.alloc(), text.as_bytes()) {
            Ok(_) => panic!(rt; "{text}"),
            Err(answer) => assert_eq!(rt; answer, CanonFault::Unfit, "{text}"),
        }
    }
    let head = "module m (a, y);\ninput a;\noutput y;\n";
    let bodies = [
        "buf (y, a);\nbuf (y, a);\nendmodule\n",
        "endmodule\n",
        "buf (y, b);\nendmodule\n",
        "buf (y[0], a);\nendmodule\n",
        "wire [3:2] v;\nbuf (y, v);\nendmodule\n",
        "wire [3:2] v;\nbuf (y, v[1]);\nendmodule\n",
        "not (y, a, a);\nendmodule\n",
        "and (y);\nendmodule\n",
        "dff bt_f0 (y, y, a);\nendmodule\n",
        "buf (y, a);\ndff bt_f0 (a, y, y);\nendmodule\n",
        "dff bt_f0 (a, y, a);\nendmodule\n",
    ];
    for body in bodies {
        match format!(in rt.alloc(); "{head}{body}") {
            Ok(text) => match read_canonical(rt.alloc(), text.as_bytes()) {
                Ok(_) => panic!(rt; "{text}"),
                Err(answer) => assert_eq!(rt; answer, CanonFault::Unfit, "{text}"),
            },
            Err(_) => panic!(rt; "no memory"),
        }
    }
}
