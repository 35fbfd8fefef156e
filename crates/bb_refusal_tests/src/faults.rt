//! What is refused of a text, and in which words.

use crate::call::is_refused;
use std::test::Fail;

#[test]
fn each_fault_of_a_module_has_its_words(rt: HostRuntime) -> Result<(), Fail> {
    let rows = [
        ("module bt_m (a);\ninput a;", "reserved bt_m"),
        ("module m (input a, input a);", "redeclared a"),
        ("module m (a, b);\ninput a;", "bad port b"),
        (
            "module m (a);\ninput [2097152:0] a;",
            "too many bits 2097153 over 2097152",
        ),
        (
            "module m (a, y);\ninput [2097150:0] a;\noutput y;\nassign y = ~(~a[0]);",
            "too many bits 2097153 over 2097152",
        ),
        (
            "module m (a, y);\ninput a;\noutput y;\n\\$_LATCH_ u (.A(a), .Y(y));",
            "unknown cell \\$_LATCH_",
        ),
        (
            "module m (a, y);\ninput a;\noutput y;\nbuf\n(y);",
            "line 4 bad pins",
        ),
        (
            "module m (a, y);\ninput a;\noutput y;\nbuf (y, a[0]);",
            "line 4 bad select",
        ),
        (
            "module m (a, y);\ninput [1:0] a;\noutput y;\nassign y = a;",
            "line 4 width differs",
        ),
        (
            "module m (a, y);\ninput a;\noutput y;\nassign y = {65537{a}};",
            "line 4 too wide",
        ),
        (
            "module m (y);\noutput [0:1] y;\nassign y[0] = 1'b0;",
            "undriven y[1]",
        ),
        (
            "module m (y);\noutput y;\nwire [1:0] \\u.v ;\nbuf (y, \\u.v [1]);",
            "undriven \\u.v[1]",
        ),
        (
            "module m (y);\noutput y;\nbuf (y, \\and );",
            "undriven \\and",
        ),
        (
            "module m (c, a, q);\ninput c, a;\noutput q;\nnot (n, c);\ndff f (n, q, a);",
            "clock not input n",
        ),
        (
            "module m (c, k, a, q, r);\ninput c, a;\ninput [1:0] k;\noutput q, r;\ndff f (c, q, a), g (k[1], r, a);",
            "two clocks c and k[1]",
        ),
        (
            "module m (a, y);\ninput a;\noutput y;\nand (y, a, p);\nnot (p, y);",
            "loop through y, 2 nets",
        ),
    ];
    for (front, words) in rows {
        let text = format!(in rt.alloc(); "{front}\nendmodule\n")?;
        assert!(rt;
            is_refused(rt.alloc(), text.as_str().as_bytes(), words)?,
            "{words}"
        );
    }
    Ok(())
}

#[test]
fn a_text_that_is_no_modules_is_refused_by_its_first_flaw(rt: HostRuntime) -> Result<(), Fail> {
    let rows = [
        ("", "line 1 unreadable"),
        ("module half (a, b, s, c);\n", "line 2 unreadable"),
        (
            "module e (y); output y; assign y = 1'bx; endmodule",
            "line 1 bad number",
        ),
        (
            "module e (y); output y; assign y = 1'b0;",
            "line 1 unreadable",
        ),
        (
            "module e (y);\noutput y\nassign y = 1'bx;\nendmodule\n",
            "line 3 unreadable",
        ),
        ("module e (y);\noutput y;\n# assign\n", "line 3 bad byte"),
        (
            "module e (y);\n/* output y;\nendmodule\n",
            "line 2 open comment",
        ),
    ];
    for (text, words) in rows {
        assert!(rt; is_refused(rt.alloc(), text.as_bytes(), words)?, "{text:?}");
    }
    Ok(())
}

#[test]
fn the_first_fault_is_answered_and_names_the_least_net(rt: HostRuntime) -> Result<(), Fail> {
    let rows = [
        // Each of these five mends the fault of the one before.
        (
            "wire bt_x; not (p, a); not (p, a); and (y, p, u); and (l, l, a); dff f (b, q, b);",
            "reserved bt_x",
        ),
        (
            "not (p, a); not (p, a); and (y, p, u); and (l, l, a); dff f (b, q, b);",
            "two drivers p",
        ),
        (
            "not (p, a); and (y, p, u); and (l, l, a); dff f (b, q, b);",
            "undriven u",
        ),
        (
            "not (p, a); and (y, p, a); and (l, l, a); dff f (b, q, b);",
            "clock as data b",
        ),
        (
            "not (p, a); and (y, p, a); and (l, l, a); dff f (b, q, a);",
            "loop through l, 1 nets",
        ),
        ("buf (a, b); buf (y, a);", "two drivers a"),
        (
            "buf (w, a); buf (z, a); buf (w, b); buf (z, b); buf (y, b);",
            "two drivers w",
        ),
        ("dff f (g, y, a); buf (g, g);", "clock not input g"),
        (
            "wire x, z; dff f (z, y, b); dff g (x, w, b); not (x, z, a);",
            "clock not input x",
        ),
        ("dff f (a, q, q); buf (y, a);", "clock as data y"),
        ("dff f (a, q, q); and (y, a);", "clock as data a"),
        ("dff f (b, y, b);", "clock as data b"),
        (
            "and (y, a, q); buf (q, r); not (r, q);",
            "loop through q, 2 nets",
        ),
    ];
    for (body, words) in rows {
        let text = format!(in rt.alloc();
            "module m (a, b, y); input a, b; output y;\n{body}\nendmodule\n"
        )?;
        assert!(rt;
            is_refused(rt.alloc(), text.as_str().as_bytes(), words)?,
            "{body}"
        );
    }
    Ok(())
}

#[test]
fn a_text_of_one_byte_too_many_is_too_long_whatever_it_says(rt: HostRuntime) -> Result<(), Fail> {
    for first in [b' ', b'#'] {
        let mut text = vec![in rt.alloc(); b' '; 67_108_865]?;
        text[0] = first;
        assert!(rt; is_refused(rt.alloc(), &text, "too long")?);
    }
    Ok(())
}

/// Each statement drives 65,536 bits anew.
#[test]
fn nets_that_are_driven_again_are_found_before_gates_are_made(rt: HostRuntime) -> Result<(), Fail> {
    let front = "module m (y);\noutput y;\nwire [65535:0] a, b;\n";
    let mut text = String::from_str(rt.alloc(), front)?;
    for _ in 0..5_000 {
        text.push_str("assign a=b;")?;
    }
    text.push_str("\nendmodule\n")?;
    assert!(rt; is_refused(rt.alloc(), text.as_str().as_bytes(), "two drivers a[65535]")?);
    Ok(())
}
