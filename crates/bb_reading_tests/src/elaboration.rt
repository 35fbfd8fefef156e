use bb_base::Name;
use bb_elab::{ElabFault, text_fault};
use bb_lex::Lexer;
use bb_parse::{Module, ParseFault, Parser};
use std::alloc::{AllocError, Global};
use std::process::Abort;
use std::test::Fail;

/// A name as it stands.
fn name_text(name: &Name) -> &str {
    match str::from_utf8(name.bytes()) {
        Ok(text) => text,
        Err(_) => "no text",
    }
}

/// A fault in words.
fn fault_text(alloc: Global, fault: &ElabFault) -> Result<String, AllocError> {
    match fault {
        ElabFault::Reserved { name, select: _ } => {
            format!(in alloc; "reserved {}", name_text(name))
        }
        ElabFault::Redeclared { name, select: _ } => {
            format!(in alloc; "redeclared {}", name_text(name))
        }
        ElabFault::BadPort { name, select: _ } => {
            format!(in alloc; "bad port {}", name_text(name))
        }
        ElabFault::TooMany { count, limit } => format!(in alloc;
            "too many bits {count} over {limit}"
        ),
        ElabFault::UnknownCell { name, select: _ } => {
            format!(in alloc; "unknown cell {}", name_text(name))
        }
        ElabFault::BadPins { line } => format!(in alloc; "line {line} bad pins"),
        ElabFault::BadSelect { line } => format!(in alloc; "line {line} bad select"),
        ElabFault::WidthDiffers { line } => format!(in alloc; "line {line} width differs"),
        ElabFault::TooWide { line } => format!(in alloc; "line {line} too wide"),
        _ => format!(in alloc; "no fault of a text"),
    }
}

/// The module of a text.
fn module_of(alloc: Global, text: &str) -> Result<Module, ParseFault> {
    let mut lexer = Lexer::new(alloc);
    let mut tokens = Vec::new(alloc);
    let _ = lexer.feed(text.as_bytes(), &mut tokens);
    let line = lexer.finish(&mut tokens).unwrap_or(0);
    let mut parser = Parser::new(alloc);
    for token in tokens {
        let _ = parser.token(token);
    }
    parser.finish(line)
}

/// What is said of a text: its first fault, or that it is fine.
fn outcome(alloc: Global, text: &str, own: bool) -> Result<String, AllocError> {
    match module_of(alloc, text) {
        Err(_) => format!(in alloc; "no module"),
        Ok(parsed) => match text_fault(alloc, &parsed, own) {
            Ok(()) => format!(in alloc; "fine"),
            Err(fault) => fault_text(alloc, &fault),
        },
    }
}

/// Each body, in a module of the inputs `a` and `b` and the output `y`, has this outcome.
fn check(rt: &impl Abort, alloc: Global, rows: &[(&str, &str)]) -> Result<(), AllocError> {
    for (body, wanted) in rows {
        let text = format!(in alloc;
            "module m (a, b, y); input a, b; output y;\n{body}\nendmodule"
        )?;
        assert!(rt;
            outcome(alloc, text.as_str(), false)?.as_str() == *wanted,
            "{body}"
        );
    }
    Ok(())
}

#[test]
fn each_fault_comes_alone(rt: HostRuntime) -> Result<(), Fail> {
    let rows = [
        ("wire w; and (w, a, b); assign y = w;", "fine"),
        ("wire bt_x;", "reserved bt_x"),
        ("wire w, w;", "redeclared w"),
        ("input z;", "bad port z"),
        ("wire [2097151:0] w;", "too many bits 2097155 over 2097152"),
        ("foo u (a, y);", "unknown cell foo"),
        ("not (y);", "line 2 bad pins"),
        ("assign y = a[0];", "line 2 bad select"),
        ("wire [1:0] v;\nassign y = a & v;", "line 3 width differs"),
        ("wire w; assign w = {65537{a}};", "line 2 too wide"),
        (
            "wire [2097148:0] w; assign w[0] = 1'b1 & 1'b0;",
            "too many bits 2097154 over 2097152",
        ),
    ];
    check(&rt, rt.alloc(), &rows)?;
    Ok(())
}

#[test]
fn the_earlier_of_two_faults_is_named(rt: HostRuntime) -> Result<(), Fail> {
    let rows = [
        ("wire w, w; assign y = bt_u;", "reserved bt_u"),
        ("input z; wire w, w;", "redeclared w"),
        ("wire [2097151:0] w; input z;", "bad port z"),
        (
            "foo u (a, y); wire [2097151:0] w;",
            "too many bits 2097155 over 2097152",
        ),
        ("not (y); foo u (a, y);", "unknown cell foo"),
        (
            "wire [2097148:0] w; assign w[0] = 1'b1 & 1'b0; not (y);",
            "line 2 bad pins",
        ),
        (
            "wire [1:0] v; and (y, v);\nand (y);",
            "line 2 width differs",
        ),
        (
            "wire [1:0] v; \\$_AND_ u (.A(v), .B(a), .Z(b));",
            "line 2 bad pins",
        ),
        (
            "wire [1:0] v; \\$_AND_ u (.B(v), .A(a[0]));",
            "line 2 width differs",
        ),
        ("wire [65536:0] v; and (y, v);", "line 2 too wide"),
    ];
    check(&rt, rt.alloc(), &rows)?;
    Ok(())
}

#[test]
fn what_looks_open_is_settled(rt: HostRuntime) -> Result<(), Fail> {
    let rows = [
        ("wire y; and ((y), a, b);", "fine"),
        ("wire [0:0] y;", "redeclared y"),
        ("and ({y}, a, b);", "line 2 bad pins"),
        ("wire [1:0] v; and (v[1:0], a);", "line 2 width differs"),
        ("assign y = n[0];", "line 2 bad select"),
        ("wire [3:3] v; assign y = v[3:3];", "fine"),
        ("wire [1:0] v; assign v = a ? v : 2'b01;", "fine"),
        (
            "wire [1:0] v; assign y = v ? a : b;",
            "line 2 width differs",
        ),
        (
            "wire [0:65535] v; assign {v, y} = a;",
            "line 2 width differs",
        ),
        ("wire [0:65536] v; assign v = a;", "line 2 too wide"),
        ("assign y = bt_b; wire bt_c;", "reserved bt_b"),
        ("foo bt_u (.bt_p(bt_v));", "reserved bt_v"),
        ("dff f (.CK(a), .D(b));", "fine"),
        ("dff f (a, y);", "line 2 bad pins"),
        ("dff f (a, {y}, b);", "line 2 bad pins"),
        ("\\$_NOT_ u (a, y);", "line 2 bad pins"),
        ("\\$_NOT_ u (.A(a), .Y(), .Y());", "line 2 bad pins"),
        ("\\$_NOT_ u (.A(), .Y(y));", "line 2 bad pins"),
    ];
    check(&rt, rt.alloc(), &rows)?;
    Ok(())
}

#[test]
fn headers_and_selects(rt: HostRuntime) -> Result<(), Fail> {
    let mixed = "module m (s, a, b, c, y);
        input s; input [1:0] a; input [0:1] b; input [1:0] c; output [1:0] y;
        assign y = s ? a & ~";
    let rest = " | c : {c[0], 1'b0}; endmodule";
    let rows = [
        ("b", "fine"),
        ("b[0:1]", "fine"),
        ("b[1:0]", "line 3 bad select"),
        ("b[0]", "line 3 width differs"),
        ("b[1:2]", "line 3 bad select"),
    ];
    for (operand, wanted) in rows {
        let text = format!(in rt.alloc(); "{mixed}{operand}{rest}")?;
        assert!(rt;
            outcome(rt.alloc(), text.as_str(), false)?.as_str() == wanted,
            "{operand}"
        );
    }
    let headers = [
        ("module m (input a, input a); endmodule", "redeclared a"),
        ("module m (a, b, b, a); input a, b; endmodule", "bad port b"),
        (
            "module m (a, b, a); input a; wire b; endmodule",
            "bad port b",
        ),
        ("module bt_m (a); wire a; endmodule", "reserved bt_m"),
        ("module m (output wire y); wire y; endmodule", "fine"),
    ];
    for (text, wanted) in headers {
        assert!(rt;
            outcome(rt.alloc(), text, false)?.as_str() == wanted,
            "{text}"
        );
    }
    Ok(())
}

#[test]
fn own_names_and_the_larger_limit(rt: HostRuntime) -> Result<(), Fail> {
    let rows = [
        ("module bt_m (); wire [134217727:0] w; endmodule", "fine"),
        (
            "module m (); wire [134217728:0] w; endmodule",
            "too many bits 134217729 over 134217728",
        ),
        (
            "module m (); wire [2147483647:0] v; wire [0:2147483647] w; endmodule",
            "too many bits 4294967296 over 134217728",
        ),
    ];
    for (text, wanted) in rows {
        assert!(rt;
            outcome(rt.alloc(), text, true)?.as_str() == wanted,
            "{text}"
        );
    }
    Ok(())
}
