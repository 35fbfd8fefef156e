use bb_base::{Name, Token};
use bb_lex::Lexer;
use bb_parse::{Conns, Decl, Expr, Header, Item, Module, ParseFault, Parser, Ref, Sequence, Step};
use std::alloc::{AllocError, Global};
use std::process::Abort;
use std::test::Fail;

/// A name as it stands.
fn name_text(name: &Name) -> &str {
    match str::from_utf8(name.bytes()) {
        Ok(text) => text,
        Err(_) => "no text",
    }
}

/// A range or a select: `[3:0]`, or nothing.
fn range_text(alloc: Global, range: Option<(u32, u32)>) -> Result<String, AllocError> {
    match range {
        Some((from, to)) => format!(in alloc; "[{from}:{to}]"),
        None => format!(in alloc; ""),
    }
}

/// A reference: `a` or `a[3:0]`.
fn ref_text(alloc: Global, reference: &Ref) -> Result<String, AllocError> {
    let name = name_text(&reference.name);
    let select = range_text(alloc, reference.select)?;
    format!(in alloc; "{name}{select}")
}

/// A step: a reference, `4'10`, or the word of an operator with its number.
fn step_text(alloc: Global, step: &Step) -> Result<String, AllocError> {
    match step {
        Step::Ref(reference) => ref_text(alloc, reference),
        Step::Const { size, value } => format!(in alloc; "{size}'{value}"),
        Step::Not => format!(in alloc; "not"),
        Step::And => format!(in alloc; "and"),
        Step::Or => format!(in alloc; "or"),
        Step::Xor => format!(in alloc; "xor"),
        Step::Xnor => format!(in alloc; "xnor"),
        Step::Cond => format!(in alloc; "cond"),
        Step::Join(count) => format!(in alloc; "join{count}"),
        Step::Repeat(times) => format!(in alloc; "repeat{times}"),
    }
}

/// The steps of an expression, each with a blank before it.
fn expr_text(alloc: Global, expr: &Expr) -> Result<String, AllocError> {
    let mut text = String::new(alloc);
    for step in expr.as_slice() {
        text.push_str(" ")?;
        text.push_str(step_text(alloc, step)?.as_str())?;
    }
    Ok(text)
}

/// Expressions, each with a comma behind it.
fn exprs_text(alloc: Global, exprs: &Sequence<Expr>) -> Result<String, AllocError> {
    let mut text = String::new(alloc);
    for expr in exprs.as_slice() {
        text.push_str(expr_text(alloc, expr)?.as_str())?;
        text.push_str(",")?;
    }
    Ok(text)
}

/// References, each with a comma behind it.
fn refs_text(alloc: Global, refs: &Sequence<Ref>) -> Result<String, AllocError> {
    let mut text = String::new(alloc);
    for reference in refs.as_slice() {
        text.push_str(ref_text(alloc, reference)?.as_str())?;
        text.push_str(",")?;
    }
    Ok(text)
}

/// A declared name: `Input@1[3:0] a`.
fn decl_text(alloc: Global, decl: &Decl) -> Result<String, AllocError> {
    let (line, role) = (decl.line, decl.role);
    let range = range_text(alloc, decl.range)?;
    let name = name_text(&decl.name);
    format!(in alloc; "{role:?}@{line}{range} {name}")
}

/// The value of a pin.
fn value_text(alloc: Global, value: &Option<Expr>) -> Result<String, AllocError> {
    match value {
        Some(expr) => expr_text(alloc, expr),
        None => format!(in alloc; " open"),
    }
}

/// What an instance is connected to: `( a, b,)` or `{A a,B open,}`.
fn conns_text(alloc: Global, conns: &Conns) -> Result<String, AllocError> {
    match conns {
        Conns::Places(terms) => {
            let terms = exprs_text(alloc, terms)?;
            format!(in alloc; "({terms})")
        }
        Conns::Pins(pins) => {
            let mut text = String::new(alloc);
            for pin in pins.as_slice() {
                let (name, value) = pin;
                text.push_str(name_text(name))?;
                text.push_str(value_text(alloc, value)?.as_str())?;
                text.push_str(",")?;
            }
            format!(in alloc; "{{{text}}}")
        }
    }
}

/// An item, as in `Wire@1 a`, `assign@1 a,= b`, `And@1( a, b,)` or `dff@1( a,)`.
fn item_text(alloc: Global, item: &Item) -> Result<String, AllocError> {
    match item {
        Item::Decl(decl) => decl_text(alloc, decl),
        Item::Assign { line, left, right } => {
            let left = refs_text(alloc, left)?;
            let right = expr_text(alloc, right)?;
            format!(in alloc; "assign@{line} {left}={right}")
        }
        Item::Prim { line, op, terms } => {
            let terms = exprs_text(alloc, terms)?;
            format!(in alloc; "{op:?}@{line}({terms})")
        }
        Item::Cell { line, cell, conns } => {
            let cell = name_text(cell);
            let conns = conns_text(alloc, conns)?;
            format!(in alloc; "{cell}@{line}{conns}")
        }
    }
}

/// A header: `(a,b,)` or `(Input@1 a,)`.
fn header_text(alloc: Global, header: &Header) -> Result<String, AllocError> {
    let mut text = String::new(alloc);
    match header {
        Header::Plain(names) => {
            for name in names.as_slice() {
                text.push_str(name_text(name))?;
                text.push_str(",")?;
            }
        }
        Header::Ansi(ports) => {
            for port in ports.as_slice() {
                text.push_str(decl_text(alloc, port)?.as_str())?;
                text.push_str(",")?;
            }
        }
    }
    format!(in alloc; "({text})")
}

/// A module: its name, its header, and its items, each with a semicolon behind it.
fn module_text(alloc: Global, parsed: &Module) -> Result<String, AllocError> {
    let name = name_text(&parsed.name);
    let header = header_text(alloc, &parsed.header)?;
    let mut text = String::new(alloc);
    for item in parsed.items.as_slice() {
        text.push_str(item_text(alloc, item)?.as_str())?;
        text.push_str(";")?;
    }
    format!(in alloc; "{name}{header}{text}")
}

/// The tokens of a text, and the line of its end.
fn tokens_of(alloc: Global, text: &str) -> (Vec<Token>, u32) {
    let mut lexer = Lexer::new(alloc);
    let mut tokens = Vec::new(alloc);
    let _ = lexer.feed(text.as_bytes(), &mut tokens);
    let line = lexer.finish(&mut tokens).unwrap_or(0);
    (tokens, line)
}

/// What tokens give, and whether a fault came before the end, which is in this line.
fn parse_tokens(
    alloc: Global,
    tokens: Vec<Token>,
    count: usize,
    line: u32,
) -> (Result<Module, ParseFault>, bool) {
    let mut parser = Parser::new(alloc);
    let mut early = false;
    for token in tokens.into_iter().take(count) {
        early = parser.token(token).is_err();
    }
    (parser.finish(line), early)
}

/// What the first so many tokens of a text give, and whether a fault came before the end.
fn parse_front(alloc: Global, text: &str, count: usize) -> (Result<Module, ParseFault>, bool) {
    let (tokens, line) = tokens_of(alloc, text);
    parse_tokens(alloc, tokens, count, line)
}

/// What a text gives: the module, or the line that is unreadable.
fn parse_text(alloc: Global, text: &str) -> Result<String, AllocError> {
    let (parsed, early) = parse_front(alloc, text, usize::MAX);
    match parsed {
        Ok(parsed) => module_text(alloc, &parsed),
        Err(ParseFault::Unreadable { line }) if early => format!(in alloc; "line {line}"),
        Err(ParseFault::Unreadable { line }) => format!(in alloc; "end in line {line}"),
        Err(ParseFault::NoMemory) => format!(in alloc; "no memory"),
    }
}

#[test]
fn each_production_gives_its_part_of_the_module(rt: HostRuntime) -> Result<(), Fail> {
    let rows = [
        ("module m; endmodule", "m()"),
        ("module m (); endmodule", "m()"),
        ("module \\m+ (a, b);\nendmodule", "m+(a,b,)"),
        (
            "\nmodule m (\ninput a, output wire [1:0] b, c, input wire d, e\n); endmodule",
            "m(Input@2 a,Output@2[1:0] b,Output@2[1:0] c,Input@2 d,Input@2 e,)",
        ),
        (
            "module m;\ninput wire [3:0] a,\nb; output c; wire [0:1] d; wire e, f; output wire g;\nendmodule",
            "m()Input@2[3:0] a;Input@2[3:0] b;Output@3 c;Wire@3[0:1] d;Wire@3 e;Wire@3 f;Output@3 g;",
        ),
        (
            "module m; assign a = b, {c[1], {d[3:0]}, e} = f; endmodule",
            "m()assign@1 a,= b;assign@1 c[1:1],d[3:0],e,= f;",
        ),
        (
            "module m; and (y, a, b); nor g (y, ~a),\n(z, a & b), h (w);\nbuf (p, q); endmodule",
            "m()And@1( y, a, b,);Nor@1( y, a not,);Nor@1( z, a b and,);Nor@1( w,);Buf@3( p, q,);",
        ),
        (
            "module m; nand (a); or (a); xor (a); xnor (a); not (a); endmodule",
            "m()Nand@1( a,);Or@1( a,);Xor@1( a,);Xnor@1( a,);Not@1( a,);",
        ),
        (
            "module m; dff f (c, q, d), g (e[0]); foo u (); foo v (.A(x), .B(), .C({y, z})); endmodule",
            "m()dff@1( c, q, d,);dff@1( e[0:0],);foo@1{};foo@1{A x,B open,C y z join2,};",
        ),
    ];
    for (text, parsed) in rows {
        assert!(rt; parse_text(rt.alloc(), text)?.as_str() == parsed, "{text}");
    }
    Ok(())
}

#[test]
fn expressions_are_in_postfix_order(rt: HostRuntime) -> Result<(), Fail> {
    let rows = [
        ("a", " a"),
        ("(a)", " a"),
        ("{a}", " a join1"),
        ("~ ~a", " a not not"),
        ("4'b1010", " 4'10"),
        ("a & b & c", " a b and c and"),
        ("a | b | c", " a b or c or"),
        ("a ^ b ~^ c ^~ d", " a b xor c xnor d xnor"),
        ("a | b ^ c & ~d", " a b c d not and xor or"),
        ("a & b ^ c | d", " a b and c xor d or"),
        ("a & (b | c)", " a b c or and"),
        ("a ? b : c", " a b c cond"),
        ("a ? b : c ? d : e", " a b c d e cond cond"),
        ("a ? b ? c : d : e", " a b c d cond e cond"),
        ("a | b ? c & d : e", " a b or c d and e cond"),
        ("{a, b[1], c[3:2]}", " a b[1:1] c[3:2] join3"),
        ("{3{a, b}}", " a b join2 repeat3"),
        ("{2{{a}}}", " a join1 join1 repeat2"),
        ("{a, {2{b}}} & c", " a b join1 repeat2 join2 c and"),
        ("{1'b0}", " 1'0 join1"),
    ];
    for (expr, steps) in rows {
        let text = format!(in rt.alloc(); "module m; assign y = {expr}; endmodule")?;
        let parsed = format!(in rt.alloc(); "m()assign@1 y,={steps};")?;
        assert!(rt;
            parse_text(rt.alloc(), text.as_str())?.as_str() == parsed.as_str(),
            "{expr}"
        );
    }
    Ok(())
}

#[test]
fn the_first_bad_token_is_refused_in_its_line(rt: HostRuntime) -> Result<(), Fail> {
    let rows = [
        ("", "end in line 1"),
        ("module e (y); output y; assign y = 1'b0;", "end in line 1"),
        (
            "module e (y); output y; assign y = 1'b0;\n",
            "end in line 2",
        ),
        ("\nwire a;", "line 2"),
        ("module m; endmodule\nmodule", "line 2"),
        ("module m;\n;\nendmodule", "line 2"),
        ("module m (a,\n); endmodule", "line 2"),
        ("module m (a,\ninput b); endmodule", "line 2"),
        ("module m (input a,\nwire b); endmodule", "line 2"),
        ("module m (input a,\n[1:0] b); endmodule", "line 2"),
        ("module m; inout a\n; endmodule", "line 2"),
        ("module m; reg q\n; endmodule", "line 2"),
        ("module m; foo\n(a); endmodule", "line 2"),
        ("module m; wire\nwire a; endmodule", "line 2"),
        ("module m; and\n; endmodule", "line 2"),
        ("module m; and (\n); endmodule", "line 2"),
        ("module m; foo u (a,\n.B(b)); endmodule", "line 2"),
        ("module m; foo u (.A(a),\nb); endmodule", "line 2"),
        ("module m; assign y = {\n0{a}}; endmodule", "line 2"),
        ("module m; assign y = {\n00\n{a}}; endmodule", "line 2"),
        ("module m; assign y = {2{a}\n, b}; endmodule", "line 2"),
        ("module m; assign y = {2'b10\n{a}}; endmodule", "line 2"),
        ("module m; assign y = {\n}; endmodule", "line 2"),
        ("module m; assign y =\n2; endmodule", "line 2"),
        ("module m; assign (\ny) = a; endmodule", "line 1"),
        ("module m; assign y = a ?\nb; endmodule", "line 2"),
        ("module m; assign y = a[1:\nb]; endmodule", "line 2"),
        ("module m; assign y = a\nb; endmodule", "line 2"),
    ];
    for (text, outcome) in rows {
        assert!(rt; parse_text(rt.alloc(), text)?.as_str() == outcome, "{text}");
    }
    Ok(())
}

#[test]
fn no_front_of_a_module_is_one(rt: HostRuntime) -> Result<(), Fail> {
    let text = "module m (input a, b); wire [1:0] c, d; assign {c, d[0]} = a ? ~b : {2{a}};
        and g (c, a | b, 1'b1); foo u (.A(a), .B()), v (a ^ b); endmodule
";
    let (tokens, _) = tokens_of(rt.alloc(), text);
    for count in 0..tokens.len() {
        let (parsed, early) = parse_front(rt.alloc(), text, count);
        assert!(rt; !early, "{count}");
        assert!(rt;
            matches!(parsed, Err(ParseFault::Unreadable { line: 3 })),
            "{count}"
        );
    }
    let (parsed, _) = parse_front(rt.alloc(), text, tokens.len());
    assert!(rt; parsed.is_ok());
    Ok(())
}

#[test]
fn parentheses_nest_deep(rt: HostRuntime) -> Result<(), Fail> {
    let opened = [b'('; 65536];
    let closed = [b')'; 65536];
    let mut lexer = Lexer::new(rt.alloc());
    let mut tokens = Vec::new(rt.alloc());
    let _ = lexer.feed(b"module m; assign y = ", &mut tokens);
    let _ = lexer.feed(&opened, &mut tokens);
    let _ = lexer.feed(b"a", &mut tokens);
    let _ = lexer.feed(&closed, &mut tokens);
    let _ = lexer.feed(b"; endmodule", &mut tokens);
    let line = lexer.finish(&mut tokens).unwrap_or(0);
    assert!(rt; tokens.len() == 131081);
    let (parsed, _) = parse_tokens(rt.alloc(), tokens, usize::MAX, line);
    match parsed {
        Ok(parsed) => assert!(rt;
            module_text(rt.alloc(), &parsed)?.as_str() == "m()assign@1 y,= a;"
        ),
        Err(_) => assert!(rt; false),
    }
    Ok(())
}
