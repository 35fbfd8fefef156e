use bb_base::{LexFault, Mark, Token, TokenKind};
use bb_lex::Lexer;
use std::alloc::{AllocError, Global};
use std::process::Abort;
use std::test::Fail;

/// How a mark is written.
fn mark_text(mark: Mark) -> &'static str {
    match mark {
        Mark::LeftParen => "(",
        Mark::RightParen => ")",
        Mark::LeftBracket => "[",
        Mark::RightBracket => "]",
        Mark::LeftBrace => "{",
        Mark::RightBrace => "}",
        Mark::Comma => ",",
        Mark::Semicolon => ";",
        Mark::Colon => ":",
        Mark::Dot => ".",
        Mark::Equals => "=",
        Mark::Amp => "&",
        Mark::Bar => "|",
        Mark::Caret => "^",
        Mark::Tilde => "~",
        Mark::TildeCaret => "~^",
        Mark::CaretTilde => "^~",
        Mark::Question => "?",
    }
}

/// A token with its line, as these tests write it: `"a"@1`, `Module@1`, `7@1`, `4'10@1` or `~^@1`.
fn token_text(alloc: Global, token: &Token) -> Result<String, AllocError> {
    let line = token.line;
    match &token.kind {
        TokenKind::Key(keyword) => format!(in alloc; "{keyword:?}@{line} "),
        TokenKind::Name(name) => match str::from_utf8(name.bytes()) {
            Ok(text) => format!(in alloc; "\"{text}\"@{line} "),
            Err(_) => format!(in alloc; "no name"),
        },
        TokenKind::Number(number) => format!(in alloc; "{number}@{line} "),
        TokenKind::Const { size, value } => format!(in alloc; "{size}'{value}@{line} "),
        TokenKind::Mark(mark) => {
            let text = mark_text(*mark);
            format!(in alloc; "{text}@{line} ")
        }
    }
}

/// The tokens, each with its line.
fn tokens_text(alloc: Global, tokens: &[Token]) -> Result<String, AllocError> {
    let mut text = String::new(alloc);
    for token in tokens {
        text.push_str(token_text(alloc, token)?.as_str())?;
    }
    Ok(text)
}

/// What a text gives that comes in two pieces.
fn read_cut(
    alloc: Global,
    front: &[u8],
    back: &[u8],
) -> Result<(String, Result<u32, LexFault>), AllocError> {
    let mut lexer = Lexer::new(alloc);
    let mut out = Vec::new(alloc);
    let _ = lexer.feed(front, &mut out);
    let _ = lexer.feed(back, &mut out);
    let end = lexer.finish(&mut out);
    Ok((tokens_text(alloc, &out)?, end))
}

/// What a text gives that comes byte by byte.
fn read_bytes(alloc: Global, text: &[u8]) -> Result<(String, Result<u32, LexFault>), AllocError> {
    let mut lexer = Lexer::new(alloc);
    let mut out = Vec::new(alloc);
    for piece in text.chunks(1) {
        let _ = lexer.feed(piece, &mut out);
    }
    let end = lexer.finish(&mut out);
    Ok((tokens_text(alloc, &out)?, end))
}

/// A text, the tokens that it gives, and the answer at its end.
type Row<'a> = (&'a str, &'a str, Result<u32, LexFault>);

/// The text gives these tokens and this answer, cut anywhere and byte by byte.
fn check(rt: &impl Abort, alloc: Global, row: &Row<'_>) -> Result<(), AllocError> {
    let (text, tokens, end) = row;
    let (spelled, answer) = read_bytes(alloc, text.as_bytes())?;
    assert!(rt; spelled.as_str() == *tokens, "{text}");
    assert!(rt; answer == *end, "{text}");
    for at in 0..=text.len() {
        let (front, back) = text.as_bytes().split_at(at);
        let (spelled, answer) = read_cut(alloc, front, back)?;
        assert!(rt; spelled.as_str() == *tokens, "{text}");
        assert!(rt; answer == *end, "{text}");
    }
    Ok(())
}

/// The same of each row.
fn check_rows(rt: &impl Abort, alloc: Global, rows: &[Row<'_>]) -> Result<(), AllocError> {
    for row in rows {
        check(rt, alloc, row)?;
    }
    Ok(())
}

#[test]
fn the_longest_mark_is_taken(rt: HostRuntime) -> Result<(), Fail> {
    let rows = [
        (
            "( ) [ ] { } , ; : . = & | ^ ~ ~^ ^~ ?",
            "(@1 )@1 [@1 ]@1 {@1 }@1 ,@1 ;@1 :@1 .@1 =@1 &@1 |@1 ^@1 ~@1 ~^@1 ^~@1 ?@1 ",
            Ok(1),
        ),
        (
            "()[]{},;:.=&|?",
            "(@1 )@1 [@1 ]@1 {@1 }@1 ,@1 ;@1 :@1 .@1 =@1 &@1 |@1 ?@1 ",
            Ok(1),
        ),
        ("^~^", "^~@1 ^@1 ", Ok(1)),
        ("~~^", "~@1 ~^@1 ", Ok(1)),
        ("^^~~", "^@1 ^~@1 ~@1 ", Ok(1)),
        ("a ^~b", "\"a\"@1 ^~@1 \"b\"@1 ", Ok(1)),
        ("~/**/^", "~@1 ^@1 ", Ok(1)),
        ("~ ^", "~@1 ^@1 ", Ok(1)),
        ("( *", "(@1 ", Err(LexFault::BadByte { line: 1 })),
        ("(", "(@1 ", Ok(1)),
        ("~", "~@1 ", Ok(1)),
        ("^", "^@1 ", Ok(1)),
    ];
    check_rows(&rt, rt.alloc(), &rows)?;
    Ok(())
}

#[test]
fn a_name_is_simple_or_escaped_and_a_keyword_is_simple(rt: HostRuntime) -> Result<(), Fail> {
    let rows = [
        (
            "module endmodule input output wire assign",
            "Module@1 Endmodule@1 Input@1 Output@1 Wire@1 Assign@1 ",
            Ok(1),
        ),
        (
            "and nand or nor xor xnor not buf",
            "And@1 Nand@1 Or@1 Nor@1 Xor@1 Xnor@1 Not@1 Buf@1 ",
            Ok(1),
        ),
        (
            "Module modules _ a$1_ _9",
            "\"Module\"@1 \"modules\"@1 \"_\"@1 \"a$1_\"@1 \"_9\"@1 ",
            Ok(1),
        ),
        (
            "\\module \\abc abc",
            "\"module\"@1 \"abc\"@1 \"abc\"@1 ",
            Ok(1),
        ),
        ("\\a/*b*/ \\a(*", "\"a/*b*/\"@1 \"a(*\"@1 ", Ok(1)),
        ("\\a;b\n;", "\"a;b\"@1 ;@2 ", Ok(2)),
        ("$a", "", Err(LexFault::BadByte { line: 1 })),
        ("\\", "", Err(LexFault::BadByte { line: 1 })),
        ("\\ a", "", Err(LexFault::BadByte { line: 1 })),
        ("a \\\n", "\"a\"@1 ", Err(LexFault::BadByte { line: 1 })),
        ("\\abc\u{80}", "", Err(LexFault::BadByte { line: 1 })),
        (
            "x\\abc\u{0} y",
            "\"x\"@1 ",
            Err(LexFault::BadByte { line: 1 }),
        ),
        ("\\abc\u{b}", "", Err(LexFault::BadByte { line: 1 })),
        ("\\abc\u{7f}", "", Err(LexFault::BadByte { line: 1 })),
        ("a\u{80}", "\"a\"@1 ", Err(LexFault::BadByte { line: 1 })),
        (
            "endmodule \\x\u{80}",
            "Endmodule@1 ",
            Err(LexFault::BadByte { line: 1 }),
        ),
    ];
    check_rows(&rt, rt.alloc(), &rows)?;
    Ok(())
}

#[test]
fn a_number_has_digits_and_low_lines(rt: HostRuntime) -> Result<(), Fail> {
    let rows = [
        ("0 007 1_2_ 2147483647", "0@1 7@1 12@1 2147483647@1 ", Ok(1)),
        ("12abc", "12@1 \"abc\"@1 ", Ok(1)),
        ("[3a:0]", "[@1 3@1 \"a\"@1 :@1 0@1 ]@1 ", Ok(1)),
        ("2147483648", "", Err(LexFault::BadNumber { line: 1 })),
        (
            "a\n 4294967296",
            "\"a\"@1 ",
            Err(LexFault::BadNumber { line: 2 }),
        ),
        ("9_", "9@1 ", Ok(1)),
        ("1 'b0", "1@1 ", Err(LexFault::BadByte { line: 1 })),
        ("1/**/'b0", "1@1 ", Err(LexFault::BadByte { line: 1 })),
        ("1$", "1@1 ", Err(LexFault::BadByte { line: 1 })),
    ];
    check_rows(&rt, rt.alloc(), &rows)?;
    Ok(())
}

#[test]
fn a_constant_is_one_token(rt: HostRuntime) -> Result<(), Fail> {
    let rows = [
        (
            "1'b0 1'B1 8'o17 8'D255 12'hAbC 4'sb1010 4'Sh7",
            "1'0@1 1'1@1 8'15@1 8'255@1 12'2748@1 4'10@1 4'7@1 ",
            Ok(1),
        ),
        (
            "1'b0_ 1_2'hABC 01'b1 3'o7?",
            "1'0@1 12'2748@1 1'1@1 3'7@1 ?@1 ",
            Ok(1),
        ),
        ("128'd1 127'h0_0", "128'1@1 127'0@1 ", Ok(1)),
        ("1'b0$", "1'0@1 ", Err(LexFault::BadByte { line: 1 })),
        ("1'b0'", "1'0@1 ", Err(LexFault::BadByte { line: 1 })),
    ];
    check_rows(&rt, rt.alloc(), &rows)?;
    Ok(())
}

#[test]
fn a_constant_that_breaks_its_rule_is_a_bad_number(rt: HostRuntime) -> Result<(), Fail> {
    let rows = [
        ("1'b_0", "", Err(LexFault::BadNumber { line: 1 })),
        ("1'ss0", "", Err(LexFault::BadNumber { line: 1 })),
        ("1's", "", Err(LexFault::BadNumber { line: 1 })),
        ("1'", "", Err(LexFault::BadNumber { line: 1 })),
        ("1' b0", "", Err(LexFault::BadNumber { line: 1 })),
        ("1'b 0", "", Err(LexFault::BadNumber { line: 1 })),
        ("1'b", "", Err(LexFault::BadNumber { line: 1 })),
        ("0'b0", "", Err(LexFault::BadNumber { line: 1 })),
        ("129'b0", "", Err(LexFault::BadNumber { line: 1 })),
        ("1'b2", "", Err(LexFault::BadNumber { line: 1 })),
        ("1'b02", "", Err(LexFault::BadNumber { line: 1 })),
        ("8'd1a", "", Err(LexFault::BadNumber { line: 1 })),
        ("1'b0and", "", Err(LexFault::BadNumber { line: 1 })),
        ("1'b0_z", "", Err(LexFault::BadNumber { line: 1 })),
        ("4'b?", "", Err(LexFault::BadNumber { line: 1 })),
        ("7'hff", "", Err(LexFault::BadNumber { line: 1 })),
        (
            "endmodule\n1'bx",
            "Endmodule@1 ",
            Err(LexFault::BadNumber { line: 2 }),
        ),
        ("2147483648'b0", "", Err(LexFault::BadNumber { line: 1 })),
    ];
    check_rows(&rt, rt.alloc(), &rows)?;
    Ok(())
}

#[test]
fn what_is_dropped_gives_no_token(rt: HostRuntime) -> Result<(), Fail> {
    let rows = [
        (" \t\r\u{c}a\nb", "\"a\"@1 \"b\"@2 ", Ok(2)),
        ("\u{b}", "", Err(LexFault::BadByte { line: 1 })),
        ("a // b\nc", "\"a\"@1 \"c\"@2 ", Ok(2)),
        ("a // b", "\"a\"@1 ", Ok(1)),
        ("a // b\rc", "\"a\"@1 ", Ok(1)),
        ("/* a */b/**/c", "\"b\"@1 \"c\"@1 ", Ok(1)),
        ("/*/ a */b", "\"b\"@1 ", Ok(1)),
        ("/***/a/* * / **/b", "\"a\"@1 \"b\"@1 ", Ok(1)),
        ("/ a", "", Err(LexFault::BadByte { line: 1 })),
        ("a/", "\"a\"@1 ", Err(LexFault::BadByte { line: 1 })),
        ("/", "", Err(LexFault::BadByte { line: 1 })),
        ("(*)*)a(**)b", "\"a\"@1 \"b\"@1 ", Ok(1)),
        ("(* // *)a(* /* *)b", "\"a\"@1 \"b\"@1 ", Ok(1)),
        ("(* \"*)\" *)a", "\"a\"@1 ", Ok(1)),
        ("(* \"\\\"*)\" *)a", "\"a\"@1 ", Ok(1)),
        ("(* \\\" *)\"*)a", "\"a\"@1 ", Ok(1)),
        ("(* \\ *)a", "\"a\"@1 ", Ok(1)),
        ("*", "", Err(LexFault::BadByte { line: 1 })),
        ("`timescale 1ns/1ps\na", "\"a\"@2 ", Ok(2)),
        ("`timescalex\ny", "\"y\"@2 ", Ok(2)),
        ("`timescale", "", Ok(1)),
        ("`timescal", "", Err(LexFault::BadByte { line: 1 })),
        ("`timescalE x", "", Err(LexFault::BadByte { line: 1 })),
        ("a `b", "\"a\"@1 ", Err(LexFault::BadByte { line: 1 })),
    ];
    check_rows(&rt, rt.alloc(), &rows)?;
    Ok(())
}

#[test]
fn a_line_is_counted_by_its_line_feeds(rt: HostRuntime) -> Result<(), Fail> {
    let rows = [
        ("", "", Ok(1)),
        ("\n", "", Ok(2)),
        ("a\n\nb;\n", "\"a\"@1 \"b\"@3 ;@3 ", Ok(4)),
        ("/*\n\n*/a\n", "\"a\"@3 ", Ok(4)),
        ("(* \"\n\\\n\" \n*)a", "\"a\"@4 ", Ok(4)),
        (
            "a\n/* b\n c",
            "\"a\"@1 ",
            Err(LexFault::OpenComment { line: 2 }),
        ),
        (
            "a\n(* \"b\n *) c",
            "\"a\"@1 ",
            Err(LexFault::OpenComment { line: 2 }),
        ),
        ("/*", "", Err(LexFault::OpenComment { line: 1 })),
        ("/*/", "", Err(LexFault::OpenComment { line: 1 })),
        ("(*", "", Err(LexFault::OpenComment { line: 1 })),
        ("(*)", "", Err(LexFault::OpenComment { line: 1 })),
        ("(* \"\\", "", Err(LexFault::OpenComment { line: 1 })),
        (
            "a\n// b\n\u{80}",
            "\"a\"@1 ",
            Err(LexFault::BadByte { line: 3 }),
        ),
        ("`timescale x\na", "\"a\"@2 ", Ok(2)),
        (
            "endmodule /* x",
            "Endmodule@1 ",
            Err(LexFault::OpenComment { line: 1 }),
        ),
    ];
    check_rows(&rt, rt.alloc(), &rows)?;
    Ok(())
}

#[test]
fn a_name_has_at_most_1024_bytes(rt: HostRuntime) -> Result<(), Fail> {
    let alloc = rt.alloc();
    let rows = [
        ("a", 1024, Ok(1)),
        ("a", 1025, Err(LexFault::LongName { line: 1 })),
        ("\\", 1024, Ok(1)),
        ("\\", 1025, Ok(1)),
        ("\\", 1026, Err(LexFault::LongName { line: 1 })),
    ];
    for (first, length, end) in rows {
        let mut text = String::new(alloc);
        text.push_str(first)?;
        for _ in 1..length {
            text.push_str("b")?;
        }
        let (_, answer) = read_cut(alloc, text.as_bytes(), b" ")?;
        assert!(rt; answer == end, "{first} {length}");
    }
    Ok(())
}

#[test]
fn an_odd_byte_comes_before_a_long_escaped_name(rt: HostRuntime) -> Result<(), Fail> {
    let alloc = rt.alloc();
    let mut text = String::new(alloc);
    text.push_str("\\")?;
    for _ in 0..1100 {
        text.push_str("b")?;
    }
    let (_, answer) = read_cut(alloc, text.as_bytes(), b"\x80")?;
    assert!(rt; answer == Err(LexFault::BadByte { line: 1 }));
    Ok(())
}

#[test]
fn digits_may_be_many_while_the_value_is_in_range(rt: HostRuntime) -> Result<(), Fail> {
    let alloc = rt.alloc();
    let mut zeros = String::new(alloc);
    for _ in 0..5000 {
        zeros.push_str("0")?;
    }
    let (plain, _) = read_cut(alloc, zeros.as_bytes(), b"1")?;
    assert!(rt; plain.as_str() == "1@1 ");
    let mut constant = String::new(alloc);
    constant.push_str("1'd")?;
    constant.push_str(zeros.as_str())?;
    let (value, _) = read_cut(alloc, constant.as_bytes(), b"1")?;
    assert!(rt; value.as_str() == "1'1@1 ");
    Ok(())
}

#[test]
fn a_constant_has_up_to_128_bits(rt: HostRuntime) -> Result<(), Fail> {
    let rows = [
        (
            "128'hffffffffffffffffffffffffffffffff",
            "128'340282366920938463463374607431768211455@1 ",
            Ok(1),
        ),
        (
            "128'd340282366920938463463374607431768211455",
            "128'340282366920938463463374607431768211455@1 ",
            Ok(1),
        ),
        (
            "128'd340282366920938463463374607431768211456",
            "",
            Err(LexFault::BadNumber { line: 1 }),
        ),
        (
            "128'h100000000000000000000000000000000",
            "",
            Err(LexFault::BadNumber { line: 1 }),
        ),
        (
            "127'h80000000000000000000000000000000",
            "",
            Err(LexFault::BadNumber { line: 1 }),
        ),
        (
            "127'h7fffffffffffffffffffffffffffffff",
            "127'170141183460469231731687303715884105727@1 ",
            Ok(1),
        ),
    ];
    check_rows(&rt, rt.alloc(), &rows)?;
    Ok(())
}
