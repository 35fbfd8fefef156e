//! What modules compute in a cycle: the bits of outputs for those of inputs, by the rules of the language.

ghost use Rattle.std.specs.Prelude.{IfOk, IfSome};
ghost use Rattle.bb_base.specs.Order.{IsOrder};

use bb_base::{NetId, Netlist};
use bb_edge::MemStore;
use bb_eqn::settle;
use bb_net::Named;
use bb_netlist::Order;
use bb_read::read_named;
use std::alloc::{AllocError, Global};
use std::process::Abort;
use std::test::Fail;

/// The netlist that a text denotes and the order of its gates, where names of its own may begin with `bt_` or not.
fn read(alloc: Global, text: &str, own: bool) -> Result<Option<(Named, Order)>, AllocError>
    ensures { IfOk result (λ read. IfSome read (λ found. IsOrder found.0.netlist.gates found.1)) }
{
    let mut store = MemStore::new(alloc, Vec::new(alloc));
    store.set("in.v", text.as_bytes())?;
    match read_named(alloc, &mut store, "in.v", own, 10_000) {
        Ok(found) => Ok(Some(found)),
        Err(_) => Ok(None),
    }
}

/// The bits that digits stand for.
fn bits_of(alloc: Global, digits: &str) -> Result<Vec<bool>, AllocError> {
    let mut bits = Vec::new(alloc);
    for digit in digits.as_bytes() {
        bits.push(*digit == b'1')?;
    }
    Ok(bits)
}

/// The bits of all nets where the inputs have these digits; a netlist with flip-flops or with other inputs has none.
fn settled(
    alloc: Global,
    netlist: &Netlist,
    order: &Order,
    digits: &str,
) -> Result<Option<Vec<bool>>, AllocError>
    requires { IsOrder netlist.now.gates order.now }
{
    let inputs = bits_of(alloc, digits)?;
    if inputs.len() != netlist.inputs().len() || netlist.flops().len() != 0 {
        return Ok(None);
    }
    let mut values = vec![in alloc; true; netlist.nets() as usize]?;
    settle(netlist, order, &inputs, &[], &mut values);
    Ok(Some(values))
}

/// The digit of a net's bit, and `-` where it has none.
fn digit_of(values: &[bool], net: NetId) -> char {
    match values.get(net.0 as usize) {
        Some(true) => '1',
        Some(false) => '0',
        None => '-',
    }
}

/// The digits of these nets.
fn digits_of(alloc: Global, values: &[bool], nets: &[NetId]) -> Result<String, AllocError> {
    let mut answer = String::new(alloc);
    for net in nets {
        answer.push(digit_of(values, *net))?;
    }
    Ok(answer)
}

/// The bits of the outputs where the inputs have these; a text that denotes no netlist of gates alone, or other inputs, has none.
fn outputs(alloc: Global, text: &str, own: bool, digits: &str) -> Result<String, AllocError> {
    let Some((named, order)) = read(alloc, text, own)? else {
        return Ok(String::new(alloc));
    };
    match settled(alloc, named.netlist(), &order, digits)? {
        Some(values) => digits_of(alloc, &values, named.netlist().outputs()),
        None => Ok(String::new(alloc)),
    }
}

/// The output's bits of a module of the inputs a and b, where these are 00, 01, 10 and 11.
fn four_rows(alloc: Global, body: &str, own: bool) -> Result<String, AllocError> {
    let text = format!(in alloc; "module m (a, b, y); input a, b; output y;\n{body}\nendmodule")?;
    let mut answer = String::new(alloc);
    for digits in ["00", "01", "10", "11"] {
        let output = outputs(alloc, text.as_str(), own, digits)?;
        answer.push_str(output.as_str())?;
    }
    Ok(answer)
}

#[test]
fn each_cell_gives_its_function(rt: HostRuntime) -> Result<(), Fail> {
    let rows = [
        ("\\$_NOT_ u (.A(a), .Y(y));", "1100"),
        ("\\$_BUF_ u (.A(a), .Y(y));", "0011"),
        ("\\$_AND_ u (.A(a), .B(b), .Y(y));", "0001"),
        ("\\$_OR_ u (.A(a), .B(b), .Y(y));", "0111"),
        ("\\$_NAND_ u (.A(a), .B(b), .Y(y));", "1110"),
        ("\\$_NOR_ u (.A(a), .B(b), .Y(y));", "1000"),
        ("\\$_XOR_ u (.A(a), .B(b), .Y(y));", "0110"),
        ("\\$_XNOR_ u (.A(a), .B(b), .Y(y));", "1001"),
        ("\\$_ANDNOT_ u (.A(a), .B(b), .Y(y));", "0010"),
        ("\\$_ORNOT_ u (.A(a), .B(b), .Y(y));", "1011"),
        ("\\$_MUX_ u (.A(a), .B(b), .S(1'b0), .Y(y));", "0011"),
        ("\\$_MUX_ u (.A(a), .B(b), .S(1'b1), .Y(y));", "0101"),
        ("\\$_MUX_ u (.A(b), .B(1'b0), .S(a), .Y(y));", "0100"),
    ];
    for (body, wanted) in rows {
        assert!(rt;
            four_rows(rt.alloc(), body, false)?.as_str() == wanted,
            "{body}"
        );
    }
    Ok(())
}

#[test]
fn each_gate_gives_its_function(rt: HostRuntime) -> Result<(), Fail> {
    let rows = [
        ("and (y, a, b);", "0001"),
        ("nand (y, a, b);", "1110"),
        ("or (y, a, b);", "0111"),
        ("nor (y, a, b);", "1000"),
        ("xor (y, a, b);", "0110"),
        ("xnor (y, a, b);", "1001"),
        ("xor (y, a, b, 1'b1);", "1001"),
        ("not (y, b);", "1010"),
        ("wire w; buf (y, w, a);", "0011"),
    ];
    for (body, wanted) in rows {
        assert!(rt;
            four_rows(rt.alloc(), body, false)?.as_str() == wanted,
            "{body}"
        );
    }
    Ok(())
}

/// The inputs are s, a[1], a[0], b[0], b[1], c[1], c[0], and the outputs y[1], y[0].
#[test]
fn each_operator_gives_its_bits(rt: HostRuntime) -> Result<(), Fail> {
    let rows = [
        ("~a", "0100000", "01"),
        ("a & b", "0110100", "01"),
        ("a | b", "0100100", "11"),
        ("a ^ b", "0110100", "10"),
        ("a ~^ b", "0110100", "01"),
        ("a ^~ b", "0110100", "01"),
        ("s ? a : c", "1100001", "10"),
        ("s ? a : c", "0100001", "01"),
        ("{c[0], 1'b0}", "0000001", "10"),
        ("{2{s}}", "1000000", "11"),
        ("2'd2", "0000000", "10"),
        ("b", "0001000", "10"),
        ("{b[1], b[0]}", "0001000", "01"),
        ("a | b & c", "0100100", "10"),
        ("a ^ b & c", "0110100", "11"),
        ("a | b ^ c", "0101010", "10"),
        ("(a | b) & c", "0100101", "01"),
        ("s ? a & ~b | c : {c[0], 1'b0}", "1111000", "01"),
        ("s ? a & ~b | c : {c[0], 1'b0}", "0111001", "10"),
    ];
    let alloc = rt.alloc();
    for (expression, digits, wanted) in rows {
        let text = format!(in alloc;
            "module m (s, a, b, c, y); input s; input [1:0] a; input [0:1] b; input [1:0] c; output [1:0] y;\nassign y = {expression};\nendmodule"
        )?;
        assert!(rt;
            outputs(alloc, text.as_str(), false, digits)?.as_str() == wanted,
            "{expression}"
        );
    }
    Ok(())
}

/// Whether a text's netlist has a variable of this name.
fn has_variable(alloc: Global, text: &str, name: &str) -> Result<bool, AllocError> {
    let Some((named, _)) = read(alloc, text, true)? else {
        return Ok(false);
    };
    for number in 0..named.variables() {
        if named.variable(number).0.bytes() == name.as_bytes() {
            return Ok(true);
        }
    }
    Ok(false)
}

#[test]
fn a_made_net_passes_over_a_name_that_stands(rt: HostRuntime) -> Result<(), Fail> {
    let alloc = rt.alloc();
    let body = "wire bt_w0; assign bt_w0 = a; assign y = ~(bt_w0 & b);";
    assert!(rt; four_rows(alloc, body, true)?.as_str() == "1110");
    assert!(rt; four_rows(alloc, body, false)?.as_str() == "");
    let text = format!(in alloc; "module m (a, b, y); input a, b; output y;\n{body}\nendmodule")?;
    assert!(rt; has_variable(alloc, text.as_str(), "bt_w0")?);
    assert!(rt; has_variable(alloc, text.as_str(), "bt_w1")?);
    assert!(rt; !has_variable(alloc, text.as_str(), "bt_w2")?);
    Ok(())
}
