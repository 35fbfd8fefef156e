//! Times the cuts of a netlist: its canonical text stands on standard input, and the width is the word of the call.
#![tactic(auto)]

ghost use Rattle.std.specs.Prelude.{◌≤◌, IfSome};
ghost use Rattle.bb_base.specs.Order.{IsOrder};

use bb_base::Netlist;
use bb_canon::read_canonical;
use bb_net::Named;
use bb_netlist::{Order, find_order};
use bb_segment::cuts;
use std::alloc::Global;
use std::rt::Env;
use std::time::Instant;
use std::{env, io};

/// The named netlist of a canonical text, and the order of its gates.
fn read(alloc: Global, text: &str) -> Option<(Named, Order)>
    ensures { IfSome result (λ found. IsOrder found.0.netlist.gates found.1) }
{
    let Ok(named) = read_canonical(alloc, text.as_bytes()) else {
        return None;
    };
    match find_order(alloc, named.netlist()) {
        Ok(order) => Some((named, order)),
        Err(_) => None,
    }
}

/// How many cuts a netlist has, and none where it is refused.
fn count_of(alloc: Global, netlist: &Netlist, order: &Order, width: u32) -> Option<usize>
    requires order { IsOrder netlist.now.gates order.now }
    requires width { width ≤ 12 }
{
    match cuts(alloc, netlist, order, width) {
        Ok(cuts) => Some(cuts.len()),
        Err(_) => None,
    }
}

/// The same, and prints how long finding them took.
fn timed(
    rt: &HostRuntime,
    netlist: &Netlist,
    order: &Order,
    width: u32,
) -> anyhow::Result<Option<usize>>
    requires order { IsOrder netlist.now.gates order.now }
    requires width { width ≤ 12 }
{
    let start = Instant::now(rt)?;
    let count = count_of(rt.alloc(), netlist, order, width);
    let took = start.elapsed(rt)?.as_micros();
    eprintln!(rt; "{took} microseconds")?;
    Ok(count)
}

/// The same of a text; none where it is no netlist's.
fn measured(rt: &HostRuntime, text: &str, width: u32) -> anyhow::Result<Option<usize>>
    requires { width ≤ 12 }
{
    match read(rt.alloc(), text) {
        Some((named, order)) => timed(rt, named.netlist(), &order, width),
        None => Ok(None),
    }
}

/// The numbers that the words behind the program's name are.
fn numbers_of(rt: &(impl Env + AllocGlobal)) -> anyhow::Result<Vec<u32>> {
    let mut numbers = Vec::new(rt.alloc());
    for word in env::args(rt)?.skip(1) {
        numbers.push(word.as_str().parse::<u32>()?)?;
    }
    Ok(numbers)
}

/// The text on standard input.
fn text_of(rt: &HostRuntime) -> anyhow::Result<String> {
    Ok(io::read_to_string(rt.alloc(), rt.reader())?)
}

/// The width that the words say, if it is at most 12.
fn width_of(numbers: &[u32]) -> Option<u32>
    ensures { IfSome result (λ width. width ≤ 12) }
{
    match numbers {
        [width] if *width <= 12 => Some(*width),
        _ => None,
    }
}

fn main(rt: HostRuntime) -> anyhow::Result<()> {
    let Some(width) = width_of(&numbers_of(&rt)?) else {
        println!(rt; "usage: cuts_bench WIDTH < TEXT (a width is at most 12)")?;
        return Ok(());
    };
    let count = measured(&rt, text_of(&rt)?.as_str(), width)?;
    match count {
        Some(count) => println!(rt; "{count} cuts at width {width}")?,
        None => println!(rt; "refused")?,
    }
    Ok(())
}
