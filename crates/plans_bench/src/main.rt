//! Times the choice of a plan for a netlist, the judgement on it, the weaving of its self-test, and its signatures: the netlist's canonical
//! text stands on standard input, and the width and the length of a register are the words of the call.
#![tactic(auto)]

ghost use Rattle.std.specs.Prelude.{◌≡◌, ◌≤◌, true, IfSome, length};
ghost use Rattle.bb_base.specs.Variables.{bit_count};
ghost use Rattle.bb_base.specs.Net.{driven};
ghost use Rattle.bb_base.specs.Order.{IsOrder};
ghost use Rattle.bb_terms.specs.Valid.{IsValidFor};
ghost use Rattle.bb_choose.specs.Arranged.{AreInRange};
ghost use Rattle.bb_ctl.specs.OwnNames.{HasOwnNames};

use bb_base::is_reserved;
use bb_canon::read_canonical;
use bb_choose::{Settings, choose};
use bb_fault::range_width;
use bb_net::Named;
use bb_netlist::{Order, find_order};
use bb_plan::validate;
use bb_sign::signatures;
use bb_terms::{Plan, Valid};
use bb_weave::weave;
use std::alloc::Global;
use std::rt::Env;
use std::time::Instant;
use std::{env, io};

/// The named netlist of a canonical text, and the order of its gates.
fn read(alloc: Global, text: &str) -> Option<(Named, Order)>
    ensures { IfSome result (λ found. IsOrder found.0.netlist.gates found.1) }
{
    let Ok(named) = read_canonical(alloc, text.as_bytes()) else {
        return None;
    };
    match find_order(alloc, named.netlist()) {
        Ok(order) => Some((named, order)),
        Err(_) => None,
    }
}

/// Prints how long a step took.
fn tell(rt: &HostRuntime, step: &str, start: Instant) -> anyhow::Result<()> {
    let took = start.elapsed(rt)?.as_micros();
    eprintln!(rt; "{step} {took} microseconds")?;
    Ok(())
}

/// Whether no variable is named as those that are added.
fn has_own_names(named: &Named) -> bool
    ensures { result ≡ true → HasOwnNames named.now }
{
    'variables: for number in 0..named.variables() {
        let (name, _) = named.variable(number);
        if is_reserved(name) {
            return false;
        }
    }
    true
}

/// Whether variables have at most 2,097,152 bits together.
fn has_few_bits(named: &Named) -> bool
    ensures { result ≡ true → bit_count named.now.variables ≤ 2097152 }
{
    let mut bits: u64 = 0;
    'variables: for number in 0..named.variables() {
        let (_, variable) = named.variable(number);
        bits = bits.saturating_add(range_width(variable.range));
        if bits > 2_097_152 {
            return false;
        }
    }
    true
}

/// Weaves a plan's self-test into its netlist.
fn weave_in(rt: &HostRuntime, named: &Named, valid: &Valid) -> anyhow::Result<()>
    requires { IsValidFor named.now.netlist valid.now }
{
    if !has_own_names(named) {
        return Ok(());
    }
    if !has_few_bits(named) {
        return Ok(());
    }
    let start = Instant::now(rt)?;
    match weave(rt.alloc(), named, valid) {
        Ok(_) => tell(rt, "weave", start),
        Err(_) => Ok(()),
    }
}

/// The signatures of a plan, where gates times states are at most 2^28.
fn sign(rt: &HostRuntime, named: &Named, order: &Order, valid: &Valid) -> anyhow::Result<()>
    requires order { IsOrder named.now.netlist.gates order.now }
    requires valid { IsValidFor named.now.netlist valid.now }
{
    let netlist = named.netlist();
    let degree = valid.plan().degree;
    if degree > 20 || netlist.gates().len() > 1usize << (28 - degree) {
        return Ok(());
    }
    let start = Instant::now(rt)?;
    match signatures(rt.alloc(), netlist, order, valid) {
        Ok(_) => tell(rt, "signatures", start),
        Err(_) => Ok(()),
    }
}

/// Judges a plan, and makes what it is for.
fn judge(rt: &HostRuntime, named: &Named, order: &Order, plan: Plan) -> anyhow::Result<()>
    requires { IsOrder named.now.netlist.gates order.now }
{
    let degree = plan.degree;
    let start = Instant::now(rt)?;
    match validate(rt.alloc(), named.netlist(), order, plan) {
        Ok(valid) => {
            tell(rt, "validate", start)?;
            weave_in(rt, named, &valid)?;
            sign(rt, named, order, &valid)?;
            println!(rt; "valid at degree {degree}")?;
        }
        Err(fault) => println!(rt; "{fault:?}")?,
    }
    Ok(())
}

/// Chooses a plan and judges it.
fn plan_for(
    rt: &HostRuntime,
    named: &Named,
    order: &Order,
    settings: &Settings,
) -> anyhow::Result<()>
    requires order { IsOrder named.now.netlist.gates order.now }
    requires few { length (driven named.now.netlist) ≤ 2097152 }
    requires settings { AreInRange settings.now }
{
    let start = Instant::now(rt)?;
    match choose(rt.alloc(), named.netlist(), order, settings) {
        Ok(chosen) => {
            tell(rt, "choose", start)?;
            let cells = chosen.plan.cells();
            let registers = chosen.plan.registers.len();
            let sessions = chosen.plan.sessions.len();
            print!(rt; "cells {cells}, registers {registers}, sessions {sessions}: ")?;
            judge(rt, named, order, chosen.plan)?;
        }
        Err(fault) => println!(rt; "{fault:?}")?,
    }
    Ok(())
}

/// Measures what is made for a netlist's text.
fn measure(rt: &HostRuntime, text: &str, settings: &Settings) -> anyhow::Result<()>
    requires { AreInRange settings.now }
{
    let Some((named, order)) = read(rt.alloc(), text) else {
        println!(rt; "no netlist")?;
        return Ok(());
    };
    if named.netlist().nets() > 2_097_152 {
        println!(rt; "too many nets")?;
        return Ok(());
    }
    plan_for(rt, &named, &order, settings)
}

/// The numbers that the words behind the program's name are.
fn numbers_of(rt: &(impl Env + AllocGlobal)) -> anyhow::Result<Vec<u32>> {
    let mut numbers = Vec::new(rt.alloc());
    for word in env::args(rt)?.skip(1) {
        numbers.push(word.as_str().parse::<u32>()?)?;
    }
    Ok(numbers)
}

/// The settings of this width and this length of a register, if they are in range.
fn settings_of(numbers: &[u32]) -> Option<Settings>
    ensures { IfSome result AreInRange }
{
    match numbers {
        [width, register] if 2 <= *width && *width <= 12 && 1 <= *register && *register <= 16 => {
            Some(Settings {
                width: *width,
                min_degree: 1,
                max_degree: 20,
                max_cycles: 1_099_511_627_776,
                register: *register,
            })
        }
        _ => None,
    }
}

fn main(rt: HostRuntime) -> anyhow::Result<()> {
    let Some(settings) = settings_of(&numbers_of(&rt)?) else {
        println!(rt;
            "usage: plans_bench WIDTH LENGTH < TEXT (a width is 2 to 12, a length 1 to 16)"
        )?;
        return Ok(());
    };
    let text = io::read_to_string(rt.alloc(), rt.reader())?;
    measure(&rt, text.as_str(), &settings)
}
