//! How often each bit is driven or read.

ghost use Rattle.std.specs.Prelude.{◌≡◌, ◌<◌, ◌^◌, ◌-◌, ◌&&◌, ◌||◌, IfOk, IfSome, length, map, flat_map, find, filter, fold, nat_eq, nat_lt, slice_index};
ghost use Rattle.std.specs.List.{range_with_len};
ghost use Rattle.bb_drive.specs.Nets.{bits_driven, bits_read, bits_from};
ghost use Rattle.bb_drive.specs.Tallies.{tally, tallies, is_role};

use bb_base::{Gate, Name, NetId, Role, Variable};
use bb_fault::{Clocked, Work, range_width};
use indexmap::IndexMap;
use std::alloc::{AllocError, Global};

/// Counts a bit once more.
fn note(counts: &mut [u8], bit: usize)
    ensures { counts.new ≡ tally counts.old bit }
{
    if bit < counts.len() {
        counts[bit] = counts[bit].saturating_add(1).min(2);
    }
}

/// Counts the nets that gates drive.
fn note_outs(counts: &mut [u8], gates: &[Gate])
    ensures { counts.new ≡ fold tally counts.old (map (λ g. g.out) gates.now) }
{
    for gate in gates {
        note(counts, gate.out.0 as usize);
    }
}

/// Counts nets.
fn note_nets(counts: &mut [u8], nets: &[NetId])
    ensures { counts.new ≡ fold tally counts.old nets.now }
{
    for net in nets {
        note(counts, net.0 as usize);
    }
}

/// Counts the nets that gates read.
fn note_ins(counts: &mut [u8], gates: &[Gate])
    ensures { counts.new ≡ fold tally counts.old (flat_map (λ g. g.ins) gates.now) }
{
    for gate in gates {
        note_nets(counts, gate.ins.as_slice());
    }
}

/// Counts the nets that flip-flops drive.
fn note_states(counts: &mut [u8], flops: &[Clocked])
    ensures { counts.new ≡ fold tally counts.old (map (λ f. f.q) flops.now) }
{
    for flop in flops {
        note(counts, flop.q.0 as usize);
    }
}

/// Counts the nets at d pins.
fn note_data(counts: &mut [u8], flops: &[Clocked])
    ensures { counts.new ≡ fold tally counts.old (map (λ f. f.d) flops.now) }
{
    for flop in flops {
        note(counts, flop.d.0 as usize);
    }
}

/// Counts the nets at clock pins.
fn note_clocks(counts: &mut [u8], flops: &[Clocked])
    ensures { counts.new ≡ fold tally counts.old (map (λ f. f.clock) flops.now) }
{
    for flop in flops {
        note(counts, flop.clock.0 as usize);
    }
}

/// Counts the bits from a first one on, up to an end.
fn note_range(counts: &mut [u8], first: u64, end: u64)
    ensures { counts.new ≡ fold tally counts.old (range_with_len first (end - first)) }
{
    for bit in first..end {
        note(counts, bit as usize);
    }
}

/// Whether a role is this one.
pub(crate) fn is_role(wanted: Role, role: Role) -> bool
    ensures { result ≡ is_role wanted role }
{
    match wanted {
        Role::Input => role == Role::Input,
        Role::Output => role == Role::Output,
        Role::Wire => role == Role::Wire,
    }
}

/// Counts the bits of the variables of a role.
fn note_role(counts: &mut [u8], vars: &IndexMap<Name, Variable>, wanted: Role)
    ensures { counts.new ≡ fold tally counts.old (bits_from (is_role wanted) 0 vars.now.entries) }
{
    let bits = counts.len() as u64;
    let mut first: u64 = 0;
    for index in 0..vars.len() {
        let (_, variable) = vars.get_index(index).unwrap();
        let next = first.saturating_add(range_width(variable.range));
        if is_role(wanted, variable.role) {
            note_range(counts, first, next.min(bits));
        }
        first = next;
    }
}

/// How often each bit is driven.
pub(crate) fn drivers(
    alloc: Global,
    vars: &IndexMap<Name, Variable>,
    work: &Work,
) -> Result<Vec<u8>, AllocError>
    ensures counts { IfOk result (λ counts. counts.items ≡ tallies work.now.fresh (bits_driven vars.now.entries work.now)) }
    ensures long { IfOk result (λ counts. length counts.items ≡ work.now.fresh) }
    ensures few { IfOk result (λ counts. length counts.items < 2 ^ 32) }
{
    let mut counts = vec![in alloc; 0u8; work.fresh as usize]?;
    note_role(&mut counts, vars, Role::Input);
    note_outs(&mut counts, &work.gates);
    note_states(&mut counts, &work.flops);
    Ok(counts)
}

/// How often each bit is read.
pub(crate) fn readers(
    alloc: Global,
    vars: &IndexMap<Name, Variable>,
    work: &Work,
) -> Result<Vec<u8>, AllocError>
    ensures counts { IfOk result (λ counts. counts.items ≡ tallies work.now.fresh (bits_read vars.now.entries work.now)) }
    ensures long { IfOk result (λ counts. length counts.items ≡ work.now.fresh) }
    ensures few { IfOk result (λ counts. length counts.items < 2 ^ 32) }
{
    let mut counts = vec![in alloc; 0u8; work.fresh as usize]?;
    note_role(&mut counts, vars, Role::Output);
    note_ins(&mut counts, &work.gates);
    note_data(&mut counts, &work.flops);
    note_clocks(&mut counts, &work.flops);
    Ok(counts)
}

/// The first bit that is driven twice.
pub(crate) fn first_twice(drivers: &[u8]) -> Option<u32>
    requires { length drivers.now < 2 ^ 32 }
    ensures inside { IfSome result (λ bit. bit < length drivers.now) }
    ensures first { result ≡ find (λ m. nat_lt 1 (slice_index drivers.now m)) (range_with_len 0 (length drivers.now)) }
{
    for bit in 0..drivers.len() {
        if drivers[bit] > 1 {
            return Some(bit as u32);
        }
    }
    None
}

/// The first bit that is read and not driven.
pub(crate) fn first_undriven(drivers: &[u8], readers: &[u8]) -> Option<u32>
    requires few { length drivers.now < 2 ^ 32 }
    requires same { length readers.now ≡ length drivers.now }
    ensures inside { IfSome result (λ bit. bit < length drivers.now) }
    ensures first { result ≡ find (λ m. nat_eq (slice_index drivers.now m) 0 && nat_lt 0 (slice_index readers.now m)) (range_with_len 0 (length drivers.now)) }
{
    for bit in 0..drivers.len() {
        if drivers[bit] == 0 && readers[bit] > 0 {
            return Some(bit as u32);
        }
    }
    None
}

/// The bits that are driven or read.
pub(crate) fn used_bits(
    alloc: Global,
    drivers: &[u8],
    readers: &[u8],
) -> Result<Vec<u32>, AllocError>
    requires few { length drivers.now < 2 ^ 32 }
    requires same { length readers.now ≡ length drivers.now }
    ensures { IfOk result (λ bits. bits.items ≡ filter (λ m. nat_lt 0 (slice_index drivers.now m) || nat_lt 0 (slice_index readers.now m)) (range_with_len 0 (length drivers.now))) }
{
    let mut bits = Vec::new(alloc);
    for bit in 0..drivers.len() {
        if drivers[bit] > 0 || readers[bit] > 0 {
            bits.push(bit as u32)?;
        }
    }
    Ok(bits)
}
