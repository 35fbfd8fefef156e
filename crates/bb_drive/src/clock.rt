//! The clock, and its faults.
//!
//! Once each clock pin is known to have an input bit as its origin, labels are origins, and one comparison tells the clock's nets from data.

ghost use Rattle.std.specs.Prelude.{◌≡◌, ◌≢◌, ◌<◌, ◌&&◌, not, IfOk, IfErr, IfSome, OnOk, Some, None, ℕ, All, length, find, slice_get};
ghost use Rattle.bb_base.specs.Variables.{bit_count};
ghost use Rattle.bb_fault.specs.declared.fault.ElabFault.TheVariants.{NoMemory};
ghost use Rattle.bb_drive.specs.Nets.{nets, driver_fault};
ghost use Rattle.bb_drive.specs.Clock.{clock_of, clock_not_input, two_clocks, clock_as_data, clock_fault, is_data};
ghost use Rattle.bb_drive.specs.Within.{IsWithin};
ghost use Rattle.bb_fault.specs.Work.{Work as WorkValue};
ghost use Rattle.bb_drive.specs.Origins.{entry_at, is_marked, is_unlabelled, is_data_label, first_label, other_label, ArePinsFed, AreFed};

use crate::marks::{data_marks, input_marks, pin_marks};
use crate::nets::bit_text;
use crate::origins::origins_in;
use bb_base::{Name, Variable};
use bb_fault::{Clocked, ElabFault, Work};
use indexmap::IndexMap;
use std::alloc::{AllocError, Global};

/// The clock's bit, and for each bit whether it is data: neither the clock nor fed from it through `Buf` gates alone.
#[derive(Drop)]
pub struct Clock {
    pub bit: Option<u32>,
    pub data: Vec<bool>,
}

/// The first net of a clock pin that has no label.
fn unfed_pin(bits: &[u32], pins: &[bool], labels: &[Option<u32>]) -> Option<u32>
    requires pins { All (λ b. b < length pins.now) bits.now }
    requires labels { All (λ b. b < length labels.now) bits.now }
    ensures first { result ≡ find (λ b. is_marked pins.now b && is_unlabelled (entry_at labels.now b)) bits.now }
    ensures inside { IfSome result (λ b. b < length labels.now) }
{
    'bits: for bit in bits {
        let place = *bit as usize;
        if pins[place] && labels[place].is_none() {
            return Some(*bit);
        }
    }
    None
}

/// Answers the fault of the first clock pin's net that no input feeds, where there is one.
fn check_pins(
    alloc: Global,
    vars: &IndexMap<Name, Variable>,
    work: &Work,
    bits: &[u32],
    labels: &[Option<u32>],
) -> Result<(), ElabFault>
    requires nets { bits.now ≡ nets vars.now.entries work.now }
    requires within { IsWithin work.now }
    requires total { bit_count vars.now.entries ≡ work.now.fresh }
    requires fed { AreFed vars.now.entries work.now labels.now }
    ensures fine { OnOk result (clock_not_input vars.now.entries work.now ≡ None) }
    ensures fault { IfErr result (λ fault. fault ≢ NoMemory → clock_not_input vars.now.entries work.now ≡ Some fault) }
{
    let pins = pin_marks(alloc, work)?;
    let Some(bit) = unfed_pin(bits, &pins, labels) else {
        return Ok(());
    };
    let (name, select) = bit_text(alloc, vars, bit)?;
    Err(ElabFault::ClockNotInput { name, select })
}

/// The label of the first flip-flop's clock pin.
fn first_label(labels: &[Option<u32>], flops: &[Clocked]) -> Option<u32>
    requires { All (λ f. f.clock < length labels.now) flops.now }
    ensures { result ≡ first_label labels.now flops.now }
{
    match flops.first() {
        Some(flop) => labels[flop.clock.0 as usize],
        None => None,
    }
}

/// The first label of a clock pin that is another one than the clock.
fn other_label(clock: u32, labels: &[Option<u32>], flops: &[Clocked]) -> Option<u32>
    requires { All (λ f. f.clock < length labels.now) flops.now }
    ensures { result ≡ other_label clock labels.now flops.now }
{
    'flops: for flop in flops {
        if let Some(origin) = labels[flop.clock.0 as usize] {
            if origin != clock {
                return Some(origin);
            }
        }
    }
    None
}

/// Answers the fault of the first flip-flop on another clock than the first one, where there is one.
fn check_clocks(
    alloc: Global,
    vars: &IndexMap<Name, Variable>,
    work: &Work,
    labels: &[Option<u32>],
    clock: Option<u32>,
) -> Result<(), ElabFault>
    requires within { IsWithin work.now }
    requires total { bit_count vars.now.entries ≡ work.now.fresh }
    requires fed { AreFed vars.now.entries work.now labels.now }
    requires pins { ArePinsFed work.now labels.now }
    requires clock { clock ≡ clock_of work.now }
    ensures fine { OnOk result (two_clocks vars.now.entries work.now ≡ None) }
    ensures fault { IfErr result (λ fault. fault ≢ NoMemory → two_clocks vars.now.entries work.now ≡ Some fault) }
{
    let Some(clock) = clock else {
        return Ok(());
    };
    let Some(other) = other_label(clock, labels, &work.flops) else {
        return Ok(());
    };
    let first = bit_text(alloc, vars, clock)?;
    let second = bit_text(alloc, vars, other)?;
    Err(ElabFault::TwoClocks { first, second })
}

/// Whether a bit of this label is data.
fn is_data_label(clock: Option<u32>, label: Option<u32>) -> bool
    ensures { result ≡ is_data_label clock label }
{
    match (clock, label) {
        (Some(clock), Some(label)) => label != clock,
        _ => true,
    }
}

/// For each bit whether its label says that it is data.
fn data_bits(
    alloc: Global,
    labels: &[Option<u32>],
    clock: Option<u32>,
) -> Result<Vec<bool>, AllocError>
    ensures long { IfOk result (λ bits. length bits.items ≡ length labels.now) }
    ensures each { IfOk result (λ bits. (b : ℕ) → b < length labels.now → is_marked bits.items b ≡ is_data_label clock (entry_at labels.now b)) }
{
    let mut bits = Vec::new(alloc);
    'labels: for label in labels {
        bits.push(is_data_label(clock, *label))?;
    }
    Ok(bits)
}

/// The first net that is no data and is read as such.
fn misread(bits: &[u32], data_bits: &[bool], reads: &[bool]) -> Option<u32>
    requires kinds { All (λ b. b < length data_bits.now) bits.now }
    requires reads { All (λ b. b < length reads.now) bits.now }
    ensures inside { IfSome result (λ b. b < length data_bits.now) }
    ensures first { result ≡ find (λ b. not (is_marked data_bits.now b) && is_marked reads.now b) bits.now }
{
    'bits: for bit in bits {
        let place = *bit as usize;
        if !data_bits[place] && reads[place] {
            return Some(*bit);
        }
    }
    None
}

/// Answers the fault of the first net of the clock that is read as data, where there is one.
fn check_reads(
    alloc: Global,
    vars: &IndexMap<Name, Variable>,
    work: &Work,
    bits: &[u32],
    data_bits: &[bool],
) -> Result<(), ElabFault>
    requires nets { bits.now ≡ nets vars.now.entries work.now }
    requires within { IsWithin work.now }
    requires total { bit_count vars.now.entries ≡ work.now.fresh }
    requires long { length data_bits.now ≡ work.now.fresh }
    requires kinds { (b : ℕ) → b < work.now.fresh → is_marked data_bits.now b ≡ is_data work.now b }
    ensures fine { OnOk result (clock_as_data vars.now.entries work.now ≡ None) }
    ensures fault { IfErr result (λ fault. fault ≢ NoMemory → clock_as_data vars.now.entries work.now ≡ Some fault) }
{
    let reads = data_marks(alloc, vars, work)?;
    let Some(bit) = misread(bits, data_bits, &reads) else {
        return Ok(());
    };
    let (name, select) = bit_text(alloc, vars, bit)?;
    Err(ElabFault::ClockAsData { name, select })
}

/// The clock, or the first fault of clocks, from the labels of bits.
fn clock_by(
    alloc: Global,
    vars: &IndexMap<Name, Variable>,
    work: &Work,
    bits: &[u32],
    labels: &[Option<u32>],
) -> Result<Clock, ElabFault>
    requires nets { bits.now ≡ nets vars.now.entries work.now }
    requires within { IsWithin work.now }
    requires total { bit_count vars.now.entries ≡ work.now.fresh }
    requires fed { AreFed vars.now.entries work.now labels.now }
    ensures clock { IfOk result (λ clock. clock.bit ≡ clock_of work.now) }
    ensures data { IfOk result (λ clock. (b : ℕ) → b < work.now.fresh → slice_get clock.data.items b ≡ Some (is_data work.now b)) }
    ensures fine { OnOk result (clock_fault vars.now.entries work.now ≡ None) }
    ensures fault { IfErr result (λ fault. fault ≢ NoMemory → clock_fault vars.now.entries work.now ≡ Some fault) }
{
    check_pins(alloc, vars, work, bits, labels)?;
    let bit = first_label(labels, &work.flops);
    check_clocks(alloc, vars, work, labels, bit)?;
    let data = data_bits(alloc, labels, bit)?;
    check_reads(alloc, vars, work, bits, &data)?;
    Ok(Clock { bit, data })
}

/// The clock of the flip-flops, or the first fault of clocks.
///
/// The variables have as many bits as the work has numbers, so that each of its bits has a name.
pub fn clock_in(
    alloc: Global,
    vars: &IndexMap<Name, Variable>,
    work: &Work,
    bits: &[u32],
) -> Result<Clock, ElabFault>
    requires nets { bits.now ≡ nets vars.now.entries work.now }
    requires driven { driver_fault vars.now.entries work.now ≡ None }
    requires within { IsWithin work.now }
    requires total { bit_count vars.now.entries ≡ work.now.fresh }
    ensures clock { IfOk result (λ clock. clock.bit ≡ clock_of work.now) }
    ensures data { IfOk result (λ clock. (b : ℕ) → b < work.now.fresh → slice_get clock.data.items b ≡ Some (is_data work.now b)) }
    ensures fine { OnOk result (clock_fault vars.now.entries work.now ≡ None) }
    ensures fault { IfErr result (λ fault. fault ≢ NoMemory → clock_fault vars.now.entries work.now ≡ Some fault) }
{
    let roots = input_marks(alloc, vars, work.fresh)?;
    let labels = origins_in(alloc, work, &roots)?;
    clock_by(alloc, vars, work, bits, &labels)
}
