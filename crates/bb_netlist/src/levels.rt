//! Levels by a worklist: a gate gets its depth once all of its inputs have theirs.

ghost use Rattle.std.specs.Prelude.{◌≡◌, ◌+◌, ◌<◌, ℕ, List, length, All, Some, None, slice_get, slice_index, slice_index_or, [], ◌∷◌, ◌++◌, ◌^◌, IfOk, OnOk, if◌then◌else◌, ◌==◌, ◌&&◌, ◌≤◌, not, count_by, nat_lt};
ghost use Rattle.std.specs.List.{list_any};
ghost use Rattle.bb_base.specs.Net.{Gate as GateValue, times};
ghost use Rattle.bb_base.specs.Levels.{highest, depth_in, open_count, is_open, inputs_at, work, IsWork, AreGates, AreReaders, AreDepths};

use bb_base::{Gate, NetId};
use smallvec::SmallVec;
use std::alloc::{AllocError, Global};
use std::marker::Model;

/// The gates that read a net, one entry for each input that does.
#[derive(Drop)]
struct Readers {
    gates: SmallVec<u32, 4>,
}

impl Model for Readers {
    ghost use Rattle.std.specs.Prelude.{ℕ, List};

    ghost Value = { List ℕ };

    ghost view = { λ r. r.gates.items };
}

impl Readers {
    fn note(&mut self, number: u32) -> Result<(), AllocError>
        ensures { OnOk result (self.new ≡ self.old ++ number ∷ []) }
    {
        self.gates.push(number)?;
        Ok(())
    }

    fn as_slice(&self) -> &[u32]
        ensures { result.now ≡ self.now }
    {
        &self.gates
    }
}

/// Depths before any gate has one: 0 for the nets that no gate drives.
fn first_depths(alloc: Global, nets: u32, gates: &[Gate]) -> Result<Vec<Option<u32>>, AllocError>
    requires { All (λ g. g.out < nets) gates.now }
    ensures long { IfOk result (λ depths. length depths.items ≡ nets) }
    ensures each { IfOk result (λ depths. (n : ℕ) → n < nets → depth_in depths.items n ≡ (if list_any (λ g. g.out == n) gates.now then None else Some 0)) }
    ensures few { IfOk result (λ depths. count_by is_open depths.items ≤ length gates.now) }
{
    let mut depths = vec![in alloc; Some(0); nets as usize]?;
    for gate in gates {
        depths[gate.out.0 as usize] = None;
    }
    Ok(depths)
}

/// The highest depth of some nets, where each has one.
fn highest(depths: &[Option<u32>], nets: &[NetId]) -> Option<u32>
    requires { All (λ n. n < length depths.now) nets.now }
    ensures { result ≡ highest (depth_in depths.now) nets.now }
{
    let mut best = 0;
    for net in nets {
        let Some(depth) = depths[net.0 as usize] else {
            return None;
        };
        best = best.max(depth);
    }
    Some(best)
}

/// The highest depth of some nets that have one each, and 0 of none.
fn highest_of(depths: &[Option<u32>], nets: &[NetId]) -> u32
    requires within { All (λ n. n < length depths.now) nets.now }
    requires by_depth { open_count (depth_in depths.now) nets.now ≡ 0 }
    ensures { highest (depth_in depths.now) nets.now ≡ Some result }
{
    highest(depths, nets).unwrap_or(0)
}

/// How many of some nets have no depth.
fn open_count(depths: &[Option<u32>], nets: &[NetId]) -> usize
    requires { All (λ n. n < length depths.now) nets.now }
    ensures { result ≡ open_count (depth_in depths.now) nets.now }
{
    let mut count = 0usize;
    for net in nets {
        if depths[net.0 as usize].is_none() {
            count += 1;
        }
    }
    count
}

/// Notes a gate at each net that it reads.
fn note_reads(readers: &mut [Readers], number: u32, nets: &[NetId]) -> Result<(), AllocError>
    requires { All (λ n. n < length readers.old) nets.now }
    ensures long { length readers.new ≡ length readers.old }
    ensures each { OnOk result ((n h : ℕ) → n < length readers.old → times h (slice_index_or readers.new n []) ≡ times h (slice_index_or readers.old n []) + (if h == number then times n nets.now else 0)) }
{
    for net in nets {
        readers[net.0 as usize].note(number)?;
    }
    Ok(())
}

/// Notes each gate at each net that it reads.
fn note_gates(readers: &mut [Readers], gates: &[Gate]) -> Result<(), AllocError>
    requires few { length gates.now < 2 ^ 32 }
    requires within { All (λ g. All (λ n. n < length readers.old) g.ins) gates.now }
    requires empty { (n : ℕ) → slice_index_or readers.old n [] ≡ [] }
    ensures long { length readers.new ≡ length readers.old }
    ensures each { OnOk result ((n h : ℕ) → n < length readers.old → times h (slice_index_or readers.new n []) ≡ times n (inputs_at gates.now h)) }
{
    'gates: for (number, gate) in gates.iter().enumerate() {
        note_reads(readers, number as u32, &gate.ins)?;
    }
    Ok(())
}

/// The gates that read each net.
fn readers_of(alloc: Global, nets: u32, gates: &[Gate]) -> Result<Vec<Readers>, AllocError>
    requires few { length gates.now < 2 ^ 32 }
    requires within { All (λ g. All (λ n. n < nets) g.ins) gates.now }
    ensures long { IfOk result (λ readers. length readers.items ≡ nets) }
    ensures each { IfOk result (λ readers. (n h : ℕ) → n < nets → times h (slice_index_or readers.items n []) ≡ times n (inputs_at gates.now h)) }
{
    let mut readers = Vec::new(alloc);
    'nets: for _ in 0..nets {
        readers.push(Readers {
            gates: SmallVec::new(alloc),
        })?;
    }
    note_gates(&mut readers, gates)?;
    Ok(readers)
}

/// Lets gates wait for one input less, and adds to the ready ones those that then wait for none.
fn release(waits: &mut [usize], ready: &mut Vec<u32>, readers: &[u32]) -> Result<(), AllocError>
    requires within { All (λ h. h < length waits.old) readers.now }
    requires enough { (h : ℕ) → times h readers.now ≤ slice_index waits.old h }
    ensures long { length waits.new ≡ length waits.old }
    ensures lower { OnOk result ((h : ℕ) → slice_index waits.new h + times h readers.now ≡ slice_index waits.old h) }
    ensures ready { OnOk result ((h : ℕ) → times h ready.new.items ≡ times h ready.old.items + (if slice_index waits.new h == 0 && not (slice_index waits.old h == 0) then 1 else 0)) }
{
    'readers: for reader in readers {
        let place = *reader as usize;
        waits[place] -= 1;
        if waits[place] == 0 {
            ready.push(*reader)?;
        }
    }
    Ok(())
}

/// The place of a gate's output in tables of nets.
fn place_of(gate: &Gate) -> usize
    ensures { result ≡ gate.now.out }
{
    gate.out.0 as usize
}

/// Takes a gate that waits for no input: gives its output a depth, and lets its readers wait for one input less.
fn take(
    depths: &mut [Option<u32>],
    waits: &mut [usize],
    ready: &mut Vec<u32>,
    number: u32,
    gates: &[Gate],
    readers: &[Readers],
) -> Result<(), AllocError>
    requires gates { AreGates (length depths.old) gates.now }
    requires readers { AreReaders (length depths.old) gates.now readers.now }
    requires work { IsWork (length depths.old) gates.now (work depths.old waits.old (ready.old.items ++ number ∷ [])) }
    ensures long { length depths.new ≡ length depths.old }
    ensures work { OnOk result (IsWork (length depths.old) gates.now (work depths.new waits.new ready.new.items)) }
    ensures fewer { OnOk result (count_by is_open depths.new + 1 ≡ count_by is_open depths.old) }
{
    let gate = &gates[number as usize];
    let out = place_of(gate);
    let depth = highest_of(depths, &gate.ins) + 1;
    depths[out] = Some(depth);
    release(waits, ready, readers[out].as_slice())?;
    Ok(())
}

/// How many inputs of each gate have no depth.
fn first_waits(
    alloc: Global,
    depths: &[Option<u32>],
    gates: &[Gate],
) -> Result<Vec<usize>, AllocError>
    requires { All (λ g. All (λ n. n < length depths.now) g.ins) gates.now }
    ensures long { IfOk result (λ waits. length waits.items ≡ length gates.now) }
    ensures each { IfOk result (λ waits. (h : ℕ) (g : GateValue ℕ) → slice_get gates.now h ≡ Some g → slice_index waits.items h ≡ open_count (depth_in depths.now) g.ins) }
{
    let mut waits = Vec::new(alloc);
    'gates: for gate in gates {
        waits.push(open_count(depths, &gate.ins))?;
    }
    Ok(waits)
}

/// The gates that wait for no input.
fn first_ready(alloc: Global, waits: &[usize]) -> Result<Vec<u32>, AllocError>
    requires { length waits.now < 2 ^ 32 }
    ensures { IfOk result (λ ready. (h : ℕ) → times h ready.items ≡ (if nat_lt h (length waits.now) && slice_index waits.now h == 0 then 1 else 0)) }
{
    let mut ready = Vec::new(alloc);
    'gates: for (number, count) in waits.iter().enumerate() {
        if *count == 0 {
            ready.push(number as u32)?;
        }
    }
    Ok(ready)
}

/// Takes gates until none is ready.
fn take_all(
    depths: &mut [Option<u32>],
    waits: &mut [usize],
    ready: &mut Vec<u32>,
    gates: &[Gate],
    readers: &[Readers],
) -> Result<(), AllocError>
    requires gates { AreGates (length depths.old) gates.now }
    requires readers { AreReaders (length depths.old) gates.now readers.now }
    requires work { IsWork (length depths.old) gates.now (work depths.old waits.old ready.old.items) }
    ensures long { length depths.new ≡ length depths.old }
    ensures work { OnOk result (IsWork (length depths.old) gates.now (work depths.new waits.new [])) }
{
    'ready: while let Some(number) = ready.pop() {
        take(depths, waits, ready, number, gates, readers)?;
    }
    Ok(())
}

/// The depth of each net: 0 where no gate drives it, else one more than the highest of its gate's inputs, or none where one of
/// these has none.
pub(crate) fn depths_of(
    alloc: Global,
    nets: u32,
    gates: &[Gate],
) -> Result<Vec<Option<u32>>, AllocError>
    requires { AreGates nets gates.now }
    ensures long { IfOk result (λ depths. length depths.items ≡ nets) }
    ensures by_depth { IfOk result (λ depths. AreDepths nets gates.now (depth_in depths.items)) }
{
    let mut depths = first_depths(alloc, nets, gates)?;
    let mut waits = first_waits(alloc, &depths, gates)?;
    let mut ready = first_ready(alloc, &waits)?;
    let readers = readers_of(alloc, nets, gates)?;
    take_all(&mut depths, &mut waits, &mut ready, gates, &readers)?;
    Ok(depths)
}
