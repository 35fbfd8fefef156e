//! The sources of the chain, their numbers by their nets, and the segments by these numbers.

ghost use Rattle.std.specs.Prelude.{◌≡◌, ◌≢◌, ◌<◌, ◌≤◌, ◌^◌, ◌++◌, ℕ, length, map, filter, slice_index, AllPairs, IfOk, OnOk};
ghost use Rattle.std.specs.List.{AllByRecursion};
ghost use Rattle.bb_terms.specs.Kinds.{is_source};
ghost use Rattle.bb_code.specs.Segments.{sources_of};
ghost use Rattle.bb_choose.specs.Arranged.{source_nets};
ghost use Rattle.bb_choose.specs.Coding.{AreNumbers, AreSourcesOf, CanTakeColumns};

use arrayvec::ArrayVec;
use bb_base::NetId;
use bb_reg::Grouped;
use bb_terms::{Cell, Register};
use std::alloc::{AllocError, Global};

/// Adds the nets of the source cells among some.
fn add_sources(nets: &mut Vec<NetId>, cells: &[Cell]) -> Result<(), AllocError>
    ensures { OnOk result (nets.new.items ≡ nets.old.items ++ map (λ c. c.net) (filter (λ c. is_source c.kind) cells.now)) }
{
    'cells: for cell in cells {
        if cell.kind.is_source() {
            nets.push(cell.net)?;
        }
    }
    Ok(())
}

/// The nets of all source cells, in the order of the chain.
fn source_nets(alloc: Global, registers: &[Register]) -> Result<Vec<NetId>, AllocError>
    ensures { IfOk result (λ nets. nets.items ≡ source_nets registers.now) }
{
    let mut nets = Vec::new(alloc);
    'registers: for register in registers {
        add_sources(&mut nets, &register.cells)?;
    }
    Ok(nets)
}

/// Notes each source's number at its net.
fn note_numbers(numbers: &mut [u32], sources: &[NetId])
    requires few { length sources.now < 2 ^ 32 }
    requires apart { AllPairs (λ x y. x ≢ y) sources.now }
    requires within { AllByRecursion (λ net. net < length numbers.old) sources.now }
    ensures long { length numbers.new ≡ length numbers.old }
    ensures numbers { AreNumbers sources.now numbers.new }
{
    'sources: for (number, net) in sources.iter().enumerate() {
        numbers[net.0 as usize] = number as u32;
    }
}

/// For each net the number of the source on it, and 0 where there is none.
fn numbers_of(alloc: Global, nets: u32, sources: &[NetId]) -> Result<Vec<u32>, AllocError>
    requires few { length sources.now < 2 ^ 32 }
    requires apart { AllPairs (λ x y. x ≢ y) sources.now }
    requires within { AllByRecursion (λ net. net < nets) sources.now }
    ensures long { IfOk result (λ numbers. length numbers.items ≡ nets) }
    ensures numbers { IfOk result (λ numbers. AreNumbers sources.now numbers.items) }
{
    let mut numbers = vec![in alloc; 0u32; nets as usize]?;
    note_numbers(&mut numbers, sources);
    Ok(numbers)
}

/// The numbers of the sources on some nets.
fn numbers_on(numbers: &[u32], nets: &[NetId]) -> ArrayVec<u32, 16>
    requires few { length nets.now ≤ 16 }
    requires within { AllByRecursion (λ net. net < length numbers.now) nets.now }
    ensures { result.items ≡ map (slice_index numbers.now) nets.now }
{
    let mut on_nets = ArrayVec::new();
    'nets: for net in nets {
        on_nets.push(numbers[net.0 as usize]);
    }
    on_nets
}

/// The numbers of the sources at the leaves of each line.
fn segments_on(
    alloc: Global,
    numbers: &[u32],
    lines: &[ArrayVec<NetId, 16>],
) -> Result<Vec<ArrayVec<u32, 16>>, AllocError>
    requires { AllByRecursion (AllByRecursion (λ net. net < length numbers.now)) (map (λ l. l.items) lines.now) }
    ensures { IfOk result (λ segments. sources_of segments.items ≡ map (map (slice_index numbers.now)) (map (λ l. l.items) lines.now)) }
{
    let mut segments = Vec::new(alloc);
    'lines: for leaves in lines {
        segments.push(numbers_on(numbers, leaves))?;
    }
    Ok(segments)
}

/// The sources of some registers: their nets in the order of the chain, for each net the number of its source, and the segment of each
/// cell by these numbers.
#[derive(Drop)]
pub(crate) struct Sources {
    pub(crate) nets: Vec<NetId>,
    pub(crate) numbers: Vec<u32>,
    pub(crate) segments: Vec<ArrayVec<u32, 16>>,
}

/// The sources of registers for a netlist of so many nets.
pub(crate) fn sources_in(alloc: Global, nets: u32, grouped: &Grouped) -> Result<Sources, AllocError>
    requires { CanTakeColumns nets grouped.now }
    ensures { IfOk result (λ sources. AreSourcesOf grouped.now sources.nets.items sources.numbers.items (sources_of sources.segments.items)) }
{
    let sources = source_nets(alloc, &grouped.registers)?;
    let numbers = numbers_of(alloc, nets, &sources)?;
    let segments = segments_on(alloc, &numbers, &grouped.leaves)?;
    Ok(Sources {
        nets: sources,
        numbers,
        segments,
    })
}
