//! The gates that read each net, by their places in the order.

ghost use Rattle.std.specs.Prelude.{◌≡◌, ◌<◌, ◌^◌, ◌⊎◌, ◌++◌, ◌∷◌, [], ℕ, length, Contains, IfOk, OnOk, Some, slice_get};
ghost use Rattle.bb_base.specs.Net.{Gate as GateValue};
ghost use Rattle.bb_base.specs.Levels.{AreGates};
ghost use Rattle.bb_base.specs.Order.{IsOrder};
ghost use Rattle.bb_segment.specs.Cutting.{table_entry, AreReadersAt};

use bb_base::{Gate, NetId};
use std::alloc::{AllocError, Global};
use std::marker::Model;

/// The places of the gates that read a net.
#[derive(Drop)]
pub(crate) struct Readers {
    places: Vec<u32>,
}

impl Model for Readers {
    ghost use Rattle.std.specs.Prelude.{ℕ, List};

    ghost Value = { List ℕ };

    ghost view = { λ r. r.places.items };
}

impl Readers {
    fn note(&mut self, place: u32) -> Result<(), AllocError>
        ensures { OnOk result (self.new ≡ self.old ++ place ∷ []) }
    {
        self.places.push(place)?;
        Ok(())
    }

    pub(crate) fn as_slice(&self) -> &[u32]
        ensures { result.now ≡ self.now }
    {
        &self.places
    }
}

/// Notes a gate's place at each net that it reads.
fn note_reads(readers: &mut [Readers], place: u32, nets: &[NetId]) -> Result<(), AllocError>
    requires { (net : ℕ) → Contains nets.now net → net < length readers.old }
    ensures long { length readers.new ≡ length readers.old }
    ensures kept { OnOk result ((net p : ℕ) → Contains (table_entry readers.old net) p → Contains (table_entry readers.new net) p) }
    ensures noted { OnOk result ((net : ℕ) → Contains nets.now net → Contains (table_entry readers.new net) place) }
    ensures only { OnOk result ((net p : ℕ) → Contains (table_entry readers.new net) p → Contains (table_entry readers.old net) p ⊎ ((p ≡ place) × Contains nets.now net)) }
{
    'nets: for net in nets {
        readers[net.0 as usize].note(place)?;
    }
    Ok(())
}

/// No readers of any net.
fn no_readers(alloc: Global, nets: u32) -> Result<Vec<Readers>, AllocError>
    ensures long { IfOk result (λ readers. length readers.items ≡ nets) }
    ensures none { IfOk result (λ readers. (net : ℕ) → table_entry readers.items net ≡ []) }
{
    let mut readers = Vec::new(alloc);
    'nets: for _ in 0..nets {
        readers.push(Readers {
            places: Vec::new(alloc),
        })?;
    }
    Ok(readers)
}

/// Notes each gate's place at each net that it reads.
fn note_places(readers: &mut [Readers], gates: &[Gate], order: &[u32]) -> Result<(), AllocError>
    requires gates { AreGates (length readers.old) gates.now }
    requires order { IsOrder gates.now order.now }
    requires none { (net : ℕ) → table_entry readers.old net ≡ [] }
    ensures long { length readers.new ≡ length readers.old }
    ensures are { OnOk result (AreReadersAt gates.now order.now (length order.now) readers.new) }
{
    'places: for (place, number) in order.iter().enumerate() {
        let gate = &gates[*number as usize];
        note_reads(readers, place as u32, &gate.ins)?;
    }
    Ok(())
}

/// The places of the gates that read each net.
pub(crate) fn readers_of(
    alloc: Global,
    nets: u32,
    gates: &[Gate],
    order: &[u32],
) -> Result<Vec<Readers>, AllocError>
    requires gates { AreGates nets gates.now }
    requires order { IsOrder gates.now order.now }
    ensures long { IfOk result (λ readers. length readers.items ≡ nets) }
    ensures are { IfOk result (λ readers. AreReadersAt gates.now order.now (length order.now) readers.items) }
{
    let mut readers = no_readers(alloc, nets)?;
    note_places(&mut readers, gates, order)?;
    Ok(readers)
}
