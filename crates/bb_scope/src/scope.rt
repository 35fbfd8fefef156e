//! The variables of a module with the places of their bits.

ghost use Rattle.std.specs.Prelude.{◌≡◌, ◌≤◌, ◌<◌, ◌+◌, ◌-◌, ◌^◌, ◌∷◌, [], Some, length, slice_get, IfOk};
ghost use Rattle.std.specs.List.{range_with_len};
ghost use Rattle.bb_base.specs.Variables.{range_width, bit_count};
ghost use Rattle.bb_scope.specs.References.{ref_span, ref_bits};
ghost use Rattle.bb_scope.specs.Numbers.{places_from};
ghost use Rattle.bb_scope.specs.Uses.{AreNext};

use crate::references::{Span, selected};
use bb_base::{Name, NetId, Variable};
use bb_fault::range_width;
use bb_parse::Ref;
use indexmap::IndexMap;
use std::alloc::{AllocError, Global};
use std::marker::Model;

/// Where a variable's bits stand: the number of the first one, and the range.
#[derive(Clone, Copy, Debug)]
pub(crate) struct Place {
    pub(crate) first: u32,
    pub(crate) range: Option<(u32, u32)>,
}

/// The variables of a module, and the place of each, and then that of a scalar behind all others.
#[derive(Drop)]
pub struct Scope {
    table: IndexMap<Name, Variable>,
    places: Vec<Place>,
}

impl Model for Scope {
    ghost use Rattle.std.specs.Prelude.{List};
    ghost use Rattle.bb_base.specs.Variables.{Entry};
    ghost use Rattle.bb_scope.specs.Numbers.{ArePlaces};

    ghost Value = { List Entry };

    ghost view = { λ s. s.table.entries };

    ghost invariant = { λ s. ArePlaces s.table.entries s.places.items };
}

/// Bits that stand together: from one number up to another.
#[derive(Clone, Copy, Debug)]
pub struct Bits {
    pub first: u32,
    pub end: u32,
}

impl Bits {
    /// The bits as nets, from left to right.
    pub fn nets(self, alloc: Global) -> Result<Vec<NetId>, AllocError>
        ensures { IfOk result (λ nets. nets.items ≡ range_with_len self.first (self.end - self.first)) }
    {
        let width = self.end.saturating_sub(self.first);
        let mut nets = Vec::with_capacity(alloc, width as usize)?;
        for net in self.first..self.end {
            nets.push(NetId(net))?;
        }
        Ok(nets)
    }
}

/// The place of each variable, and then that of a scalar behind all others.
fn places_of(alloc: Global, table: &IndexMap<Name, Variable>) -> Result<Vec<Place>, AllocError>
    requires { bit_count table.now.entries + 1 < 2 ^ 32 }
    ensures { IfOk result (λ places. places.items ≡ places_from 0 table.now.entries) }
{
    let mut places = Vec::with_capacity(alloc, table.len() + 1)?;
    let mut first: u32 = 0;
    for index in 0..table.len() {
        let (_, variable) = table.get_index(index).unwrap();
        let range = variable.range;
        places.push(Place { first, range })?;
        first += range_width(range) as u32;
    }
    places.push(Place { first, range: None })?;
    Ok(places)
}

impl Scope {
    /// The variables with the places of their bits. Their bits and one more have numbers of 32 bits: more bits are a fault that comes before.
    pub fn new(alloc: Global, table: IndexMap<Name, Variable>) -> Result<Scope, AllocError>
        requires { bit_count table.entries + 1 < 2 ^ 32 }
        ensures { IfOk result (λ scope. scope ≡ table.entries) }
    {
        let places = places_of(alloc, &table)?;
        Ok(Scope { table, places })
    }

    /// The place of the variable of this index.
    fn place(&self, index: usize) -> Place
        requires { index ≤ length self.now }
        ensures place { slice_get (places_from 0 self.now) index ≡ Some result }
        ensures few { result.first + range_width result.range < 2 ^ 32 }
    {
        self.places[index]
    }

    /// The span that a reference names, whose variable is the first of `uses`, none where its select is bad.
    pub fn span(&self, uses: &[usize], reference: &Ref) -> Option<Span>
        requires { AreNext self.now (reference.now.name ∷ []) uses.now }
        ensures { result ≡ ref_span self.now reference.now }
    {
        let place = self.place(uses[0]);
        selected(place.range, reference.select)
    }

    /// The bits that a reference names, whose variable is the first of `uses`, none where its select is bad.
    pub fn bits(&self, uses: &[usize], reference: &Ref) -> Bits
        requires { AreNext self.now (reference.now.name ∷ []) uses.now }
        ensures order { result.first ≤ result.end }
        ensures bits { range_with_len result.first (result.end - result.first) ≡ ref_bits self.now reference.now }
    {
        let place = self.place(uses[0]);
        match selected(place.range, reference.select) {
            None => Bits {
                first: place.first,
                end: place.first,
            },
            Some(span) => Bits {
                first: place.first + span.first,
                end: place.first + span.first + span.width as u32,
            },
        }
    }

    /// The variables, lent.
    pub fn table(&self) -> &IndexMap<Name, Variable>
        ensures { result.now.entries ≡ self.now }
    {
        &self.table
    }

    /// The variables alone.
    pub fn into_table(self) -> IndexMap<Name, Variable>
        ensures { result.entries ≡ self }
    {
        self.table
    }
}
