//! For each net the numbers of the items that hold it.

ghost use Rattle.std.specs.Prelude.{◌≡◌, ◌==◌, ◌||◌, ◌&&◌, ◌<◌, ◌^◌, ◌++◌, ◌∷◌, [], ℕ, length, nat_eq, IfOk, OnOk, if◌then◌else◌};
ghost use Rattle.std.specs.List.{list_any};
ghost use Rattle.bb_reg.specs.Fitting.{numbers_at, AreNoted, ends_at};

use crate::ends::Ends;
use std::alloc::{AllocError, Global};
use std::collections::BTreeMap;
use std::marker::Model;

/// The numbers of some items.
#[derive(Drop)]
pub(crate) struct Numbers {
    numbers: Vec<u32>,
}

impl Model for Numbers {
    ghost use Rattle.std.specs.Prelude.{ℕ, List};

    ghost Value = { List ℕ };

    ghost view = { λ n. n.numbers.items };
}

impl Numbers {
    pub(crate) fn new(alloc: Global) -> Numbers
        ensures { result ≡ [] }
    {
        Numbers {
            numbers: Vec::new(alloc),
        }
    }

    pub(crate) fn push(&mut self, number: u32) -> Result<(), AllocError>
        ensures { OnOk result (self.new ≡ self.old ++ number ∷ []) }
    {
        self.numbers.push(number)?;
        Ok(())
    }

    pub(crate) fn as_slice(&self) -> &[u32]
        ensures { result.now ≡ self.now }
    {
        &self.numbers
    }
}

/// For each net the numbers of the items that hold it, in the order in which they were noted.
#[derive(Drop)]
pub(crate) struct Index {
    by_net: BTreeMap<u32, Numbers>,
}

impl Model for Index {
    ghost use Rattle.std.specs.Prelude.{ℕ, List};

    ghost Value = { List (ℕ × List ℕ) };

    ghost view = { λ i. i.by_net.entries };
}

impl Index {
    fn new(alloc: Global) -> Index
        ensures { (net : ℕ) → numbers_at result net ≡ [] }
    {
        Index {
            by_net: BTreeMap::new(alloc),
        }
    }

    /// Notes that an item holds a net.
    fn note(&mut self, alloc: Global, net: u32, number: u32) -> Result<(), AllocError>
        ensures { OnOk result ((other : ℕ) → numbers_at self.new other ≡ (if other == net then numbers_at self.old other ++ number ∷ [] else numbers_at self.old other)) }
    {
        self.by_net
            .entry(net)?
            .or_insert(Numbers::new(alloc))
            .push(number)
    }

    /// The numbers of the items that hold a net.
    pub(crate) fn numbers(&self, net: u32) -> &[u32]
        ensures { result.now ≡ numbers_at self.now net }
    {
        match self.by_net.get(&net) {
            Some(numbers) => numbers.as_slice(),
            None => &[],
        }
    }
}

/// Notes that an item holds some nets.
fn note_all(alloc: Global, index: &mut Index, nets: &[u32], number: u32) -> Result<(), AllocError>
    ensures { OnOk result ((net j : ℕ) → list_any (nat_eq j) (numbers_at index.new net) ≡ (list_any (nat_eq j) (numbers_at index.old net) || nat_eq j number && list_any (nat_eq net) nets.now)) }
{
    'nets: for net in nets {
        index.note(alloc, *net, number)?;
    }
    Ok(())
}

/// For each net the items that give it.
pub(crate) fn givers_of(alloc: Global, items: &[Ends]) -> Result<Index, AllocError>
    requires { length items.now < 2 ^ 32 }
    ensures { IfOk result (λ index. AreNoted (λ j. (ends_at items.now j).gives) (length items.now) index) }
{
    let mut index = Index::new(alloc);
    'items: for (number, item) in items.iter().enumerate() {
        note_all(alloc, &mut index, &item.gives, number as u32)?;
    }
    Ok(index)
}

/// For each net the items that read it.
pub(crate) fn readers_of(alloc: Global, items: &[Ends]) -> Result<Index, AllocError>
    requires { length items.now < 2 ^ 32 }
    ensures { IfOk result (λ index. AreNoted (λ j. (ends_at items.now j).reads) (length items.now) index) }
{
    let mut index = Index::new(alloc);
    'items: for (number, item) in items.iter().enumerate() {
        note_all(alloc, &mut index, &item.reads, number as u32)?;
    }
    Ok(index)
}
