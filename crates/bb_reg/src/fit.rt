//! First fit over numbered items: each goes into the first group that has room and no item that clashes with it, else into a new one.
//!
//! The groups that an item clashes with are found by the nets that it gives and reads, and the first group that is open and not among
//! them is the one that it goes into; groups that are full are left out of the search.

ghost use Rattle.std.specs.Prelude.{◌≡◌, ◌+◌, ◌<◌, ◌^◌, ◌||◌, ◌++◌, ◌∷◌, [], ℕ, true, length, nat_eq, nat_lt, None, Some, slice_set, IfOk, OnOk, if◌then◌else◌};
ghost use Rattle.std.specs.List.{list_any};
ghost use Rattle.bb_reg.specs.Fitting.{AreNoted, IsFirstFree, IsFitted, IsHomeFor, ends_at, group_at, groups_of, holds, is_home, is_met};

use crate::ends::Ends;
use crate::index::{Index, Numbers, givers_of, readers_of};
use std::alloc::{AllocError, Global};
use std::collections::BTreeSet;

/// Adds the group of an item that is placed.
fn add_home(met: &mut BTreeSet<u32>, number: u32, homes: &[u32]) -> Result<(), AllocError>
    ensures { OnOk result ((g : ℕ) → holds met.new.keys g ≡ (holds met.old.keys g || is_home homes.now g number)) }
{
    match homes.get(number as usize) {
        Some(home) => {
            met.insert(*home)?;
            Ok(())
        }
        None => Ok(()),
    }
}

/// Adds the groups of the items that are placed among some.
fn add_homes(met: &mut BTreeSet<u32>, numbers: &[u32], homes: &[u32]) -> Result<(), AllocError>
    ensures { OnOk result ((g : ℕ) → holds met.new.keys g ≡ (holds met.old.keys g || list_any (is_home homes.now g) numbers.now)) }
{
    'numbers: for number in numbers {
        add_home(met, *number, homes)?;
    }
    Ok(())
}

/// Adds the groups of the items that hold one of some nets.
fn add_met(
    met: &mut BTreeSet<u32>,
    index: &Index,
    nets: &[u32],
    homes: &[u32],
) -> Result<(), AllocError>
    ensures { OnOk result ((g : ℕ) → holds met.new.keys g ≡ (holds met.old.keys g || is_met index.now homes.now nets.now g)) }
{
    'nets: for net in nets {
        add_homes(met, index.numbers(*net), homes)?;
    }
    Ok(())
}

/// The groups with an item that gives what this one reads, or reads what it gives.
fn met_by(
    alloc: Global,
    givers: &Index,
    readers: &Index,
    item: &Ends,
    homes: &[u32],
) -> Result<BTreeSet<u32>, AllocError>
    ensures { IfOk result (λ met. (g : ℕ) → holds met.keys g ≡ (is_met givers.now homes.now item.now.reads g || is_met readers.now homes.now item.now.gives g)) }
{
    let mut met = BTreeSet::new(alloc);
    add_met(&mut met, givers, &item.reads, homes)?;
    add_met(&mut met, readers, &item.gives, homes)?;
    Ok(met)
}

/// The first open group that isn't met.
fn first_free(open_groups: &BTreeSet<u32>, met: &BTreeSet<u32>) -> Option<u32>
    ensures none { result ≡ None → (g : ℕ) → holds open_groups.now.keys g ≡ true → holds met.now.keys g ≡ true }
    ensures some { (g : ℕ) → result ≡ Some g → IsFirstFree open_groups.now.keys met.now.keys g }
{
    'groups: for group in open_groups.iter() {
        if !met.contains(group) {
            return Some(*group);
        }
    }
    None
}

/// Puts an item into a group, or into a new one behind the others, and answers the group's number.
fn put(
    alloc: Global,
    groups: &mut Vec<Numbers>,
    number: u32,
    home: Option<u32>,
) -> Result<u32, AllocError>
    requires few { length groups.old.items < 2 ^ 32 }
    requires within { (g : ℕ) → home ≡ Some g → g < length groups.old.items }
    ensures home { (g : ℕ) → home ≡ Some g → IfOk result (λ h. h ≡ g) }
    ensures joined { (g : ℕ) → home ≡ Some g → OnOk result (groups.new.items ≡ slice_set groups.old.items g (group_at groups.old.items g ++ number ∷ [])) }
    ensures begun { home ≡ None → IfOk result (λ h. h ≡ length groups.old.items) }
    ensures added { home ≡ None → OnOk result (groups.new.items ≡ groups.old.items ++ (number ∷ []) ∷ []) }
{
    match home {
        Some(group) => {
            groups[group as usize].push(number)?;
            Ok(group)
        }
        None => {
            let group = groups.len() as u32;
            let mut numbers = Numbers::new(alloc);
            numbers.push(number)?;
            groups.push(numbers)?;
            Ok(group)
        }
    }
}

/// Keeps a group open while it has fewer items than may be.
fn mark(
    open_groups: &mut BTreeSet<u32>,
    group: u32,
    size: usize,
    most: u32,
) -> Result<(), AllocError>
    ensures { OnOk result ((g : ℕ) → holds open_groups.new.keys g ≡ (if nat_eq g group then nat_lt size most else holds open_groups.old.keys g)) }
{
    if size < most as usize {
        open_groups.insert(group)?;
    } else {
        open_groups.remove(&group);
    }
    Ok(())
}

/// The groups so far, the group of each item that is placed, and the groups with room.
#[derive(Drop)]
struct Fitting {
    groups: Vec<Numbers>,
    homes: Vec<u32>,
    open_groups: BTreeSet<u32>,
}

/// The first group for an item that has room and no item that clashes, where there is one.
fn home_for(
    alloc: Global,
    givers: &Index,
    readers: &Index,
    items: &[Ends],
    most: u32,
    fitting: &Fitting,
    number: u32,
) -> Result<Option<u32>, AllocError>
    requires within { number < length items.now }
    requires givers { AreNoted (λ j. (ends_at items.now j).gives) (length items.now) givers.now }
    requires readers { AreNoted (λ j. (ends_at items.now j).reads) (length items.now) readers.now }
    requires fitting { IsFitted items.now most number fitting.now.groups.items fitting.now.homes.items fitting.now.open_groups.keys }
    ensures { IfOk result (λ home. IsHomeFor items.now most number fitting.now.groups.items home) }
{
    let item = &items[number as usize];
    let met = met_by(alloc, givers, readers, item, &fitting.homes)?;
    Ok(first_free(&fitting.open_groups, &met))
}

/// Places one more item.
fn place(
    alloc: Global,
    items: &[Ends],
    most: u32,
    fitting: &mut Fitting,
    number: u32,
    home: Option<u32>,
) -> Result<(), AllocError>
    requires most { 0 < most }
    requires few { number + 1 < 2 ^ 32 }
    requires home { IsHomeFor items.now most number fitting.old.groups.items home }
    requires fitting { IsFitted items.now most number fitting.old.groups.items fitting.old.homes.items fitting.old.open_groups.keys }
    ensures { OnOk result (IsFitted items.now most (number + 1) fitting.new.groups.items fitting.new.homes.items fitting.new.open_groups.keys) }
{
    let group = put(alloc, &mut fitting.groups, number, home)?;
    let size = fitting.groups[group as usize].as_slice().len();
    mark(&mut fitting.open_groups, group, size, most)?;
    fitting.homes.push(group)?;
    Ok(())
}

/// The numbers of the items in groups of at most so many, by first fit.
pub(crate) fn fit(alloc: Global, items: &[Ends], most: u32) -> Result<Vec<Numbers>, AllocError>
    requires few { length items.now < 2 ^ 32 }
    requires most { 0 < most }
    ensures { IfOk result (λ groups. groups.items ≡ groups_of items.now most (length items.now)) }
{
    let givers = givers_of(alloc, items)?;
    let readers = readers_of(alloc, items)?;
    let mut fitting = Fitting {
        groups: Vec::new(alloc),
        homes: Vec::new(alloc),
        open_groups: BTreeSet::new(alloc),
    };
    'items: for number in 0..items.len() as u32 {
        let home = home_for(alloc, &givers, &readers, items, most, &fitting, number)?;
        place(alloc, items, most, &mut fitting, number, home)?;
    }
    Ok(fitting.groups)
}
