//! The input bits that feed bits through `Buf` gates alone.
//!
//! Each input bit is labelled by itself, and a label goes on from a bit to all of its copies, by a worklist.
//! A bit that no input feeds so, as one of a ring of `Buf` gates, gets no label.

ghost use Rattle.std.specs.Prelude.{List, ◌≤◌, ◌*◌, count_by, ◌≡◌, ◌<◌, ◌^◌, ◌+◌, ◌++◌, ◌∷◌, [], ◌||◌, nat_eq, IfOk, OnOk, Some, None, ℕ, All, length, slice_set, true, if◌then◌else◌, false};
ghost use Rattle.bb_base.specs.Net.{Gate as GateValue};
ghost use Rattle.bb_drive.specs.Nets.{has_bit};
ghost use Rattle.bb_fault.specs.Work.{Work as WorkValue};
ghost use Rattle.bb_drive.specs.Clock.{copied_by, copied_net};
ghost use Rattle.bb_drive.specs.Within.{IsWithin};
ghost use Rattle.bb_drive.specs.Origins.{entry_at, is_marked, is_unlabelled, AreCopies, Ways, AreWays, AreLabels, AreSpread, labelled, newly_labelled, AreOrigins};

use bb_base::{Gate, Op};
use bb_fault::Work;
use std::alloc::{AllocError, Global};

/// The net that a `Buf` gate copies.
fn copied(gate: &Gate) -> Option<u32>
    ensures { result ≡ copied_by (Some gate.now) }
{
    match gate.op {
        Op::Buf => match gate.ins.first() {
            Some(net) => Some(net.0),
            None => None,
        },
        _ => None,
    }
}

/// Notes what a gate's output copies.
fn note_copy(backs: &mut [Option<u32>], gate: &Gate)
    requires { gate.now.out < length backs.old }
    ensures { backs.new ≡ slice_set backs.old gate.now.out (copied_by (Some gate.now)) }
{
    backs[gate.out.0 as usize] = copied(gate);
}

/// Notes what each bit copies: the first gate that drives it decides.
fn note_copies(backs: &mut [Option<u32>], gates: &[Gate])
    requires within { All (λ g. g.out < length backs.old) gates.now }
    requires empty { (b : ℕ) → entry_at backs.old b ≡ None }
    ensures long { length backs.new ≡ length backs.old }
    ensures each { (b : ℕ) → b < length backs.old → entry_at backs.new b ≡ copied_net gates.now b }
{
    let mut count = gates.len();
    'gates: while count > 0 {
        count -= 1;
        note_copy(backs, &gates[count]);
    }
}

/// The net that each bit copies through a `Buf` gate.
fn copied_nets(alloc: Global, nets: u32, gates: &[Gate]) -> Result<Vec<Option<u32>>, AllocError>
    requires { All (λ g. g.out < nets) gates.now }
    ensures long { IfOk result (λ backs. length backs.items ≡ nets) }
    ensures each { IfOk result (λ backs. (b : ℕ) → b < nets → entry_at backs.items b ≡ copied_net gates.now b) }
{
    let mut backs = vec![in alloc; None; nets as usize]?;
    note_copies(&mut backs, gates);
    Ok(backs)
}

/// Puts each bit in front of the older copies of what it copies.
fn link_copies(newest: &mut [Option<u32>], older: &mut [Option<u32>], backs: &[Option<u32>])
    requires few { length backs.now < 2 ^ 32 }
    requires inside { (b a : ℕ) → entry_at backs.now b ≡ Some a → a < length backs.now }
    requires long_newest { length newest.old ≡ length backs.now }
    requires long_older { length older.old ≡ length backs.now }
    requires no_newest { (b : ℕ) → entry_at newest.old b ≡ None }
    requires no_older { (b : ℕ) → entry_at older.old b ≡ None }
    ensures { AreCopies backs.now (length backs.now) newest.new older.new }
{
    'bits: for (bit, back) in backs.iter().enumerate() {
        if let Some(net) = back {
            let place = *net as usize;
            older[bit] = newest[place];
            newest[place] = Some(bit as u32);
        }
    }
}

/// Labels a bit, where it has no label yet, and lets it wait.
fn label(
    labels: &mut [Option<u32>],
    waiting: &mut Vec<u32>,
    link: Option<u32>,
    origin: u32,
) -> Result<(), AllocError>
    requires inside { (c : ℕ) → link ≡ Some c → c < length labels.old }
    requires within { All (λ b. b < length labels.old) waiting.old.items }
    ensures labels { OnOk result (labels.new ≡ labelled labels.old link origin) }
    ensures long { length labels.new ≡ length labels.old }
    ensures waiting { OnOk result (waiting.new.items ≡ waiting.old.items ++ newly_labelled labels.old link) }
    ensures within { OnOk result (All (λ b. b < length labels.old) waiting.new.items) }
    ensures fewer { OnOk result (length waiting.new.items + 2 * count_by is_unlabelled labels.new ≤ length waiting.old.items + 2 * count_by is_unlabelled labels.old) }
{
    let Some(bit) = link else {
        return Ok(());
    };
    if labels[bit as usize].is_none() {
        labels[bit as usize] = Some(origin);
        waiting.push(bit)?;
    }
    Ok(())
}

/// Lets a bit's label go on to its newest copy, and to the copy before it of the same bit.
fn pass_on(
    labels: &mut [Option<u32>],
    waiting: &mut Vec<u32>,
    bit: u32,
    newest: &[Option<u32>],
    older: &[Option<u32>],
) -> Result<(), AllocError>
    requires bit { bit < length labels.old }
    requires within { All (λ b. b < length labels.old) waiting.old.items }
    requires long_newest { length newest.now ≡ length labels.old }
    requires long_older { length older.now ≡ length labels.old }
    requires newest { (b c : ℕ) → entry_at newest.now b ≡ Some c → c < length labels.old }
    requires older { (b c : ℕ) → entry_at older.now b ≡ Some c → c < length labels.old }
    ensures long { length labels.new ≡ length labels.old }
    ensures within { OnOk result (All (λ b. b < length labels.old) waiting.new.items) }
    ensures fewer { OnOk result (length waiting.new.items + 2 * count_by is_unlabelled labels.new ≤ length waiting.old.items + 2 * count_by is_unlabelled labels.old) }
    ensures labels { OnOk result ((w : Ways) → AreWays w → w.newest ≡ newest.now → w.older ≡ older.now → AreLabels w labels.old (has_bit (waiting.old.items ++ bit ∷ [])) → AreLabels w labels.new (has_bit waiting.new.items)) }
{
    let Some(origin) = labels[bit as usize] else {
        return Ok(());
    };
    label(labels, waiting, newest[bit as usize], origin)?;
    label(labels, waiting, older[bit as usize], origin)?;
    Ok(())
}

/// Lets labels go on until no bit waits.
fn pass_all(
    labels: &mut [Option<u32>],
    waiting: &mut Vec<u32>,
    newest: &[Option<u32>],
    older: &[Option<u32>],
) -> Result<(), AllocError>
    requires within { All (λ b. b < length labels.old) waiting.old.items }
    requires long_newest { length newest.now ≡ length labels.old }
    requires long_older { length older.now ≡ length labels.old }
    requires newest { (b c : ℕ) → entry_at newest.now b ≡ Some c → c < length labels.old }
    requires older { (b c : ℕ) → entry_at older.now b ≡ Some c → c < length labels.old }
    ensures long { length labels.new ≡ length labels.old }
    ensures labels { OnOk result ((w : Ways) → AreWays w → w.newest ≡ newest.now → w.older ≡ older.now → AreLabels w labels.old (has_bit waiting.old.items) → AreLabels w labels.new (has_bit [])) }
{
    'waiting: while let Some(bit) = waiting.pop() {
        pass_on(labels, waiting, bit, newest, older)?;
    }
    Ok(())
}

/// Each marked bit as its own label.
fn first_labels(alloc: Global, roots: &[bool]) -> Result<Vec<Option<u32>>, AllocError>
    requires { length roots.now < 2 ^ 32 }
    ensures long { IfOk result (λ labels. length labels.items ≡ length roots.now) }
    ensures each { IfOk result (λ labels. (b : ℕ) → entry_at labels.items b ≡ (if is_marked roots.now b then Some b else None)) }
{
    let mut labels = Vec::new(alloc);
    'bits: for (bit, root) in roots.iter().enumerate() {
        labels.push(if *root { Some(bit as u32) } else { None })?;
    }
    Ok(labels)
}

/// The bits that are marked.
fn marked_bits(alloc: Global, marks: &[bool]) -> Result<Vec<u32>, AllocError>
    requires { length marks.now < 2 ^ 32 }
    ensures within { IfOk result (λ bits. All (λ b. b < length marks.now) bits.items) }
    ensures each { IfOk result (λ bits. (b : ℕ) → has_bit bits.items b ≡ is_marked marks.now b) }
{
    let mut bits = Vec::new(alloc);
    'bits: for (bit, mark) in marks.iter().enumerate() {
        if *mark {
            bits.push(bit as u32)?;
        }
    }
    Ok(bits)
}

/// Labels that begin at the marked bits and go on along these tables of copies.
fn spread_along(
    alloc: Global,
    roots: &[bool],
    newest: &[Option<u32>],
    older: &[Option<u32>],
) -> Result<Vec<Option<u32>>, AllocError>
    requires few { length roots.now < 2 ^ 32 }
    requires long_newest { length newest.now ≡ length roots.now }
    requires long_older { length older.now ≡ length roots.now }
    requires newest { (b c : ℕ) → entry_at newest.now b ≡ Some c → c < length roots.now }
    requires older { (b c : ℕ) → entry_at older.now b ≡ Some c → c < length roots.now }
    ensures { IfOk result (λ labels. (w : Ways) → AreWays w → w.roots ≡ roots.now → w.newest ≡ newest.now → w.older ≡ older.now → AreSpread w.gates w.backs w.roots labels.items) }
{
    let mut labels = first_labels(alloc, roots)?;
    let mut waiting = marked_bits(alloc, roots)?;
    pass_all(&mut labels, &mut waiting, newest, older)?;
    Ok(labels)
}

/// Labels that begin at the marked bits and go on to all copies.
fn spread(
    alloc: Global,
    backs: &[Option<u32>],
    roots: &[bool],
) -> Result<Vec<Option<u32>>, AllocError>
    requires few { length backs.now < 2 ^ 32 }
    requires inside { (b a : ℕ) → entry_at backs.now b ≡ Some a → a < length backs.now }
    requires long { length roots.now ≡ length backs.now }
    requires free { (b : ℕ) → is_marked roots.now b ≡ true → entry_at backs.now b ≡ None }
    ensures { IfOk result (λ labels. (gates : List (GateValue ℕ)) → ((b : ℕ) → b < length backs.now → entry_at backs.now b ≡ copied_net gates b) → AreSpread gates backs.now roots.now labels.items) }
{
    let mut newest = vec![in alloc; None; backs.len()]?;
    let mut older = vec![in alloc; None; backs.len()]?;
    link_copies(&mut newest, &mut older, backs);
    spread_along(alloc, roots, &newest, &older)
}

/// For each bit the marked bit that feeds it through `Buf` gates alone, where one does.
pub(crate) fn origins_in(
    alloc: Global,
    work: &Work,
    roots: &[bool],
) -> Result<Vec<Option<u32>>, AllocError>
    requires within { IsWithin work.now }
    requires long { length roots.now ≡ work.now.fresh }
    requires free { (b : ℕ) → is_marked roots.now b ≡ true → copied_net work.now.gates b ≡ None }
    ensures { IfOk result (λ labels. AreOrigins work.now roots.now labels.items) }
{
    let backs = copied_nets(alloc, work.fresh, &work.gates)?;
    spread(alloc, &backs, roots)
}
