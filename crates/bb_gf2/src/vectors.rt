// The duals of rows, one row at a time. The duals of the rows so far say which of those rows make up
// a new row, if any do; what is left of it without them has a lowest one, and from that one come the
// new row's dual and the corrections of the duals before it. No elimination is stored.

ghost use Rattle.std.specs.Prelude.{◌≡◌, ◌<◌, ◌≤◌, ◌+◌, ◌++◌, ◌∷◌, [], ℕ, ◌==◌, length, true, false, IfOk, OnOk, IfErr, bit_xor, slice_index, if◌then◌else◌};
ghost use Rattle.std.specs.Int.{bit_at};
ghost use Rattle.bb_base.specs.Parity.{code_bit};
ghost use Rattle.bb_base.specs.Span.{IsDependence, IsIndependent};
ghost use Rattle.bb_base.specs.Firsts.{IsLeast};
ghost use Rattle.bb_base.specs.Dual.{AreLeastDuals};

use crate::parities::{code_mask, combined};
use arrayvec::ArrayVec;

/// Rows that are not independent: the least nonempty set of them, as a mask, whose exclusive or is 0.
#[derive(Clone, Copy, Debug, PartialEq, Eq)]
pub struct Dependent {
    pub subset: u32,
}

/// For each row the least vector whose code bit is 1 at that row alone.
pub fn duals(rows: &[u32]) -> Result<ArrayVec<u32, 16>, Dependent>
    requires { length rows.now ≤ 16 }
    ensures duals { IfOk result (λ duals. AreLeastDuals rows.now duals.items) }
    ensures independent { OnOk result (IsIndependent rows.now) }
    ensures dependent { IfErr result (λ fault. IsLeast (IsDependence rows.now) fault.subset) }
{
    let mut duals = ArrayVec::new();
    for (place, row) in rows.iter().enumerate() {
        add_row(&rows[..place], *row, &mut duals)?;
    }
    Ok(duals)
}

// Adds the dual of one more row, or finds that the row is a combination of those before it.
fn add_row(rows: &[u32], row: u32, duals: &mut ArrayVec<u32, 16>) -> Result<(), Dependent>
    requires room { length rows.now < 16 }
    requires duals { AreLeastDuals rows.now duals.old.items }
    ensures ok { OnOk result (AreLeastDuals (rows.now ++ row ∷ []) duals.new.items) }
    ensures err { IfErr result (λ fault. IsLeast (IsDependence (rows.now ++ row ∷ [])) fault.subset) }
{
    let subset = code_mask(duals.as_slice(), row);
    let rest = row ^ combined(subset, rows);
    if rest == 0 {
        return Err(Dependent {
            subset: subset | 1u32 << rows.len(),
        });
    }
    let lowest = lowest_one(rest);
    let dual = lowest ^ combined(code_mask(rows, lowest), duals.as_slice());
    add_where(duals.as_mut_slice(), subset, dual);
    duals.push(dual);
    Ok(())
}

// The lowest one of a number: no vector that the number's code bit misses can lower it.
fn lowest_one(v: u32) -> u32
    requires { 0 < v }
    ensures coded { code_bit v result ≡ true }
    ensures least { (missed : ℕ) → code_bit v missed ≡ false → result ≤ bit_xor result missed }
{
    1 << v.trailing_zeros()
}

// Adds a vector to those that a mask chooses.
fn add_where(vectors: &mut [u32], mask: u32, vector: u32)
    ensures { (place : ℕ) → place < length vectors.old
        → slice_index vectors.new place
        ≡ (if bit_at mask place == 1 then bit_xor (slice_index vectors.old place) vector else slice_index vectors.old place) }
{
    let mut left = mask;
    for each in vectors.iter_mut() {
        if left % 2 == 1 {
            *each ^= vector;
        }
        left /= 2;
    }
}
