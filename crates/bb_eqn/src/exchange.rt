//! Lanes for rows: 16 words are four blocks of 16 rows and 16 lanes side by side, and each block is transposed. A round takes one bit of the
//! row's number against the same bit of the lane's, so that four rounds take all (after Warren, Hacker's Delight, 7-3).

ghost use Rattle.std.specs.Prelude.{◌≡◌, ◌<◌, ◌+◌, ◌-◌, ◌/◌, ◌%◌, ◌==◌, ℕ, List, length, if◌then◌else◌};
ghost use Rattle.bb_base.specs.Bits.{from_bits};
ghost use Rattle.bb_eqn.specs.Lanes.{lane, in_lane};
ghost use Rattle.bb_eqn.specs.Transposed.{IsRound, IsExchanged, IsTransposed, exchanged_bit};

/// A row that keeps its even parts, and takes as its odd ones the even parts of another row.
fn lower_row(word: u64, other: u64, step: u32, mask: u64) -> u64
    requires { IsRound step mask }
    ensures { (c : ℕ) → c < 64 → lane c result ≡ (if c / step % 2 == 0 then lane c word else lane (c - step) other) }
{
    (word & mask) | ((other & mask) << step)
}

/// A row that keeps its odd parts, and takes as its even ones the odd parts of another row.
fn upper_row(word: u64, other: u64, step: u32, mask: u64) -> u64
    requires { IsRound step mask }
    ensures { (c : ℕ) → c < 64 → lane c result ≡ (if c / step % 2 == 0 then lane (c + step) other else lane c word) }
{
    (word & !mask) | ((other >> step) & mask)
}

/// A row after a round.
fn exchanged_row(block: &[u64; 16], row: u32, step: u32, mask: u64) -> u64
    requires round { IsRound step mask }
    requires row { row < 16 }
    ensures { (c : ℕ) → c < 64 → lane c result ≡ exchanged_bit step block.now row c }
{
    let word = block[row as usize];
    if row & step == 0 {
        lower_row(word, block[(row + step) as usize], step, mask)
    } else {
        upper_row(word, block[(row - step) as usize], step, mask)
    }
}

/// One round.
fn exchange(block: &mut [u64; 16], step: u32, mask: u64)
    requires { IsRound step mask }
    ensures { IsExchanged step block.old block.new }
{
    let old = *block;
    for row in 0..16u32 {
        block[row as usize] = exchanged_row(&old, row, step, mask);
    }
}

/// Transposes the four blocks of 16 rows and 16 lanes.
pub fn transpose(block: &mut [u64; 16])
    ensures { IsTransposed block.old block.new }
{
    exchange(block, 8, 0x00FF_00FF_00FF_00FF);
    exchange(block, 4, 0x0F0F_0F0F_0F0F_0F0F);
    exchange(block, 2, 0x3333_3333_3333_3333);
    exchange(block, 1, 0x5555_5555_5555_5555);
}

/// The bits that 16 words have in a lane, the first word's lowest, from the transposed words.
pub fn lines_at(block: &[u64; 16], place: u32) -> u32
    requires place { place < 64 }
    ensures { (words : List ℕ) → length words ≡ 16 → IsTransposed words block.now → result ≡ from_bits (in_lane place words) }
{
    (block[(place % 16) as usize] >> (place / 16 * 16) & 0xFFFF) as u32
}
