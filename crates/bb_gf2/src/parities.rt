// Parities, code bits, and the exclusive or of chosen rows.

ghost use Rattle.std.specs.Prelude.{◌≡◌, ◌≤◌, length};
ghost use Rattle.bb_base.specs.Bits.{from_bits};
ghost use Rattle.bb_base.specs.Parity.{parity, code_bit, code_word};
ghost use Rattle.bb_base.specs.Span.{combined};

/// Whether a number has an odd number of ones.
pub fn parity(v: u32) -> bool
    ensures { result ≡ parity v }
{
    v.count_ones() % 2 == 1
}

/// The code bit that a column gives at a state: the parity of the ones that they share.
pub fn code_bit(column: u32, state: u32) -> bool
    ensures { result ≡ code_bit column state }
{
    parity(column & state)
}

/// The code bits of a state, as a mask with a bit for each column.
pub(crate) fn code_mask(columns: &[u32], state: u32) -> u32
    requires { length columns.now ≤ 16 }
    ensures { result ≡ from_bits (code_word columns.now state) }
{
    let mut mask = 0;
    for (place, column) in columns.iter().enumerate() {
        if code_bit(*column, state) {
            mask |= 1u32 << place;
        }
    }
    mask
}

/// The exclusive or of the rows that a mask chooses.
pub(crate) fn combined(mask: u32, rows: &[u32]) -> u32
    ensures { result ≡ combined mask rows.now }
{
    let mut left = mask;
    let mut sum = 0;
    for row in rows {
        if left % 2 == 1 {
            sum ^= *row;
        }
        left /= 2;
    }
    sum
}
