//! One cycle of a signature register.

ghost use Rattle.std.specs.Prelude.{◌≡◌, ◌<◌, ◌≤◌, ◌^◌};
ghost use Rattle.bb_terms.specs.Signature.{next_signature};

use bb_gf2::code_bit;

/// What a register of so many cells holds after it took in its lines, bit i for cell i.
pub fn misr_step(length: u32, mask: u32, q: u32, z: u32) -> u32
    requires few { length ≤ 16 }
    requires held { q < 2 ^ length }
    requires lines { z < 2 ^ length }
    ensures value { result ≡ next_signature length mask q z }
    ensures below { result < 2 ^ length }
{
    let feedback = u32::from(code_bit(mask, q));
    z ^ ((2 * q + feedback) & ((1u32 << length) - 1))
}
