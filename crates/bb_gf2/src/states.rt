// The step of a complete register.

ghost use Rattle.std.specs.Prelude.{◌≡◌, ◌<◌, ◌^◌};
ghost use Rattle.bb_terms.specs.Register.{IsDegree, IsMask, next_state};

use crate::parities::code_bit;

/// The next state of the complete register with these taps.
#[inline]
pub fn next(degree: u32, mask: u32, x: u32) -> u32
    requires degree { IsDegree degree }
    requires mask { IsMask degree mask }
    requires state { x < 2 ^ degree }
    ensures state { result ≡ next_state degree mask x }
    ensures below { result < 2 ^ degree }
{
    let size = 1u32 << degree;
    let front_is_zero = x & (size / 2 - 1) == 0;
    let feedback = code_bit(mask, x) != front_is_zero;
    (2 * x + u32::from(feedback)) & (size - 1)
}
