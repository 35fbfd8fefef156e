// The least mask of full period.

ghost use Rattle.std.specs.Prelude.{◌≡◌, ℕ, OnErr, IfOk, IfErr};
ghost use Rattle.bb_base.specs.Firsts.{IsLeast};
ghost use Rattle.bb_terms.specs.Register.{IsDegree, IsFullMask};

use crate::walks::walk;

/// No mask of this degree has full period.
#[derive(Clone, Copy, Debug, PartialEq, Eq)]
pub struct NoFullPeriod {
    pub degree: u32,
}

/// The least mask with which the register of a degree meets every state.
pub fn taps(degree: u32) -> Result<u32, NoFullPeriod>
    requires { IsDegree degree }
    ensures least { IfOk result (λ mask. IsLeast (IsFullMask degree) mask) }
    ensures none { OnErr result ((mask : ℕ) → IsFullMask degree mask → ⊥) }
    ensures degree { IfErr result (λ fault. fault.degree ≡ degree) }
{
    for mask in 1u32 << (degree - 1)..1u32 << degree {
        if walk(degree, mask).is_ok() {
            return Ok(mask);
        }
    }
    Err(NoFullPeriod { degree })
}
