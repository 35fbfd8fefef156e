//! The walk of the complete register, 64 states at a time, at which registers take in their lines.

ghost use Rattle.std.specs.Prelude.{◌≡◌, length};
ghost use Rattle.std.specs.List.{AllZip};
ghost use Rattle.bb_base.specs.Net.{driven, IsNetlist};
ghost use Rattle.bb_terms.specs.Valid.{IsValidPlan};
ghost use Rattle.bb_sign.specs.Evaluation.{IsEvaluation};
ghost use Rattle.bb_sign.specs.Compactors.{IsCompactor, AreHeld, AreSignedUntil, AreSigned};

use crate::bits::fill_bits;
use crate::compactors::{Compactor, compact_all};
use crate::evaluation::Evaluation;
use bb_base::Netlist;
use bb_terms::Plan;

/// From registers that hold 0 to their signatures.
pub(crate) fn walk(
    netlist: &Netlist,
    plan: &Plan,
    evaluation: &Evaluation,
    compactors: &[Compactor],
    words: &mut [u64],
    values: &mut [u64],
    held: &mut [u32],
)
    requires netlist { IsNetlist netlist.now }
    requires valid { IsValidPlan netlist.now plan.now }
    requires evaluation { IsEvaluation netlist.now plan.now evaluation.now }
    requires compactors { AllZip (IsCompactor netlist.now) plan.now.registers compactors.now }
    requires words { length words.old ≡ length evaluation.now.nets }
    requires values { length values.old ≡ length (driven netlist.now) }
    requires held { AreHeld compactors.now held.old }
    requires zero { AreSignedUntil netlist.now plan.now 0 held.old }
    ensures long { length held.new ≡ length held.old }
    ensures signed { AreSigned netlist.now plan.now held.new }
{
    let states = 1u32 << plan.degree;
    let mut state = 0;
    for block in 0..states.div_ceil(64) {
        let count = (states - 64 * block).min(64);
        state = fill_bits(plan.degree, plan.mask, state, evaluation, words, values);
        compact_all(netlist, compactors, values, count, held);
    }
}
