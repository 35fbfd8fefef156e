// Worked values: the registers of degrees 2 and 3 and a signature by hand, and the least masks of full
// period from a search by another program.

ghost use Rattle.std.specs.Prelude.{◌≡◌, [], ◌∷◌, true, false};
ghost use Rattle.bb_terms.specs.Register.{IsDegree, IsMask};
ghost use Rattle.bb_terms.specs.Signature.{signature};

use bb_gf2::{Short, next, taps, walk};
use std::process::Abort;

fn assert_states(rt: &impl Abort, degree: u32, mask: u32, states: &[u32])
    requires degree { IsDegree degree }
    requires mask { IsMask degree mask }
{
    let mut x = 0;
    for state in states {
        assert_eq!(rt; x, *state);
        x = next(degree, mask, x);
    }
    assert_eq!(rt; x, 0);
}

#[test]
fn a_full_walk_meets_each_state_once(rt: HostRuntime) {
    assert_states(&rt, 1, 1, &[0, 1]);
    assert_states(&rt, 2, 3, &[0, 1, 3, 2]);
    assert_states(&rt, 3, 5, &[0, 1, 3, 7, 6, 5, 2, 4]);
}

#[test]
fn a_walk_is_full_or_short_by_its_steps(rt: HostRuntime) {
    assert_eq!(rt; walk(2, 2).map(|full| full.mask()), Err(Short { steps: 3 }));
    assert_eq!(rt; walk(2, 3).map(|full| full.mask()), Ok(3));
    assert_eq!(rt; walk(2, 3).map(|full| full.degree()), Ok(2));
    assert_eq!(rt; walk(3, 7).map(|full| full.mask()), Err(Short { steps: 5 }));
    assert_eq!(rt;
        walk(4, 15).map(|full| full.mask()),
        Err(Short { steps: 6 })
    );
}

#[test]
fn each_degree_to_24_has_its_least_mask(rt: HostRuntime) {
    let least = [
        1, 3, 5, 9, 18, 33, 65, 142, 264, 516, 1026, 2089, 4109, 8213, 16385, 32790, 65540, 131091,
        262163, 524292, 1048578, 2097153, 4194320, 8388621,
    ];
    for (place, mask) in least.iter().enumerate() {
        assert_eq!(rt;
            taps(place as u32 + 1),
            Ok(*mask),
            "at degree {}",
            place + 1
        );
    }
}

// A register of two cells with mask 3 takes in the sum and the carry of a half adder, at the inputs
// 00, 10, 11 and 01. The check computes its signature by the definition.
fn half_adder_signature()
    ensures { signature 2 3
        ((false ∷ false ∷ []) ∷ (true ∷ false ∷ []) ∷ (false ∷ true ∷ []) ∷ (true ∷ false ∷ []) ∷ [])
        ≡ false ∷ true ∷ [] }
{}

#[test]
fn the_signature_of_a_half_adder_is_2() {
    half_adder_signature();
}
