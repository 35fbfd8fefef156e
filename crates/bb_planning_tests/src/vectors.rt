// Worked values, computed by trying all numbers.

ghost use Rattle.std.specs.Prelude.{◌≤◌, length};

use bb_gf2::{Basis, code_bit, duals, parity};
use std::process::Abort;

fn assert_duals(rt: &impl Abort, rows: &[u32], expected: &[u32])
    requires { length rows.now ≤ 16 }
{
    match duals(rows) {
        Ok(duals) => assert_eq!(rt; duals.as_slice(), expected),
        Err(fault) => assert!(rt; false, "dependent: {}", fault.subset),
    }
}

fn assert_dependent(rt: &impl Abort, rows: &[u32], expected: u32)
    requires { length rows.now ≤ 16 }
{
    match duals(rows) {
        Ok(_) => assert!(rt; false, "independent"),
        Err(fault) => assert_eq!(rt; fault.subset, expected),
    }
}

#[test]
fn independent_rows_have_least_duals(rt: HostRuntime) {
    assert_duals(&rt, &[], &[]);
    assert_duals(&rt, &[1, 2], &[1, 2]);
    assert_duals(&rt, &[3, 5], &[2, 3]);
    assert_duals(&rt, &[7, 3], &[4, 5]);
    assert_duals(&rt, &[2, 1, 32], &[2, 1, 32]);
    assert_duals(&rt, &[9, 6, 12, 1], &[14, 2, 6, 15]);
}

#[test]
fn dependent_rows_have_a_least_subset(rt: HostRuntime) {
    assert_dependent(&rt, &[1, 2, 3], 7);
    assert_dependent(&rt, &[0], 1);
    assert_dependent(&rt, &[5, 5], 3);
    assert_dependent(&rt, &[1, 2, 1, 4], 5);
    assert_dependent(&rt, &[3, 6, 5, 8], 7);
}

#[test]
fn a_basis_reduces_to_the_least_of_a_coset(rt: HostRuntime) {
    let mut basis = Basis::new();
    for (v, outside) in [(12, true), (10, true), (6, false), (0, false)] {
        assert_eq!(rt; basis.add(v), outside);
    }
    for (v, least) in [
        (0, 0),
        (2, 2),
        (4, 2),
        (6, 0),
        (7, 1),
        (11, 1),
        (12, 0),
        (15, 3),
    ] {
        assert_eq!(rt; basis.reduce(v), least);
        assert_eq!(rt; basis.in_span(v), least == 0);
    }
}

#[test]
fn a_code_bit_is_the_parity_of_common_ones(rt: HostRuntime) {
    for (column, state, bit) in [
        (0, 7, false),
        (1, 3, true),
        (3, 3, false),
        (6, 5, true),
        (u32::MAX, 7, true),
    ] {
        assert_eq!(rt; code_bit(column, state), bit);
    }
}

#[test]
fn a_parity_is_1_where_the_number_of_ones_is_odd(rt: HostRuntime) {
    for (v, odd) in [
        (0, false),
        (1, true),
        (6, false),
        (7, true),
        (u32::MAX, false),
    ] {
        assert_eq!(rt; parity(v), odd);
    }
}
