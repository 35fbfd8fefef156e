// Words of 64 cases, by hand. The register of degree 2 goes through the states 0, 1, 3 and 2, and through them again every four lanes.

ghost use Rattle.std.specs.Prelude.{◌≡◌};

use bb_base::{Gate, NetId, Op};
use bb_eqn::{eval, lines_at, misr_step, source_words, transpose};
use smallvec::SmallVec;
use std::alloc::Global;

/// A gate with four inputs.
fn gate(alloc: Global, op: Op, out: u32, ins: [u32; 4]) -> Gate
    ensures { result ≡ record { op = op; out = out; ins = ins } }
{
    Gate {
        op,
        out: NetId(out),
        ins: SmallVec::from_buf(
            alloc,
            [NetId(ins[0]), NetId(ins[1]), NetId(ins[2]), NetId(ins[3])],
        ),
    }
}

#[test]
fn a_column_has_its_code_bits_in_64_lanes(rt: HostRuntime) {
    let mut words = [0; 2];
    assert_eq!(rt; source_words(2, 3, 0, &[1, 2], &mut words), 0);
    assert_eq!(rt; words, [0x6666_6666_6666_6666, 0xCCCC_CCCC_CCCC_CCCC]);
}

#[test]
fn a_signature_register_takes_in_its_lines(rt: HostRuntime) {
    assert_eq!(rt; misr_step(2, 3, 1, 2), 1);
}

#[test]
fn rows_become_lanes(rt: HostRuntime) {
    let mut block = [0; 16];
    block[0] = 0xFFFF;
    block[3] = 1 << 20;
    transpose(&mut block);
    let mut wanted = [1; 16];
    wanted[4] = 1 | 1 << 19;
    assert_eq!(rt; block, wanted);
    assert_eq!(rt; lines_at(&block, 15), 1);
    assert_eq!(rt; lines_at(&block, 16), 0);
    assert_eq!(rt; lines_at(&block, 20), 8);
}

#[test]
fn a_gate_reads_what_the_one_before_it_gives(rt: HostRuntime) {
    let alloc = rt.alloc();
    let gates = [
        gate(alloc, Op::And, 4, [0, 1, 2, 3]),
        gate(alloc, Op::Xor, 5, [4, 0, 1, 2]),
    ];
    let mut words = [15, 14, 12, 8, 0, 0];
    eval(&gates, &mut words);
    assert_eq!(rt; words, [15, 14, 12, 8, 8, 5]);
}
