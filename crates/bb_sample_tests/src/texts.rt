// The texts of the first sample and of the first with a flip-flop, worked by hand from the rule of the draws, and sizes of large ones.

use bb_sample::sample;
use bb_spell::append_text;
use std::alloc::Global;

/// One gate, drawn from the states 1103527590, 2524885223 and 662824084.
const FIRST: &str =
    "module sample (i, o);\ninput [0:15] i;\noutput [0:0] o;\nwire [0:0] g;\nor (g[0], i[0], i[4]);\nbuf (o[0], g[0]);\nendmodule\n";

/// The first sample with a flip-flop.
const SIXTEENTH: &str =
    "module sample (clk, i, o);\ninput clk;\ninput [0:15] i;\noutput [0:7] o;\nwire [0:0] q;\nwire [0:15] g;\nxnor (g[0], i[6], i[11]);\nnand (g[1], i[14], i[0]);\nnand (g[2], i[4], i[0]);\nnor (g[3], i[9], i[3]);\nnor (g[4], i[2], i[11]);\nnor (g[5], i[0], g[0]);\nand (g[6], i[4], i[3]);\nnand (g[7], i[13], i[4]);\nxnor (g[8], g[1], i[8]);\nand (g[9], i[13], g[7]);\nor (g[10], i[2], i[9]);\nxor (g[11], g[8], i[9]);\nnor (g[12], i[13], i[13]);\nxnor (g[13], i[11], i[3]);\nxnor (g[14], i[12], g[5]);\nnor (g[15], g[11], i[11]);\nbuf (o[0], g[15]);\nbuf (o[1], g[14]);\nbuf (o[2], g[13]);\nbuf (o[3], g[12]);\nbuf (o[4], g[11]);\nbuf (o[5], g[10]);\nbuf (o[6], g[9]);\nbuf (o[7], g[8]);\ndff bt_f0 (clk, q[0], g[3]);\nendmodule\n";

/// Whether the sample of a number has this text.
fn has_text(alloc: Global, number: u32, text: &str) -> bool {
    if !(1..=65_536).contains(&number) {
        return false;
    }
    let Ok(named) = sample(alloc, number) else {
        return false;
    };
    let mut written = Vec::new(alloc);
    match append_text(alloc, &named, &mut written) {
        Ok(()) => written.as_slice() == text.as_bytes(),
        Err(_) => false,
    }
}

/// How many gates and flip-flops the sample of a number has.
fn sizes(alloc: Global, number: u32) -> Option<(usize, usize)> {
    if !(1..=65_536).contains(&number) {
        return None;
    }
    let Ok(named) = sample(alloc, number) else {
        return None;
    };
    let netlist = named.netlist();
    Some((netlist.gates().len(), netlist.flops().len()))
}

#[test]
fn a_sample_has_its_text(rt: HostRuntime) {
    for (number, text) in [(1, FIRST), (16, SIXTEENTH)] {
        assert!(rt; has_text(rt.alloc(), number, text), "sample {number}");
    }
}

#[test]
fn a_sample_has_a_gate_more_for_each_output_and_a_flip_flop_for_each_sixteen(rt: HostRuntime) {
    for (number, gates, flops) in [
        (1, 2, 0),
        (7, 14, 0),
        (15, 23, 0),
        (2_000, 2_008, 125),
        (65_536, 65_544, 4_096),
    ] {
        assert_eq!(rt;
            sizes(rt.alloc(), number),
            Some((gates, flops)),
            "sample {number}"
        );
    }
}
