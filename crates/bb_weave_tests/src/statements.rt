// What is written for small plans: pieces of the text, each of whole lines, by the tables of the written netlist.

use crate::netlists::woven;
use crate::plans::Row;
use crate::texts::{CUT, IDLE, LATE, ONE, TOGGLE, WIRE};
use bb_spell::append_text;
use bb_terms::Kind;
use std::alloc::Global;

/// Whether the netlist of a text with this plan's self-test is written with all these pieces.
fn writes(
    alloc: Global,
    text: &str,
    degree: u32,
    rows: &[&[Row]],
    compact: &[&[u32]],
    pieces: &[&str],
) -> bool {
    let Some((named, _)) = woven(alloc, text, degree, rows, compact) else {
        return false;
    };
    let mut written = Vec::new(alloc);
    if append_text(alloc, &named, &mut written).is_err() {
        return false;
    }
    let Ok(written) = str::from_utf8(&written) else {
        return false;
    };
    for piece in pieces {
        if !written.contains(*piece) {
            return false;
        }
    }
    true
}

#[test]
fn without_sessions_the_only_ring_is_the_last(rt: HostRuntime) {
    let input: &[Row] = &[(Kind::Input, 0, 0)];
    let ends = "not (bt_ns, bt_step);\n\
        assign bt_ringd0 = 1'b1;\n\
        not (bt_nd, bt_ring0);\n\
        and (bt_live, bt_go, bt_nd);\n\
        not (bt_np, bt_ph);\n\
        and (bt_run, bt_live, bt_np);\n\
        and (bt_shift, bt_live, bt_ph);\n\
        and (bt_done, bt_go, bt_ring0);\n\
        and (bt_so, bt_shift, bt_q0);\n\
        buf (bt_b0, bt_nt);\n";
    assert!(rt; writes(rt.alloc(), IDLE, 1, &[input], &[], &[ends]));
}

#[test]
fn an_input_that_no_line_reads_may_have_no_code(rt: HostRuntime) {
    let input: &[Row] = &[(Kind::Input, 0, 0)];
    let cell = "and (bt_cn0, bt_n0, bt_p0);\n\
        assign bt_g0 = 1'b0;\n\
        and (bt_cg0, bt_e0, bt_g0);\n\
        xor (bt_d0, bt_cn0, bt_cg0);\n\
        and (bt_rt0, bt_test, bt_q0);\n\
        and (bt_rn0, bt_nt, a);\n\
        or (bt_r0, bt_rt0, bt_rn0);\n\
        dff bt_f0 (bt_clk, bt_x0, bt_xd0);\n";
    assert!(rt; writes(rt.alloc(), IDLE, 1, &[input], &[], &[cell]));
}

#[test]
fn a_word_of_one_bit_has_no_lower_bits(rt: HostRuntime) {
    let output: &[Row] = &[(Kind::Output, 0, 0)];
    let word = "xor (bt_par, bt_x0);\n\
        assign bt_low = 1'b1;\n\
        xor (bt_f, bt_par, bt_low);\n\
        and (bt_xd0, bt_go, bt_f);\n\
        and (bt_wrap, bt_x0, bt_low);\n";
    assert!(rt; writes(rt.alloc(), ONE, 1, &[output], &[&[0]], &[word]));
}

#[test]
fn a_netlist_without_inputs_gets_a_clock_and_compacts(rt: HostRuntime) {
    let output: &[Row] = &[(Kind::Output, 0, 0)];
    let ports = "module one (y, bt_clk, bt_test, bt_init, bt_so, bt_done);\n\
        output y;\n\
        input bt_clk;\n\
        input bt_test;\n";
    let register = "assign bt_pc0 = 1'b0;\n\
        or (bt_p0, bt_pf0, bt_pc0);\n\
        and (bt_cz0, bt_b0, y);\n\
        and (bt_cn0, bt_n0, bt_p0);\n\
        xor (bt_d0, bt_cz0, bt_cn0);\n\
        dff bt_f0 (bt_clk, bt_x0, bt_xd0);\n";
    assert!(rt; writes(rt.alloc(), ONE, 1, &[output], &[&[0]], &[ports, register]));
}

#[test]
fn a_register_in_two_sessions_is_on_in_both(rt: HostRuntime) {
    let input: &[Row] = &[(Kind::Input, 0, 1)];
    let output: &[Row] = &[(Kind::Output, 1, 0)];
    let rings = "and (bt_rk1, bt_ring1, bt_ns);\n\
        and (bt_ra1, bt_ring0, bt_step);\n\
        or (bt_ro1, bt_rk1, bt_ra1);\n\
        and (bt_ringd1, bt_go, bt_ro1);\n\
        and (bt_ra2, bt_ring1, bt_step);\n\
        or (bt_ro2, bt_ring2, bt_ra2);\n\
        and (bt_ringd2, bt_go, bt_ro2);\n\
        not (bt_nd, bt_ring2);\n";
    let on = "or (bt_on1, bt_ring0, bt_ring1);\n";
    assert!(rt;
        writes(
            rt.alloc(),
            WIRE,
            1,
            &[input, output],
            &[&[1], &[1]],
            &[rings, on]
        )
    );
}

#[test]
fn a_flip_flop_that_reads_itself_generates_and_is_watched(rt: HostRuntime) {
    let split: &[Row] = &[(Kind::Split, 0, 1)];
    let watch: &[Row] = &[(Kind::Watch, 0, 0)];
    let cells = "and (bt_cz0, bt_b0, d);\n\
        and (bt_cn0, bt_n0, bt_p0);\n\
        xor (bt_g0, bt_f);\n\
        and (bt_cg0, bt_e0, bt_g0);\n\
        xor (bt_d0, bt_cz0, bt_cn0, bt_cg0);\n\
        and (bt_cz1, bt_b1, d);\n\
        and (bt_cn1, bt_n1, bt_p1);\n\
        xor (bt_d1, bt_cz1, bt_cn1);\n\
        dff bt_f0 (clk, bt_x0, bt_xd0);\n";
    let flops = "dff bt_f3 (clk, bt_ring1, bt_ringd1);\n\
        dff bt_f4 (clk, q, bt_d0);\n\
        dff bt_f5 (clk, bt_q1, bt_d1);\n\
        endmodule\n";
    assert!(rt;
        writes(
            rt.alloc(),
            TOGGLE,
            1,
            &[split, watch],
            &[&[1]],
            &[cells, flops]
        )
    );
}

#[test]
fn a_netlist_keeps_its_clock_and_its_made_wires(rt: HostRuntime) {
    let input: &[Row] = &[(Kind::Input, 0, 1)];
    let state: &[Row] = &[(Kind::State, 1, 1)];
    let ports = "module late (clk, a, y, bt_test, bt_init, bt_so, bt_done);\n\
        input clk;\n\
        input a;\n\
        output y;\n\
        input bt_test;\n\
        input bt_init;\n\
        output bt_so;\n\
        output bt_done;\n\
        wire bt_w0;\n\
        wire bt_ni;\n";
    let gates = "not (bt_w0, bt_r0);\n\
        not (bt_ni, bt_init);\n";
    let cell = "and (bt_cz1, bt_b1, bt_w0);\n\
        and (bt_cn1, bt_n1, bt_p1);\n\
        xor (bt_g1, bt_f);\n\
        and (bt_cg1, bt_e1, bt_g1);\n\
        xor (bt_d1, bt_cz1, bt_cn1, bt_cg1);\n\
        dff bt_f0 (clk, bt_x0, bt_xd0);\n";
    assert!(rt;
        writes(
            rt.alloc(),
            LATE,
            1,
            &[input, state],
            &[&[1]],
            &[ports, gates, cell]
        )
    );
}

#[test]
fn a_cut_net_is_read_behind_its_cell(rt: HostRuntime) {
    let sources: &[Row] = &[(Kind::Input, 0, 1), (Kind::Input, 1, 2)];
    let cut: &[Row] = &[(Kind::Cut, 3, 1)];
    let output: &[Row] = &[(Kind::Output, 2, 0)];
    let gates = "and (t, bt_r0, bt_r1);\n\
        nor (y, bt_r2, bt_r1);\n";
    let cell = "and (bt_cz2, bt_b1, t);\n\
        and (bt_cn2, bt_n1, bt_p1);\n\
        xor (bt_g2, bt_f);\n\
        and (bt_cg2, bt_e1, bt_g2);\n\
        xor (bt_d2, bt_cz2, bt_cn2, bt_cg2);\n\
        and (bt_rt2, bt_test, bt_q2);\n\
        and (bt_rn2, bt_nt, t);\n\
        or (bt_r2, bt_rt2, bt_rn2);\n\
        and (bt_cz3, bt_b2, y);\n";
    assert!(rt;
        writes(
            rt.alloc(),
            CUT,
            2,
            &[sources, cut, output],
            &[&[1], &[2]],
            &[gates, cell]
        )
    );
}
