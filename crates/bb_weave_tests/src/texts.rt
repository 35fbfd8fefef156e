// Texts of netlists, and of a netlist with its self-test.

use std::alloc::{AllocError, Global};

/// A half adder, with the nets a, b, s and c.
pub(crate) const HALF: &str = "module half (a, b, s, c);\n\
    input a;\n\
    input b;\n\
    output s;\n\
    output c;\n\
    xor (s, a, b);\n\
    and (c, a, b);\n\
    endmodule\n";

/// What the half adder with its self-test declares, where both outputs are compacted by one register in one session.
const DECLARED: &str = "module half (a, b, s, c, bt_clk, bt_test, bt_init, bt_so, bt_done);\n\
    input a;\n\
    input b;\n\
    output s;\n\
    output c;\n\
    input bt_clk;\n\
    input bt_test;\n\
    input bt_init;\n\
    output bt_so;\n\
    output bt_done;\n\
    wire bt_ni;\n\
    wire bt_nt;\n\
    wire bt_go;\n\
    wire bt_ngo;\n\
    wire bt_par;\n\
    wire bt_low;\n\
    wire bt_f;\n\
    wire bt_xd0;\n\
    wire bt_xd1;\n\
    wire bt_wrap;\n\
    wire bt_pd;\n\
    wire bt_phd;\n\
    wire bt_step;\n\
    wire bt_ns;\n\
    wire bt_rk0;\n\
    wire bt_ringd0;\n\
    wire bt_ra1;\n\
    wire bt_ro1;\n\
    wire bt_ringd1;\n\
    wire bt_nd;\n\
    wire bt_live;\n\
    wire bt_np;\n\
    wire bt_run;\n\
    wire bt_shift;\n\
    wire bt_b0;\n\
    wire bt_n0;\n\
    wire bt_e0;\n\
    wire bt_p0;\n\
    wire bt_on1;\n\
    wire bt_comp1;\n\
    wire bt_b1;\n\
    wire bt_n1;\n\
    wire bt_off1;\n\
    wire bt_e1;\n\
    wire bt_fb1;\n\
    wire bt_pf1;\n\
    wire bt_pc1;\n\
    wire bt_p1;\n\
    wire bt_cn0;\n\
    wire bt_g0;\n\
    wire bt_cg0;\n\
    wire bt_d0;\n\
    wire bt_rt0;\n\
    wire bt_rn0;\n\
    wire bt_r0;\n\
    wire bt_cn1;\n\
    wire bt_g1;\n\
    wire bt_cg1;\n\
    wire bt_d1;\n\
    wire bt_rt1;\n\
    wire bt_rn1;\n\
    wire bt_r1;\n\
    wire bt_cz2;\n\
    wire bt_cn2;\n\
    wire bt_d2;\n\
    wire bt_cz3;\n\
    wire bt_cn3;\n\
    wire bt_d3;\n\
    wire bt_x0;\n\
    wire bt_x1;\n\
    wire bt_ph;\n\
    wire bt_ring0;\n\
    wire bt_ring1;\n\
    wire bt_q0;\n\
    wire bt_q1;\n\
    wire bt_q2;\n\
    wire bt_q3;\n";

/// Its statements behind the first gate.
const REST: &str = "and (c, bt_r0, bt_r1);\n\
    not (bt_ni, bt_init);\n\
    not (bt_nt, bt_test);\n\
    and (bt_go, bt_test, bt_ni);\n\
    not (bt_ngo, bt_go);\n\
    xor (bt_par, bt_x0, bt_x1);\n\
    nor (bt_low, bt_x0);\n\
    xor (bt_f, bt_par, bt_low);\n\
    and (bt_xd0, bt_go, bt_f);\n\
    and (bt_xd1, bt_go, bt_x0);\n\
    and (bt_wrap, bt_x1, bt_low);\n\
    xor (bt_pd, bt_ph, bt_wrap);\n\
    and (bt_phd, bt_go, bt_pd);\n\
    and (bt_step, bt_ph, bt_wrap);\n\
    not (bt_ns, bt_step);\n\
    and (bt_rk0, bt_ring0, bt_ns);\n\
    or (bt_ringd0, bt_ngo, bt_rk0);\n\
    and (bt_ra1, bt_ring0, bt_step);\n\
    or (bt_ro1, bt_ring1, bt_ra1);\n\
    and (bt_ringd1, bt_go, bt_ro1);\n\
    not (bt_nd, bt_ring1);\n\
    and (bt_live, bt_go, bt_nd);\n\
    not (bt_np, bt_ph);\n\
    and (bt_run, bt_live, bt_np);\n\
    and (bt_shift, bt_live, bt_ph);\n\
    and (bt_done, bt_go, bt_ring1);\n\
    and (bt_so, bt_shift, bt_q3);\n\
    buf (bt_b0, bt_nt);\n\
    buf (bt_n0, bt_shift);\n\
    buf (bt_e0, bt_run);\n\
    assign bt_p0 = 1'b0;\n\
    or (bt_on1, bt_ring0);\n\
    and (bt_comp1, bt_run, bt_on1);\n\
    or (bt_b1, bt_nt, bt_comp1);\n\
    or (bt_n1, bt_comp1, bt_shift);\n\
    not (bt_off1, bt_on1);\n\
    and (bt_e1, bt_run, bt_off1);\n\
    xor (bt_fb1, bt_q2, bt_q3);\n\
    and (bt_pf1, bt_comp1, bt_fb1);\n\
    and (bt_pc1, bt_shift, bt_q1);\n\
    or (bt_p1, bt_pf1, bt_pc1);\n\
    and (bt_cn0, bt_n0, bt_p0);\n\
    xor (bt_g0, bt_f);\n\
    and (bt_cg0, bt_e0, bt_g0);\n\
    xor (bt_d0, bt_cn0, bt_cg0);\n\
    and (bt_rt0, bt_test, bt_q0);\n\
    and (bt_rn0, bt_nt, a);\n\
    or (bt_r0, bt_rt0, bt_rn0);\n\
    and (bt_cn1, bt_n0, bt_q0);\n\
    xor (bt_g1, bt_x0);\n\
    and (bt_cg1, bt_e0, bt_g1);\n\
    xor (bt_d1, bt_cn1, bt_cg1);\n\
    and (bt_rt1, bt_test, bt_q1);\n\
    and (bt_rn1, bt_nt, b);\n\
    or (bt_r1, bt_rt1, bt_rn1);\n\
    and (bt_cz2, bt_b1, s);\n\
    and (bt_cn2, bt_n1, bt_p1);\n\
    xor (bt_d2, bt_cz2, bt_cn2);\n\
    and (bt_cz3, bt_b1, c);\n\
    and (bt_cn3, bt_n1, bt_q2);\n\
    xor (bt_d3, bt_cz3, bt_cn3);\n\
    dff bt_f0 (bt_clk, bt_x0, bt_xd0);\n\
    dff bt_f1 (bt_clk, bt_x1, bt_xd1);\n\
    dff bt_f2 (bt_clk, bt_ph, bt_phd);\n\
    dff bt_f3 (bt_clk, bt_ring0, bt_ringd0);\n\
    dff bt_f4 (bt_clk, bt_ring1, bt_ringd1);\n\
    dff bt_f5 (bt_clk, bt_q0, bt_d0);\n\
    dff bt_f6 (bt_clk, bt_q1, bt_d1);\n\
    dff bt_f7 (bt_clk, bt_q2, bt_d2);\n\
    dff bt_f8 (bt_clk, bt_q3, bt_d3);\n\
    endmodule\n";

/// The statement of the sum.
pub(crate) const SUM: &str = "xor (s, bt_r0, bt_r1);\n";

/// A constant 1 in the place of the sum.
pub(crate) const STUCK: &str = "assign s = 1'b1;\n";

/// A flip-flop that takes its complement, with the nets q and d.
pub(crate) const TOGGLE: &str = "module tog (clk, q);\n\
    input clk;\n\
    output q;\n\
    wire d;\n\
    not (d, q);\n\
    dff bt_f0 (clk, q, d);\n\
    endmodule\n";

/// Two flip-flops that take each other's bits, with the nets y and p.
pub(crate) const SWAP: &str = "module swap (clk, y);\n\
    input clk;\n\
    output y;\n\
    wire p;\n\
    dff bt_f0 (clk, y, p);\n\
    dff bt_f1 (clk, p, y);\n\
    endmodule\n";

/// A constant 1.
pub(crate) const ONE: &str = "module one (y);\n\
    output y;\n\
    assign y = 1'b1;\n\
    endmodule\n";

/// A wire.
pub(crate) const WIRE: &str = "module w (a, y);\n\
    input a;\n\
    output y;\n\
    buf (y, a);\n\
    endmodule\n";

/// Two inverters, with a made wire between them; the nets a, y and bt_w0.
pub(crate) const MADE: &str = "module made (a, y);\n\
    input a;\n\
    output y;\n\
    wire bt_w0;\n\
    not (bt_w0, a);\n\
    not (y, bt_w0);\n\
    endmodule\n";

/// An input that nothing reads.
pub(crate) const IDLE: &str = "module none (a);\n\
    input a;\n\
    endmodule\n";

/// A flip-flop that takes an input's complement, with a made wire between them; the nets a, y and bt_w0.
pub(crate) const LATE: &str = "module late (clk, a, y);\n\
    input clk;\n\
    input a;\n\
    output y;\n\
    wire bt_w0;\n\
    not (bt_w0, a);\n\
    dff bt_f0 (clk, y, bt_w0);\n\
    endmodule\n";

/// A net t that is to be cut, with the nets a, b, y and t.
pub(crate) const CUT: &str = "module cut (a, b, y);\n\
    input a;\n\
    input b;\n\
    output y;\n\
    wire t;\n\
    and (t, a, b);\n\
    nor (y, t, b);\n\
    endmodule\n";

/// The half adder with its self-test, with this statement for the sum.
pub(crate) fn tested_half(alloc: Global, sum: &str) -> Result<String, AllocError> {
    let mut text = String::new(alloc);
    text.push_str(DECLARED)?;
    text.push_str(sum)?;
    text.push_str(REST)?;
    Ok(text)
}
