//! An output that is an input, and its four files.

/// The netlist.
pub const TEXT: &str = "module w (a, y); input a; output y; assign y = a; endmodule";

/// It with its self-test.
pub const NETLIST: &str =
    "module w (a, y, bt_clk, bt_test, bt_init, bt_so, bt_done);\ninput a;\noutput y;\ninput bt_clk;\n\
    input bt_test;\ninput bt_init;\noutput bt_so;\noutput bt_done;\nwire bt_ni;\nwire bt_nt;\n\
    wire bt_go;\nwire bt_ngo;\nwire bt_par;\nwire bt_low;\nwire bt_f;\nwire bt_xd0;\nwire bt_wrap;\n\
    wire bt_pd;\nwire bt_phd;\nwire bt_step;\nwire bt_ns;\nwire bt_rk0;\nwire bt_ringd0;\n\
    wire bt_ra1;\nwire bt_ro1;\nwire bt_ringd1;\nwire bt_nd;\nwire bt_live;\nwire bt_np;\n\
    wire bt_run;\nwire bt_shift;\nwire bt_b0;\nwire bt_n0;\nwire bt_e0;\nwire bt_p0;\nwire bt_on1;\n\
    wire bt_comp1;\nwire bt_b1;\nwire bt_n1;\nwire bt_off1;\nwire bt_e1;\nwire bt_fb1;\n\
    wire bt_pf1;\nwire bt_pc1;\nwire bt_p1;\nwire bt_cn0;\nwire bt_g0;\nwire bt_cg0;\nwire bt_d0;\n\
    wire bt_rt0;\nwire bt_rn0;\nwire bt_r0;\nwire bt_cz1;\nwire bt_cn1;\nwire bt_d1;\nwire bt_x0;\n\
    wire bt_ph;\nwire bt_ring0;\nwire bt_ring1;\nwire bt_q0;\nwire bt_q1;\nbuf (y, bt_r0);\n\
    not (bt_ni, bt_init);\nnot (bt_nt, bt_test);\nand (bt_go, bt_test, bt_ni);\n\
    not (bt_ngo, bt_go);\nxor (bt_par, bt_x0);\nassign bt_low = 1'b1;\nxor (bt_f, bt_par, bt_low);\n\
    and (bt_xd0, bt_go, bt_f);\nand (bt_wrap, bt_x0, bt_low);\nxor (bt_pd, bt_ph, bt_wrap);\n\
    and (bt_phd, bt_go, bt_pd);\nand (bt_step, bt_ph, bt_wrap);\nnot (bt_ns, bt_step);\n\
    and (bt_rk0, bt_ring0, bt_ns);\nor (bt_ringd0, bt_ngo, bt_rk0);\n\
    and (bt_ra1, bt_ring0, bt_step);\nor (bt_ro1, bt_ring1, bt_ra1);\n\
    and (bt_ringd1, bt_go, bt_ro1);\nnot (bt_nd, bt_ring1);\nand (bt_live, bt_go, bt_nd);\n\
    not (bt_np, bt_ph);\nand (bt_run, bt_live, bt_np);\nand (bt_shift, bt_live, bt_ph);\n\
    and (bt_done, bt_go, bt_ring1);\nand (bt_so, bt_shift, bt_q1);\nbuf (bt_b0, bt_nt);\n\
    buf (bt_n0, bt_shift);\nbuf (bt_e0, bt_run);\nassign bt_p0 = 1'b0;\nor (bt_on1, bt_ring0);\n\
    and (bt_comp1, bt_run, bt_on1);\nor (bt_b1, bt_nt, bt_comp1);\nor (bt_n1, bt_comp1, bt_shift);\n\
    not (bt_off1, bt_on1);\nand (bt_e1, bt_run, bt_off1);\nxor (bt_fb1, bt_q1);\n\
    and (bt_pf1, bt_comp1, bt_fb1);\nand (bt_pc1, bt_shift, bt_q0);\nor (bt_p1, bt_pf1, bt_pc1);\n\
    and (bt_cn0, bt_n0, bt_p0);\nxor (bt_g0, bt_f);\nand (bt_cg0, bt_e0, bt_g0);\n\
    xor (bt_d0, bt_cn0, bt_cg0);\nand (bt_rt0, bt_test, bt_q0);\nand (bt_rn0, bt_nt, a);\n\
    or (bt_r0, bt_rt0, bt_rn0);\nand (bt_cz1, bt_b1, y);\nand (bt_cn1, bt_n1, bt_p1);\n\
    xor (bt_d1, bt_cz1, bt_cn1);\ndff bt_f0 (bt_clk, bt_x0, bt_xd0);\n\
    dff bt_f1 (bt_clk, bt_ph, bt_phd);\ndff bt_f2 (bt_clk, bt_ring0, bt_ringd0);\n\
    dff bt_f3 (bt_clk, bt_ring1, bt_ringd1);\ndff bt_f4 (bt_clk, bt_q0, bt_d0);\n\
    dff bt_f5 (bt_clk, bt_q1, bt_d1);\nendmodule\n";

/// Its schedule.
pub const SCHEDULE: &str =
    "bilbo-schedule 1\nwidth 8\ndegree 1\nmask 00000001\nregister 00000001\ncell input 0 00000001\n\
    register 00000001\ncell output 1 00000000\nsession 1\ncycles 5\nend\n";

/// Its signatures.
pub const SIGNATURES: &str = "bilbo-signatures 1\nsession 0\nregister 1 00000001\nend\n";

/// Its certificate.
pub const CERTIFICATE: &str = "bilbo-certificate 1\nperiod 2\nsegment 1 0 00000001\nend\n";

/// Its four files.
pub const FILES: [&str; 4] = [NETLIST, SCHEDULE, SIGNATURES, CERTIFICATE];
