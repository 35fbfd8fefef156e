//! A half adder, and the files that are made of it at width 2.

/// The half adder.
pub const TEXT: &str =
    "module half (a, b, s, c);\ninput a;\ninput b;\noutput s;\noutput c;\nxor (s, a, b);\n\
    and (c, a, b);\nendmodule\n";

/// The half adder with its self-test.
pub const NETLIST: &str =
    "module half (a, b, s, c, bt_clk, bt_test, bt_init, bt_so, bt_done);\ninput a;\ninput b;\noutput s;\n\
    output c;\ninput bt_clk;\ninput bt_test;\ninput bt_init;\noutput bt_so;\noutput bt_done;\n\
    wire bt_ni;\nwire bt_nt;\nwire bt_go;\nwire bt_ngo;\nwire bt_par;\nwire bt_low;\nwire bt_f;\n\
    wire bt_xd0;\nwire bt_xd1;\nwire bt_wrap;\nwire bt_pd;\nwire bt_phd;\nwire bt_step;\nwire bt_ns;\n\
    wire bt_rk0;\nwire bt_ringd0;\nwire bt_ra1;\nwire bt_ro1;\nwire bt_ringd1;\nwire bt_nd;\n\
    wire bt_live;\nwire bt_np;\nwire bt_run;\nwire bt_shift;\nwire bt_b0;\nwire bt_n0;\nwire bt_e0;\n\
    wire bt_p0;\nwire bt_on1;\nwire bt_comp1;\nwire bt_b1;\nwire bt_n1;\nwire bt_off1;\nwire bt_e1;\n\
    wire bt_fb1;\nwire bt_pf1;\nwire bt_pc1;\nwire bt_p1;\nwire bt_cn0;\nwire bt_g0;\nwire bt_cg0;\n\
    wire bt_d0;\nwire bt_rt0;\nwire bt_rn0;\nwire bt_r0;\nwire bt_cn1;\nwire bt_g1;\nwire bt_cg1;\n\
    wire bt_d1;\nwire bt_rt1;\nwire bt_rn1;\nwire bt_r1;\nwire bt_cz2;\nwire bt_cn2;\nwire bt_d2;\n\
    wire bt_cz3;\nwire bt_cn3;\nwire bt_d3;\nwire bt_x0;\nwire bt_x1;\nwire bt_ph;\nwire bt_ring0;\n\
    wire bt_ring1;\nwire bt_q0;\nwire bt_q1;\nwire bt_q2;\nwire bt_q3;\nxor (s, bt_r0, bt_r1);\n\
    and (c, bt_r0, bt_r1);\nnot (bt_ni, bt_init);\nnot (bt_nt, bt_test);\nand (bt_go, bt_test, bt_ni);\n\
    not (bt_ngo, bt_go);\nxor (bt_par, bt_x0, bt_x1);\nnor (bt_low, bt_x0);\n\
    xor (bt_f, bt_par, bt_low);\nand (bt_xd0, bt_go, bt_f);\nand (bt_xd1, bt_go, bt_x0);\n\
    and (bt_wrap, bt_x1, bt_low);\nxor (bt_pd, bt_ph, bt_wrap);\nand (bt_phd, bt_go, bt_pd);\n\
    and (bt_step, bt_ph, bt_wrap);\nnot (bt_ns, bt_step);\nand (bt_rk0, bt_ring0, bt_ns);\n\
    or (bt_ringd0, bt_ngo, bt_rk0);\nand (bt_ra1, bt_ring0, bt_step);\nor (bt_ro1, bt_ring1, bt_ra1);\n\
    and (bt_ringd1, bt_go, bt_ro1);\nnot (bt_nd, bt_ring1);\nand (bt_live, bt_go, bt_nd);\n\
    not (bt_np, bt_ph);\nand (bt_run, bt_live, bt_np);\nand (bt_shift, bt_live, bt_ph);\n\
    and (bt_done, bt_go, bt_ring1);\nand (bt_so, bt_shift, bt_q3);\nbuf (bt_b0, bt_nt);\n\
    buf (bt_n0, bt_shift);\nbuf (bt_e0, bt_run);\nassign bt_p0 = 1'b0;\nor (bt_on1, bt_ring0);\n\
    and (bt_comp1, bt_run, bt_on1);\nor (bt_b1, bt_nt, bt_comp1);\nor (bt_n1, bt_comp1, bt_shift);\n\
    not (bt_off1, bt_on1);\nand (bt_e1, bt_run, bt_off1);\nxor (bt_fb1, bt_q2, bt_q3);\n\
    and (bt_pf1, bt_comp1, bt_fb1);\nand (bt_pc1, bt_shift, bt_q1);\nor (bt_p1, bt_pf1, bt_pc1);\n\
    and (bt_cn0, bt_n0, bt_p0);\nxor (bt_g0, bt_f);\nand (bt_cg0, bt_e0, bt_g0);\n\
    xor (bt_d0, bt_cn0, bt_cg0);\nand (bt_rt0, bt_test, bt_q0);\nand (bt_rn0, bt_nt, a);\n\
    or (bt_r0, bt_rt0, bt_rn0);\nand (bt_cn1, bt_n0, bt_q0);\nxor (bt_g1, bt_x0);\n\
    and (bt_cg1, bt_e0, bt_g1);\nxor (bt_d1, bt_cn1, bt_cg1);\nand (bt_rt1, bt_test, bt_q1);\n\
    and (bt_rn1, bt_nt, b);\nor (bt_r1, bt_rt1, bt_rn1);\nand (bt_cz2, bt_b1, s);\n\
    and (bt_cn2, bt_n1, bt_p1);\nxor (bt_d2, bt_cz2, bt_cn2);\nand (bt_cz3, bt_b1, c);\n\
    and (bt_cn3, bt_n1, bt_q2);\nxor (bt_d3, bt_cz3, bt_cn3);\ndff bt_f0 (bt_clk, bt_x0, bt_xd0);\n\
    dff bt_f1 (bt_clk, bt_x1, bt_xd1);\ndff bt_f2 (bt_clk, bt_ph, bt_phd);\n\
    dff bt_f3 (bt_clk, bt_ring0, bt_ringd0);\ndff bt_f4 (bt_clk, bt_ring1, bt_ringd1);\n\
    dff bt_f5 (bt_clk, bt_q0, bt_d0);\ndff bt_f6 (bt_clk, bt_q1, bt_d1);\n\
    dff bt_f7 (bt_clk, bt_q2, bt_d2);\ndff bt_f8 (bt_clk, bt_q3, bt_d3);\nendmodule\n";

/// Its schedule.
pub const SCHEDULE: &str =
    "bilbo-schedule 1\nwidth 2\ndegree 2\nmask 00000003\nregister 00000003\ncell input 0 00000001\n\
    cell input 1 00000002\nregister 00000003\ncell output 2 00000000\ncell output 3 00000000\n\
    session 1\ncycles 9\nend\n";

/// Its signatures.
pub const SIGNATURES: &str = "bilbo-signatures 1\nsession 0\nregister 1 00000002\nend\n";

/// Its certificate.
pub const CERTIFICATE: &str =
    "bilbo-certificate 1\nperiod 4\nsegment 2 0 00000001 1 00000002\nsegment 3 0 00000001 1 00000002\n\
    end\n";

/// Its four files.
pub const FILES: [&str; 4] = [NETLIST, SCHEDULE, SIGNATURES, CERTIFICATE];

/// The five texts that a check of them reads.
pub const TEXTS: [&str; 5] = [TEXT, NETLIST, SCHEDULE, SIGNATURES, CERTIFICATE];

/// Its schedule, signatures and certificate at degree 3.
pub const AT_DEGREE_THREE: [&str; 3] = [
    "bilbo-schedule 1\nwidth 2\ndegree 3\nmask 00000005\nregister 00000003\ncell input 0 00000001\n\
        cell input 1 00000002\nregister 00000003\ncell output 2 00000000\ncell output 3 00000000\n\
        session 1\ncycles 17\nend\n",
    "bilbo-signatures 1\nsession 0\nregister 1 00000003\nend\n",
    "bilbo-certificate 1\nperiod 8\nsegment 2 0 00000001 1 00000002\n\
        segment 3 0 00000001 1 00000002\nend\n",
];

/// Those with registers of one cell.
pub const BY_ONE_CELL: [&str; 3] = [
    "bilbo-schedule 1\nwidth 2\ndegree 2\nmask 00000003\nregister 00000001\ncell input 0 00000001\n\
        register 00000001\ncell input 1 00000002\nregister 00000001\ncell output 2 00000000\n\
        register 00000001\ncell output 3 00000000\nsession 2 3\ncycles 9\nend\n",
    "bilbo-signatures 1\nsession 0\nregister 2 00000000\nregister 3 00000001\nend\n",
    "bilbo-certificate 1\nperiod 4\nsegment 2 0 00000001 1 00000002\n\
        segment 3 0 00000001 1 00000002\nend\n",
];
