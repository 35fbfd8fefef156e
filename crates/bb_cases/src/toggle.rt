//! A flip-flop that reads itself, and its four files.

/// The netlist.
pub const TEXT: &str =
    "module tog (clk, q); input clk; output q; wire d; not (d, q); dff f (clk, q, d); endmodule";

/// It with its self-test.
pub const NETLIST: &str =
    "module tog (clk, q, bt_test, bt_init, bt_so, bt_done);\ninput clk;\noutput q;\ninput bt_test;\n\
    input bt_init;\noutput bt_so;\noutput bt_done;\nwire d;\nwire bt_ni;\nwire bt_nt;\nwire bt_go;\n\
    wire bt_ngo;\nwire bt_par;\nwire bt_low;\nwire bt_f;\nwire bt_xd0;\nwire bt_wrap;\nwire bt_pd;\n\
    wire bt_phd;\nwire bt_step;\nwire bt_ns;\nwire bt_rk0;\nwire bt_ringd0;\nwire bt_ra1;\n\
    wire bt_ro1;\nwire bt_ringd1;\nwire bt_nd;\nwire bt_live;\nwire bt_np;\nwire bt_run;\n\
    wire bt_shift;\nwire bt_b0;\nwire bt_n0;\nwire bt_e0;\nwire bt_p0;\nwire bt_on1;\n\
    wire bt_comp1;\nwire bt_b1;\nwire bt_n1;\nwire bt_off1;\nwire bt_e1;\nwire bt_fb1;\n\
    wire bt_pf1;\nwire bt_pc1;\nwire bt_p1;\nwire bt_cz0;\nwire bt_cn0;\nwire bt_g0;\nwire bt_cg0;\n\
    wire bt_d0;\nwire bt_cz1;\nwire bt_cn1;\nwire bt_d1;\nwire bt_x0;\nwire bt_ph;\nwire bt_ring0;\n\
    wire bt_ring1;\nwire bt_q1;\nnot (d, q);\nnot (bt_ni, bt_init);\nnot (bt_nt, bt_test);\n\
    and (bt_go, bt_test, bt_ni);\nnot (bt_ngo, bt_go);\nxor (bt_par, bt_x0);\n\
    assign bt_low = 1'b1;\nxor (bt_f, bt_par, bt_low);\nand (bt_xd0, bt_go, bt_f);\n\
    and (bt_wrap, bt_x0, bt_low);\nxor (bt_pd, bt_ph, bt_wrap);\nand (bt_phd, bt_go, bt_pd);\n\
    and (bt_step, bt_ph, bt_wrap);\nnot (bt_ns, bt_step);\nand (bt_rk0, bt_ring0, bt_ns);\n\
    or (bt_ringd0, bt_ngo, bt_rk0);\nand (bt_ra1, bt_ring0, bt_step);\n\
    or (bt_ro1, bt_ring1, bt_ra1);\nand (bt_ringd1, bt_go, bt_ro1);\nnot (bt_nd, bt_ring1);\n\
    and (bt_live, bt_go, bt_nd);\nnot (bt_np, bt_ph);\nand (bt_run, bt_live, bt_np);\n\
    and (bt_shift, bt_live, bt_ph);\nand (bt_done, bt_go, bt_ring1);\n\
    and (bt_so, bt_shift, bt_q1);\nbuf (bt_b0, bt_nt);\nbuf (bt_n0, bt_shift);\n\
    buf (bt_e0, bt_run);\nassign bt_p0 = 1'b0;\nor (bt_on1, bt_ring0);\n\
    and (bt_comp1, bt_run, bt_on1);\nor (bt_b1, bt_nt, bt_comp1);\nor (bt_n1, bt_comp1, bt_shift);\n\
    not (bt_off1, bt_on1);\nand (bt_e1, bt_run, bt_off1);\nxor (bt_fb1, bt_q1);\n\
    and (bt_pf1, bt_comp1, bt_fb1);\nand (bt_pc1, bt_shift, q);\nor (bt_p1, bt_pf1, bt_pc1);\n\
    and (bt_cz0, bt_b0, d);\nand (bt_cn0, bt_n0, bt_p0);\nxor (bt_g0, bt_f);\n\
    and (bt_cg0, bt_e0, bt_g0);\nxor (bt_d0, bt_cz0, bt_cn0, bt_cg0);\nand (bt_cz1, bt_b1, d);\n\
    and (bt_cn1, bt_n1, bt_p1);\nxor (bt_d1, bt_cz1, bt_cn1);\ndff bt_f0 (clk, bt_x0, bt_xd0);\n\
    dff bt_f1 (clk, bt_ph, bt_phd);\ndff bt_f2 (clk, bt_ring0, bt_ringd0);\n\
    dff bt_f3 (clk, bt_ring1, bt_ringd1);\ndff bt_f4 (clk, q, bt_d0);\n\
    dff bt_f5 (clk, bt_q1, bt_d1);\nendmodule\n";

/// Its schedule.
pub const SCHEDULE: &str =
    "bilbo-schedule 1\nwidth 8\ndegree 1\nmask 00000001\nregister 00000001\ncell split 0 00000001\n\
    register 00000001\ncell watch 0 00000000\nsession 1\ncycles 5\nend\n";

/// Its signatures.
pub const SIGNATURES: &str = "bilbo-signatures 1\nsession 0\nregister 1 00000001\nend\n";

/// Its certificate.
pub const CERTIFICATE: &str = "bilbo-certificate 1\nperiod 2\nsegment 1 0 00000001\nend\n";

/// Its four files.
pub const FILES: [&str; 4] = [NETLIST, SCHEDULE, SIGNATURES, CERTIFICATE];
