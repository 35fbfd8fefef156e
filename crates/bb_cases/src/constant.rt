//! An output that is always 1, and its four files.

/// The netlist.
pub const TEXT: &str = "module one (y); output y; assign y = 1'b1; endmodule";

/// It with its self-test.
pub const NETLIST: &str =
    "module one (y, bt_clk, bt_test, bt_init, bt_so, bt_done);\noutput y;\ninput bt_clk;\n\
    input bt_test;\ninput bt_init;\noutput bt_so;\noutput bt_done;\nwire bt_ni;\nwire bt_nt;\n\
    wire bt_go;\nwire bt_ngo;\nwire bt_par;\nwire bt_low;\nwire bt_f;\nwire bt_xd0;\nwire bt_wrap;\n\
    wire bt_pd;\nwire bt_phd;\nwire bt_step;\nwire bt_ns;\nwire bt_rk0;\nwire bt_ringd0;\n\
    wire bt_ra1;\nwire bt_ro1;\nwire bt_ringd1;\nwire bt_nd;\nwire bt_live;\nwire bt_np;\n\
    wire bt_run;\nwire bt_shift;\nwire bt_on0;\nwire bt_comp0;\nwire bt_b0;\nwire bt_n0;\n\
    wire bt_off0;\nwire bt_e0;\nwire bt_fb0;\nwire bt_pf0;\nwire bt_pc0;\nwire bt_p0;\n\
    wire bt_cz0;\nwire bt_cn0;\nwire bt_d0;\nwire bt_x0;\nwire bt_ph;\nwire bt_ring0;\n\
    wire bt_ring1;\nwire bt_q0;\nassign y = 1'b1;\nnot (bt_ni, bt_init);\nnot (bt_nt, bt_test);\n\
    and (bt_go, bt_test, bt_ni);\nnot (bt_ngo, bt_go);\nxor (bt_par, bt_x0);\n\
    assign bt_low = 1'b1;\nxor (bt_f, bt_par, bt_low);\nand (bt_xd0, bt_go, bt_f);\n\
    and (bt_wrap, bt_x0, bt_low);\nxor (bt_pd, bt_ph, bt_wrap);\nand (bt_phd, bt_go, bt_pd);\n\
    and (bt_step, bt_ph, bt_wrap);\nnot (bt_ns, bt_step);\nand (bt_rk0, bt_ring0, bt_ns);\n\
    or (bt_ringd0, bt_ngo, bt_rk0);\nand (bt_ra1, bt_ring0, bt_step);\n\
    or (bt_ro1, bt_ring1, bt_ra1);\nand (bt_ringd1, bt_go, bt_ro1);\nnot (bt_nd, bt_ring1);\n\
    and (bt_live, bt_go, bt_nd);\nnot (bt_np, bt_ph);\nand (bt_run, bt_live, bt_np);\n\
    and (bt_shift, bt_live, bt_ph);\nand (bt_done, bt_go, bt_ring1);\n\
    and (bt_so, bt_shift, bt_q0);\nor (bt_on0, bt_ring0);\nand (bt_comp0, bt_run, bt_on0);\n\
    or (bt_b0, bt_nt, bt_comp0);\nor (bt_n0, bt_comp0, bt_shift);\nnot (bt_off0, bt_on0);\n\
    and (bt_e0, bt_run, bt_off0);\nxor (bt_fb0, bt_q0);\nand (bt_pf0, bt_comp0, bt_fb0);\n\
    assign bt_pc0 = 1'b0;\nor (bt_p0, bt_pf0, bt_pc0);\nand (bt_cz0, bt_b0, y);\n\
    and (bt_cn0, bt_n0, bt_p0);\nxor (bt_d0, bt_cz0, bt_cn0);\ndff bt_f0 (bt_clk, bt_x0, bt_xd0);\n\
    dff bt_f1 (bt_clk, bt_ph, bt_phd);\ndff bt_f2 (bt_clk, bt_ring0, bt_ringd0);\n\
    dff bt_f3 (bt_clk, bt_ring1, bt_ringd1);\ndff bt_f4 (bt_clk, bt_q0, bt_d0);\nendmodule\n";

/// Its schedule.
pub const SCHEDULE: &str =
    "bilbo-schedule 1\nwidth 8\ndegree 1\nmask 00000001\nregister 00000001\ncell output 0 00000000\n\
    session 0\ncycles 5\nend\n";

/// Its signatures.
pub const SIGNATURES: &str = "bilbo-signatures 1\nsession 0\nregister 0 00000000\nend\n";

/// Its certificate.
pub const CERTIFICATE: &str = "bilbo-certificate 1\nperiod 2\nsegment 0\nend\n";

/// Its four files.
pub const FILES: [&str; 4] = [NETLIST, SCHEDULE, SIGNATURES, CERTIFICATE];
