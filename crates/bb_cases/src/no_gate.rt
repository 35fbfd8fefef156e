//! An input that nothing reads, and its four files.

/// The netlist.
pub const TEXT: &str = "module none (a); input a; endmodule";

/// It with its self-test.
pub const NETLIST: &str =
    "module none (a, bt_clk, bt_test, bt_init, bt_so, bt_done);\ninput a;\ninput bt_clk;\n\
    input bt_test;\ninput bt_init;\noutput bt_so;\noutput bt_done;\nwire bt_ni;\nwire bt_nt;\n\
    wire bt_go;\nwire bt_ngo;\nwire bt_par;\nwire bt_low;\nwire bt_f;\nwire bt_xd0;\nwire bt_wrap;\n\
    wire bt_pd;\nwire bt_phd;\nwire bt_step;\nwire bt_ns;\nwire bt_ringd0;\nwire bt_nd;\n\
    wire bt_live;\nwire bt_np;\nwire bt_run;\nwire bt_shift;\nwire bt_b0;\nwire bt_n0;\n\
    wire bt_e0;\nwire bt_p0;\nwire bt_cn0;\nwire bt_g0;\nwire bt_cg0;\nwire bt_d0;\nwire bt_rt0;\n\
    wire bt_rn0;\nwire bt_r0;\nwire bt_x0;\nwire bt_ph;\nwire bt_ring0;\nwire bt_q0;\n\
    not (bt_ni, bt_init);\nnot (bt_nt, bt_test);\nand (bt_go, bt_test, bt_ni);\n\
    not (bt_ngo, bt_go);\nxor (bt_par, bt_x0);\nassign bt_low = 1'b1;\nxor (bt_f, bt_par, bt_low);\n\
    and (bt_xd0, bt_go, bt_f);\nand (bt_wrap, bt_x0, bt_low);\nxor (bt_pd, bt_ph, bt_wrap);\n\
    and (bt_phd, bt_go, bt_pd);\nand (bt_step, bt_ph, bt_wrap);\nnot (bt_ns, bt_step);\n\
    assign bt_ringd0 = 1'b1;\nnot (bt_nd, bt_ring0);\nand (bt_live, bt_go, bt_nd);\n\
    not (bt_np, bt_ph);\nand (bt_run, bt_live, bt_np);\nand (bt_shift, bt_live, bt_ph);\n\
    and (bt_done, bt_go, bt_ring0);\nand (bt_so, bt_shift, bt_q0);\nbuf (bt_b0, bt_nt);\n\
    buf (bt_n0, bt_shift);\nbuf (bt_e0, bt_run);\nassign bt_p0 = 1'b0;\n\
    and (bt_cn0, bt_n0, bt_p0);\nxor (bt_g0, bt_f);\nand (bt_cg0, bt_e0, bt_g0);\n\
    xor (bt_d0, bt_cn0, bt_cg0);\nand (bt_rt0, bt_test, bt_q0);\nand (bt_rn0, bt_nt, a);\n\
    or (bt_r0, bt_rt0, bt_rn0);\ndff bt_f0 (bt_clk, bt_x0, bt_xd0);\n\
    dff bt_f1 (bt_clk, bt_ph, bt_phd);\ndff bt_f2 (bt_clk, bt_ring0, bt_ringd0);\n\
    dff bt_f3 (bt_clk, bt_q0, bt_d0);\nendmodule\n";

/// Its schedule.
pub const SCHEDULE: &str =
    "bilbo-schedule 1\nwidth 8\ndegree 1\nmask 00000001\nregister 00000001\ncell input 0 00000001\n\
    cycles 1\nend\n";

/// Its signatures.
pub const SIGNATURES: &str = "bilbo-signatures 1\nend\n";

/// Its certificate.
pub const CERTIFICATE: &str = "bilbo-certificate 1\nperiod 2\nend\n";

/// Its four files.
pub const FILES: [&str; 4] = [NETLIST, SCHEDULE, SIGNATURES, CERTIFICATE];
