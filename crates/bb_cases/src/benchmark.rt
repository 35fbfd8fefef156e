//! A small benchmark of ten gates and three flip-flops in two forms, and three of the files that are made of it.

/// Its gates as primitives.
pub const PLAIN: &str = "module s (clk, G0, G1, G2, G3, G17);\n\
    input clk, G0, G1, G2, G3;\n\
    output G17;\n\
    wire G5, G6, G7, G8, G9, G10, G11, G12, G13, G14, G15, G16;\n\
    dff a (clk, G5, G10);\n\
    dff b (clk, G6, G11);\n\
    dff c (clk, G7, G13);\n\
    not (G14, G0);\n\
    not (G17, G11);\n\
    and (G8, G14, G6);\n\
    or (G15, G12, G8);\n\
    or (G16, G3, G8);\n\
    nand (G9, G16, G15);\n\
    nor (G10, G14, G11);\n\
    nor (G11, G5, G9);\n\
    nor (G12, G1, G7);\n\
    nor (G13, G2, G12);\n\
    endmodule\n";

/// The same with comments, attributes, cells for the gates, and a clock that comes through a buffer.
pub const MADE: &str = "/* made */\n\
    (* top = 1 *)\n\
    module s (clk, G0, G1, G2, G3, G17);\n\
    input clk, G0, G1, G2, G3;\n\
    output G17;\n\
    wire G5, G6, G7, G8, G9, G10, G11, G12, G13, G14, G15, G16;\n\
    wire \\u.clk ;\n\
    (* src = \"s.v:9\" *)\n\
    \\$_NOT_  _0_ (.A(G0), .Y(G14));\n\
    (* src = \"s.v:9\" *)\n\
    \\$_NOT_  _1_ (.A(G11), .Y(G17));\n\
    (* src = \"s.v:9\" *)\n\
    \\$_AND_  _2_ (.A(G14), .B(G6), .Y(G8)); // and\n\
    (* src = \"s.v:9\" *)\n\
    \\$_OR_  _3_ (.A(G12), .B(G8), .Y(G15)); // or\n\
    (* src = \"s.v:9\" *)\n\
    \\$_OR_  _4_ (.A(G3), .B(G8), .Y(\\G16 )); // or\n\
    (* src = \"s.v:9\" *)\n\
    \\$_NAND_  _5_ (.A(\\G16 ), .B(G15), .Y(G9)); // nand\n\
    (* src = \"s.v:9\" *)\n\
    \\$_NOR_  _6_ (.A(G14), .B(G11), .Y(G10)); // nor\n\
    (* src = \"s.v:9\" *)\n\
    \\$_NOR_  _7_ (.A(\\G5 ), .B(G9), .Y(G11)); // nor\n\
    (* src = \"s.v:9\" *)\n\
    \\$_NOR_  _8_ (.A(G1), .B(G7), .Y(G12)); // nor\n\
    (* src = \"s.v:9\" *)\n\
    \\$_NOR_  _9_ (.A(G2), .B(G12), .Y(G13)); // nor\n\
    \\$_DFF_P_  _10_ (.C(\\u.clk ), .D(G10), .Q(\\G5 ));\n\
    \\$_DFF_P_  _11_ (.C(\\u.clk ), .D(G11), .Q(G6));\n\
    \\$_DFF_P_  _12_ (.C(\\u.clk ), .D(G13), .Q(G7));\n\
    assign \\u.clk  = clk;\n\
    endmodule\n";

/// Its schedule.
pub const SCHEDULE: &str =
    "bilbo-schedule 1\nwidth 8\ndegree 6\nmask 00000021\nregister 00000041\ncell input 0 00000001\n\
    cell input 1 00000002\ncell input 2 00000001\ncell input 3 00000004\ncell split 5 00000008\n\
    cell split 6 00000010\ncell split 7 00000020\nregister 00000009\ncell watch 5 00000000\n\
    cell watch 6 00000000\ncell watch 7 00000000\ncell output 4 00000000\nsession 1\ncycles 129\nend\n";

/// Its signatures.
pub const SIGNATURES: &str = "bilbo-signatures 1\nsession 0\nregister 1 00000007\nend\n";

/// Its certificate.
pub const CERTIFICATE: &str = "bilbo-certificate 1\nperiod 64\n\
    segment 7 0 00000001 1 00000002 3 00000004 4 00000008 5 00000010 6 00000020\n\
    segment 8 0 00000001 1 00000002 3 00000004 4 00000008 5 00000010 6 00000020\n\
    segment 9 1 00000002 2 00000001 6 00000020\n\
    segment 10 0 00000001 1 00000002 3 00000004 4 00000008 5 00000010 6 00000020\nend\n";

/// The three.
pub const NUMBERS: [&str; 3] = [SCHEDULE, SIGNATURES, CERTIFICATE];
