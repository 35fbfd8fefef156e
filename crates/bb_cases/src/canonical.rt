//! Netlists in the canonical form.

/// An input alone.
pub const NO_GATE: &str = "module none (a);\ninput a;\nendmodule\n";

/// An output that is an input.
pub const WIRE: &str = "module w (a, y);\ninput a;\noutput y;\nbuf (y, a);\nendmodule\n";

/// An output that is always 1.
pub const CONSTANT: &str = "module one (y);\noutput y;\nassign y = 1'b1;\nendmodule\n";

/// A flip-flop that reads itself, with the nets q and d.
pub const TOGGLE: &str =
    "module tog (clk, q);\ninput clk;\noutput q;\nwire d;\nnot (d, q);\ndff bt_f0 (clk, q, d);\n\
    endmodule\n";

/// Two flip-flops that read each other, with the nets y and p.
pub const SWAP: &str =
    "module swap (clk, y);\ninput clk;\noutput y;\nwire p;\ndff bt_f0 (clk, y, p);\n\
    dff bt_f1 (clk, p, y);\nendmodule\n";

/// A gate of nine inputs.
pub const NINE_INPUTS: &str =
    "module nine (a, b, c, d, e, f, g, h, i, y);\ninput a;\ninput b;\ninput c;\ninput d;\ninput e;\n\
    input f;\ninput g;\ninput h;\ninput i;\noutput y;\nand (y, a, b, c, d, e, f, g, h, i);\n\
    endmodule\n";

/// A gate that reads one input nine times.
pub const ONE_INPUT_NINE_TIMES: &str =
    "module nine (a, y);\ninput a;\noutput y;\nand (y, a, a, a, a, a, a, a, a, a);\nendmodule\n";

/// A small benchmark of ten gates and three flip-flops.
pub const BENCHMARK: &str =
    "module s (clk, G0, G1, G2, G3, G17);\ninput clk;\ninput G0;\ninput G1;\ninput G2;\ninput G3;\n\
    output G17;\nwire G5;\nwire G6;\nwire G7;\nwire G8;\nwire G9;\nwire G10;\nwire G11;\nwire G12;\n\
    wire G13;\nwire G14;\nwire G15;\nwire G16;\nnot (G14, G0);\nnot (G17, G11);\n\
    and (G8, G14, G6);\nor (G15, G12, G8);\nor (G16, G3, G8);\nnand (G9, G16, G15);\n\
    nor (G10, G14, G11);\nnor (G11, G5, G9);\nnor (G12, G1, G7);\nnor (G13, G2, G12);\n\
    dff bt_f0 (clk, G5, G10);\ndff bt_f1 (clk, G6, G11);\ndff bt_f2 (clk, G7, G13);\nendmodule\n";

/// The parity of 32 inputs, by gates of two.
pub const PARITY_TREE: &str =
    "module parity (i0, i1, i2, i3, i4, i5, i6, i7, i8, i9, i10, i11, i12, i13, i14, i15, i16, i17, i18, i19, i20, i21, i22, i23, i24, i25, i26, i27, i28, i29, i30, i31, y);\n\
    input i0;\ninput i1;\ninput i2;\ninput i3;\ninput i4;\ninput i5;\ninput i6;\ninput i7;\n\
    input i8;\ninput i9;\ninput i10;\ninput i11;\ninput i12;\ninput i13;\ninput i14;\ninput i15;\n\
    input i16;\ninput i17;\ninput i18;\ninput i19;\ninput i20;\ninput i21;\ninput i22;\ninput i23;\n\
    input i24;\ninput i25;\ninput i26;\ninput i27;\ninput i28;\ninput i29;\ninput i30;\ninput i31;\n\
    output y;\nwire t0;\nwire t1;\nwire t2;\nwire t3;\nwire t4;\nwire t5;\nwire t6;\nwire t7;\n\
    wire t8;\nwire t9;\nwire t10;\nwire t11;\nwire t12;\nwire t13;\nwire t14;\nwire t15;\nwire u0;\n\
    wire u1;\nwire u2;\nwire u3;\nwire u4;\nwire u5;\nwire u6;\nwire u7;\nwire v0;\nwire v1;\n\
    wire v2;\nwire v3;\nwire w0;\nwire w1;\nxor (t0, i0, i1);\nxor (t1, i2, i3);\n\
    xor (t2, i4, i5);\nxor (t3, i6, i7);\nxor (t4, i8, i9);\nxor (t5, i10, i11);\n\
    xor (t6, i12, i13);\nxor (t7, i14, i15);\nxor (t8, i16, i17);\nxor (t9, i18, i19);\n\
    xor (t10, i20, i21);\nxor (t11, i22, i23);\nxor (t12, i24, i25);\nxor (t13, i26, i27);\n\
    xor (t14, i28, i29);\nxor (t15, i30, i31);\nxor (u0, t0, t1);\nxor (u1, t2, t3);\n\
    xor (u2, t4, t5);\nxor (u3, t6, t7);\nxor (u4, t8, t9);\nxor (u5, t10, t11);\n\
    xor (u6, t12, t13);\nxor (u7, t14, t15);\nxor (v0, u0, u1);\nxor (v1, u2, u3);\n\
    xor (v2, u4, u5);\nxor (v3, u6, u7);\nxor (w0, v0, v1);\nxor (w1, v2, v3);\nxor (y, w0, w1);\n\
    endmodule\n";
