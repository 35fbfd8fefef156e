//! The parity of 32 inputs by gates of two, and three of the files that are made of it at width 4.

/// The netlist.
pub const TEXT: &str =
    "module tree (i, y); input [0:31] i; output y; wire [0:15] t; wire [0:7] u; wire [0:3] v;\n\
    wire [0:1] w; xor (t[0], i[0], i[1]); xor (t[1], i[2], i[3]); xor (t[2], i[4], i[5]);\n\
    xor (t[3], i[6], i[7]); xor (t[4], i[8], i[9]); xor (t[5], i[10], i[11]);\n\
    xor (t[6], i[12], i[13]); xor (t[7], i[14], i[15]); xor (t[8], i[16], i[17]);\n\
    xor (t[9], i[18], i[19]); xor (t[10], i[20], i[21]); xor (t[11], i[22], i[23]);\n\
    xor (t[12], i[24], i[25]); xor (t[13], i[26], i[27]); xor (t[14], i[28], i[29]);\n\
    xor (t[15], i[30], i[31]); xor (u[0], t[0], t[1]); xor (u[1], t[2], t[3]);\n\
    xor (u[2], t[4], t[5]); xor (u[3], t[6], t[7]); xor (u[4], t[8], t[9]);\n\
    xor (u[5], t[10], t[11]); xor (u[6], t[12], t[13]); xor (u[7], t[14], t[15]);\n\
    xor (v[0], u[0], u[1]); xor (v[1], u[2], u[3]); xor (v[2], u[4], u[5]);\n\
    xor (v[3], u[6], u[7]); xor (w[0], v[0], v[1]); xor (w[1], v[2], v[3]); xor (y, w[0], w[1]);\n\
    endmodule\n";

/// Its schedule.
pub const SCHEDULE: &str =
    "bilbo-schedule 1\nwidth 4\ndegree 6\nmask 00000021\nregister 0000008e\ncell input 0 00000001\n\
    cell input 1 00000002\ncell input 2 00000004\ncell input 3 00000008\ncell input 4 00000001\n\
    cell input 5 00000002\ncell input 6 00000004\ncell input 7 00000008\nregister 0000008e\n\
    cell input 8 00000001\ncell input 9 00000002\ncell input 10 00000004\ncell input 11 00000008\n\
    cell input 12 00000001\ncell input 13 00000002\ncell input 14 00000004\ncell input 15 00000008\n\
    register 0000008e\ncell input 16 00000001\ncell input 17 00000002\ncell input 18 00000004\n\
    cell input 19 00000008\ncell input 20 00000001\ncell input 21 00000002\ncell input 22 00000004\n\
    cell input 23 00000008\nregister 0000008e\ncell input 24 00000001\ncell input 25 00000002\n\
    cell input 26 00000004\ncell input 27 00000008\ncell input 28 00000001\ncell input 29 00000002\n\
    cell input 30 00000004\ncell input 31 00000008\nregister 0000008e\ncell cut 49 00000001\n\
    cell cut 50 00000002\ncell cut 51 00000004\ncell cut 52 00000008\ncell cut 53 00000001\n\
    cell cut 54 00000002\ncell cut 55 00000004\ncell cut 56 00000008\nregister 00000003\n\
    cell cut 61 00000001\ncell cut 62 00000002\nregister 00000001\ncell output 32 00000000\n\
    session 4 6\nsession 5\ncycles 257\nend\n";

/// Its signatures.
pub const SIGNATURES: &str =
    "bilbo-signatures 1\nsession 0\nregister 4 000000b8\nregister 6 00000000\nsession 1\n\
    register 5 00000000\nend\n";

/// Its certificate.
pub const CERTIFICATE: &str =
    "bilbo-certificate 1\nperiod 64\nsegment 32 0 00000001 1 00000002 2 00000004 3 00000008\n\
    segment 33 4 00000001 5 00000002 6 00000004 7 00000008\n\
    segment 34 8 00000001 9 00000002 10 00000004 11 00000008\n\
    segment 35 12 00000001 13 00000002 14 00000004 15 00000008\n\
    segment 36 16 00000001 17 00000002 18 00000004 19 00000008\n\
    segment 37 20 00000001 21 00000002 22 00000004 23 00000008\n\
    segment 38 24 00000001 25 00000002 26 00000004 27 00000008\n\
    segment 39 28 00000001 29 00000002 30 00000004 31 00000008\n\
    segment 40 32 00000001 33 00000002 34 00000004 35 00000008\n\
    segment 41 36 00000001 37 00000002 38 00000004 39 00000008\nsegment 42 40 00000001 41 00000002\n\
    end\n";

/// The three.
pub const NUMBERS: [&str; 3] = [SCHEDULE, SIGNATURES, CERTIFICATE];
