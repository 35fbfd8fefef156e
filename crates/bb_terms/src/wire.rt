ghost use Rattle.std.specs.Prelude.{◌≡◌};
ghost use Rattle.bb_terms.specs.Wires.{wire_label};
ghost use Rattle.bb_terms.specs.Numbering.{kept_of};

/// A net of the written netlist, by what it is for. A number is a bit of the complete register, a session, a register or a cell.
#[derive(Clone, Copy, Default, PartialEq, Eq)]
pub enum Wire {
    /// The net of this number of the original.
    Kept(u32),
    /// 1 in a test.
    #[default]
    Test,
    /// 1 in the first cycle of a test.
    Init,
    /// What the chain shifts out.
    So,
    /// 1 once the test is over.
    Done,
    /// Not `bt_init`.
    NotInit,
    /// Not `bt_test`.
    NotTest,
    /// 1 in a test behind its first cycle.
    Go,
    /// Not `bt_go`.
    NotGo,
    /// The parity of the word's tapped bits.
    Parity,
    /// 1 where all bits of the word but the last are 0.
    Low,
    /// The bit that the word takes in.
    Feed,
    /// A bit of the complete register.
    Word(u32),
    /// What that bit takes at the next edge.
    WordNext(u32),
    /// 1 at the last state of a walk.
    Wrap,
    /// 0 while registers run, 1 while they unload.
    Phase,
    /// The phase, turned at a walk's end.
    PhaseTurned,
    /// What the phase takes at the next edge.
    PhaseNext,
    /// 1 at the end of a session.
    Advance,
    /// Not `bt_step`.
    NotAdvance,
    /// 1 in this session; the last one is 1 behind them all.
    Ring(u32),
    /// The session goes on.
    RingKept(u32),
    /// The session comes from the one before.
    RingMoved(u32),
    /// Either of the two.
    RingOr(u32),
    /// What the session's bit takes at the next edge.
    RingNext(u32),
    /// 0 behind the last session.
    NotOver,
    /// 1 in the sessions.
    Live,
    /// Not the phase.
    NotPhase,
    /// 1 in run cycles.
    Running,
    /// 1 in unload cycles.
    Shifting,
    /// 1 in the sessions of this register.
    On(u32),
    /// 1 where it compacts.
    Compacts(u32),
    /// 1 where its cells take their lines.
    Latches(u32),
    /// 1 where its cells take the cells before them.
    Takes(u32),
    /// Not `bt_on`.
    Off(u32),
    /// 1 where its cells take their code lines.
    Codes(u32),
    /// The parity of its tapped cells.
    Feedback(u32),
    /// The same where it compacts, else 0.
    Signed(u32),
    /// The cell before it in unload cycles, else 0.
    Carried(u32),
    /// What stands before its first cell.
    First(u32),
    /// The cell's line where it is taken, else 0.
    Line(u32),
    /// The cell before it where that is taken, else 0.
    Chain(u32),
    /// The cell's code line.
    Code(u32),
    /// The same where it is taken, else 0.
    Coded(u32),
    /// What the cell takes at the next edge.
    Next(u32),
    /// What is read behind the cell in a test, else 0.
    InTest(u32),
    /// What is read behind the cell outside a test, else 0.
    InNormal(u32),
    /// What is read behind the cell.
    Read(u32),
    /// The cell's bit, where the cell is no flip-flop of the original.
    Held(u32),
}

impl Wire {
    /// The name of its variable before the number, and the number; a net of the original keeps its own name.
    pub fn label(self) -> (&'static str, Option<u32>)
        ensures front { result.0.now ≡ (wire_label self).0 }
        ensures number { result.1 ≡ (wire_label self).1 }
    {
        match self {
            Wire::Kept(_) => ("", None),
            Wire::Test => ("bt_test", None),
            Wire::Init => ("bt_init", None),
            Wire::So => ("bt_so", None),
            Wire::Done => ("bt_done", None),
            Wire::NotInit => ("bt_ni", None),
            Wire::NotTest => ("bt_nt", None),
            Wire::Go => ("bt_go", None),
            Wire::NotGo => ("bt_ngo", None),
            Wire::Parity => ("bt_par", None),
            Wire::Low => ("bt_low", None),
            Wire::Feed => ("bt_f", None),
            Wire::Word(i) => ("bt_x", Some(i)),
            Wire::WordNext(i) => ("bt_xd", Some(i)),
            Wire::Wrap => ("bt_wrap", None),
            Wire::Phase => ("bt_ph", None),
            Wire::PhaseTurned => ("bt_pd", None),
            Wire::PhaseNext => ("bt_phd", None),
            Wire::Advance => ("bt_step", None),
            Wire::NotAdvance => ("bt_ns", None),
            Wire::Ring(s) => ("bt_ring", Some(s)),
            Wire::RingKept(s) => ("bt_rk", Some(s)),
            Wire::RingMoved(s) => ("bt_ra", Some(s)),
            Wire::RingOr(s) => ("bt_ro", Some(s)),
            Wire::RingNext(s) => ("bt_ringd", Some(s)),
            Wire::NotOver => ("bt_nd", None),
            Wire::Live => ("bt_live", None),
            Wire::NotPhase => ("bt_np", None),
            Wire::Running => ("bt_run", None),
            Wire::Shifting => ("bt_shift", None),
            Wire::On(r) => ("bt_on", Some(r)),
            Wire::Compacts(r) => ("bt_comp", Some(r)),
            Wire::Latches(r) => ("bt_b", Some(r)),
            Wire::Takes(r) => ("bt_n", Some(r)),
            Wire::Off(r) => ("bt_off", Some(r)),
            Wire::Codes(r) => ("bt_e", Some(r)),
            Wire::Feedback(r) => ("bt_fb", Some(r)),
            Wire::Signed(r) => ("bt_pf", Some(r)),
            Wire::Carried(r) => ("bt_pc", Some(r)),
            Wire::First(r) => ("bt_p", Some(r)),
            Wire::Line(i) => ("bt_cz", Some(i)),
            Wire::Chain(i) => ("bt_cn", Some(i)),
            Wire::Code(i) => ("bt_g", Some(i)),
            Wire::Coded(i) => ("bt_cg", Some(i)),
            Wire::Next(i) => ("bt_d", Some(i)),
            Wire::InTest(i) => ("bt_rt", Some(i)),
            Wire::InNormal(i) => ("bt_rn", Some(i)),
            Wire::Read(i) => ("bt_r", Some(i)),
            Wire::Held(i) => ("bt_q", Some(i)),
        }
    }

    /// The net of the original that it is.
    pub fn kept(self) -> Option<u32>
        ensures { result ≡ kept_of self }
    {
        match self {
            Wire::Kept(net) => Some(net),
            _ => None,
        }
    }
}
