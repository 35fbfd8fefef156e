ghost use Rattle.std.specs.Prelude.{◌≡◌};
ghost use Rattle.bb_terms.specs.Kinds.{is_source, takes_d, takes_net, is_cut, is_observer, has_line, is_behind, is_flop, only_generates, reads_back};

/// What a cell is for.
#[derive(Clone, Copy, Debug, PartialEq, Eq)]
pub enum Kind {
    /// The source of an input.
    Input,
    /// A flip-flop that is a source and observes its own d.
    State,
    /// A flip-flop that is a source alone.
    Split,
    /// The source of a cut net, which observes the net's gate.
    Cut,
    /// It observes the d of a flip-flop that has a Split cell.
    Watch,
    /// It observes an output that a gate drives.
    Output,
}

impl Kind {
    /// Whether values enter at the cell's net.
    pub fn is_source(self) -> bool
        ensures { result ≡ is_source self }
    {
        matches!(self, Kind::Input | Kind::State | Kind::Split | Kind::Cut)
    }

    /// Whether the cell observes the d of its flip-flop.
    pub fn takes_d(self) -> bool
        ensures { result ≡ takes_d self }
    {
        matches!(self, Kind::State | Kind::Watch)
    }

    /// Whether the cell observes its net.
    pub fn takes_net(self) -> bool
        ensures { result ≡ takes_net self }
    {
        matches!(self, Kind::Cut | Kind::Output)
    }

    /// Whether the cell cuts its net.
    pub fn is_cut(self) -> bool
        ensures { result ≡ is_cut self }
    {
        matches!(self, Kind::Cut)
    }

    /// Whether the cell observes a line.
    pub fn is_observer(self) -> bool
        ensures { result ≡ is_observer self }
    {
        self.takes_d() || self.takes_net()
    }

    /// Whether the cell can latch a line: an observer, or a Split cell, which is a flip-flop still.
    pub fn has_line(self) -> bool
        ensures { result ≡ has_line self }
    {
        !matches!(self, Kind::Input)
    }

    /// Whether other logic reads the net behind the cell.
    pub fn is_behind(self) -> bool
        ensures { result ≡ is_behind self }
    {
        matches!(self, Kind::Input | Kind::Cut)
    }

    /// Whether the cell's bit is the flip-flop itself.
    pub fn is_flop(self) -> bool
        ensures { result ≡ is_flop self }
    {
        matches!(self, Kind::State | Kind::Split)
    }

    /// Whether the cell is a source that observes nothing.
    pub fn only_generates(self) -> bool
        ensures { result ≡ only_generates self }
    {
        self.is_source() && !self.is_observer()
    }

    /// Whether the cell is a source that observes too, so that a line may read it back.
    pub fn reads_back(self) -> bool
        ensures { result ≡ reads_back self }
    {
        self.is_source() && self.is_observer()
    }
}
