use crate::Op;
use smallvec::SmallVec;
use std::marker::Model;

/// A net's number, from 0. A net is one bit with exactly one driver.
#[derive(Clone, Copy, Debug, Default, PartialEq, Eq)]
pub struct NetId(pub u32);

impl Model for NetId {
    ghost use Rattle.std.specs.Prelude.{ℕ};

    ghost Value = { ℕ };

    ghost view = { λ n. n.0 };

    ghost inverse = { λ n. record { 0 = n } };
}

/// A logic function: it drives one net from others.
#[derive(Drop)]
pub struct Gate {
    pub op: Op,
    pub out: NetId,
    pub ins: SmallVec<NetId, 4>,
}

impl Model for Gate {
    ghost use Rattle.std.specs.Prelude.{ℕ};
    ghost use Rattle.bb_base.specs.Net.{Gate as GateValue};

    ghost Value = { GateValue ℕ };

    ghost view = { λ g. record { op = g.op; out = g.out; ins = g.ins.items } };
}

/// A flip-flop (a bit of state): `q` takes the bit of `d` at each edge of the clock.
#[derive(Clone, Copy, Debug, PartialEq, Eq)]
pub struct Flop {
    pub q: NetId,
    pub d: NetId,
}

impl Model for Flop {
    ghost use Rattle.std.specs.Prelude.{ℕ};
    ghost use Rattle.bb_base.specs.Net.{Flop as FlopValue};

    ghost Value = { FlopValue ℕ };

    ghost view = { λ f. record { q = f.q; d = f.d } };

    ghost inverse = { λ f. record { q = f.q; d = f.d } };
}
