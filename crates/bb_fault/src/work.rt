//! The gates and flip-flops that items make.

ghost use Rattle.std.specs.Prelude.{◌≡◌, ◌<◌, ◌^◌, IfOk, OnOk};
ghost use Rattle.bb_fault.specs.Work.{new_net, drive, make, make_onto, flop_made, constant, Makes};

use bb_base::{Gate, NetId, Op};
use smallvec::SmallVec;
use std::alloc::{AllocError, Global};
use std::marker::Model;

/// A flip-flop with its clock pin's net.
#[derive(Clone, Copy, Debug)]
pub struct Clocked {
    pub q: NetId,
    pub d: NetId,
    pub clock: NetId,
}

impl Model for Clocked {
    ghost use Rattle.bb_fault.specs.Work.{Clocked as ClockedValue};

    ghost Value = { ClockedValue };

    ghost view = { λ f. record { q = f.q; d = f.d; clock = f.clock } };

    ghost inverse = { λ f. record { q = f.q; d = f.d; clock = f.clock } };
}

/// What has been made so far, over numbers of bits.
#[derive(Drop)]
pub struct Work {
    pub alloc: Global,
    pub fresh: u32,
    pub gates: Vec<Gate>,
    pub flops: Vec<Clocked>,
}

impl Model for Work {
    ghost use Rattle.bb_fault.specs.Work.{Work as WorkValue};

    ghost Value = { WorkValue };

    ghost view = { λ w. record { fresh = w.fresh; gates = w.gates.items; flops = w.flops.items } };
}

/// The operator of a constant bit.
pub fn constant(one: bool) -> Op
    ensures { result ≡ constant one }
{
    if one { Op::One } else { Op::Zero }
}

impl Work {
    /// A net without a driver yet.
    pub fn new_net(&mut self) -> NetId
        requires room { (new_net self.old).1.fresh < 2 ^ 32 }
        ensures { Makes new_net self.old result self.new }
    {
        let net = self.fresh;
        self.fresh += 1;
        NetId(net)
    }

    /// A gate that drives this net.
    pub fn drive(&mut self, op: Op, ins: &[NetId], out: NetId) -> Result<NetId, AllocError>
        ensures { IfOk result (λ net. Makes (drive op ins.now out) self.old net self.new) }
    {
        let ins = SmallVec::from_slice(self.alloc, ins)?;
        self.gates.push(Gate { op, out, ins })?;
        Ok(out)
    }

    /// A gate that drives a new net.
    pub fn make(&mut self, op: Op, ins: &[NetId]) -> Result<NetId, AllocError>
        requires room { (make op ins.now self.old).1.fresh < 2 ^ 32 }
        ensures { IfOk result (λ net. Makes (make op ins.now) self.old net self.new) }
    {
        let out = self.new_net();
        self.drive(op, ins, out)
    }

    /// A gate that drives its target, where it has one, and else a new net.
    pub fn make_onto(
        &mut self,
        op: Op,
        ins: &[NetId],
        target: Option<NetId>,
    ) -> Result<NetId, AllocError>
        requires room { (make_onto op ins.now target self.old).1.fresh < 2 ^ 32 }
        ensures { IfOk result (λ net. Makes (make_onto op ins.now target) self.old net self.new) }
    {
        match target {
            None => self.make(op, ins),
            Some(target) => self.drive(op, ins, target),
        }
    }
}
