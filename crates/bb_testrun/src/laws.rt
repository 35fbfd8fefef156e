//! Laws, as contracts of functions without a body.

ghost use Rattle.std.specs.Prelude.{◌≤◌, ◌^◌, ℕ, Bool, List, length};
ghost use Rattle.bb_base.specs.Net.{Netlist};
ghost use Rattle.bb_terms.specs.Register.{IsMask, IsFullPeriod};
ghost use Rattle.bb_terms.specs.Plan.{PlanValue, chain};
ghost use Rattle.bb_terms.specs.declared.wire.Wire.{Wire};
ghost use Rattle.bb_testrun.specs.Traced.{TestsAreTraces};
ghost use Rattle.bb_testrun.specs.ComesOut.{ComesOut};
ghost use Rattle.bb_testrun.specs.Computes.{LinesCompute};
ghost use Rattle.bb_testrun.specs.Reading.{ReadsCodes, MeetsAll};
ghost use Rattle.bb_testrun.specs.SignatureSoFar.{SignaturesAgree};
ghost use Rattle.bb_written.specs.Trace.{IsTestTrace};
ghost use Rattle.bb_testrun.specs.Control.{ReturnsAfter};
ghost use Rattle.bb_testrun.specs.Held.{HoldsInRun, ShiftsInUnload, GivesOut, WalksInRun, IsOver, BeginsQuiet};

/// In every trace of the added rows the controller and the registers stand where the cycle numbers say.
pub fn test_runs()
    ensures walk { (a : Netlist ℕ) (p : PlanValue) (size n : ℕ) (v : ℕ → Wire → Bool) → IsTestTrace a p n v → ReturnsAfter p.degree p.mask size → WalksInRun p size n v }
    ensures held_by { (a : Netlist ℕ) (p : PlanValue) (size n : ℕ) (v : ℕ → Wire → Bool) → IsTestTrace a p n v → ReturnsAfter p.degree p.mask size → length (chain p) ≤ size → HoldsInRun a p size n v }
    ensures unload { (a : Netlist ℕ) (p : PlanValue) (size n : ℕ) (v : ℕ → Wire → Bool) → IsTestTrace a p n v → ReturnsAfter p.degree p.mask size → length (chain p) ≤ size → ShiftsInUnload a p size n v }
    ensures out { (a : Netlist ℕ) (p : PlanValue) (size n : ℕ) (v : ℕ → Wire → Bool) → IsTestTrace a p n v → ReturnsAfter p.degree p.mask size → length (chain p) ≤ size → GivesOut a p size n v }
    ensures over { (a : Netlist ℕ) (p : PlanValue) (size n : ℕ) (v : ℕ → Wire → Bool) → IsTestTrace a p n v → ReturnsAfter p.degree p.mask size → IsOver p size n v }
    ensures begins { (a : Netlist ℕ) (p : PlanValue) (n : ℕ) (v : ℕ → Wire → Bool) → IsTestTrace a p n v → BeginsQuiet n v }
{}

/// Each test run under each change is a trace of the added rows.
pub fn changes()
    ensures { (a : Netlist ℕ) (p : PlanValue) → TestsAreTraces a p }
{}

/// Each line has the bit of its segment's function, and what is read of generating leaves are their code bits.
pub fn lines_read()
    ensures lines { (a : Netlist ℕ) (p : PlanValue) → LinesCompute a p }
    ensures codes { (a : Netlist ℕ) (p : PlanValue) (size : ℕ) → ReturnsAfter p.degree p.mask size → length (chain p) ≤ size → ReadsCodes a p size }
    ensures signatures { SignaturesAgree }
{}

/// Each vector of generating leaves comes in the run cycles, at a cycle that is the same in all traces.
pub fn every_vector_meets()
    ensures { (a : Netlist ℕ) (p : PlanValue) → 1 ≤ p.degree → IsFullPeriod p.degree p.mask → ReturnsAfter p.degree p.mask (2 ^ p.degree) → length (chain p) ≤ 2 ^ p.degree → MeetsAll a p }
{}

/// The walk of a full mask first returns control_after all its states, from the one whose last bit alone is 1.
pub fn full_walks_cycle()
    ensures { (k mask : ℕ) → 1 ≤ k → IsMask k mask → IsFullPeriod k mask → ReturnsAfter k mask (2 ^ k) }
{}

/// A chain comes out from its last bit on.
pub fn chains_come_out()
    ensures { (j : ℕ) (xs : List Bool) → ComesOut j xs }
{}
