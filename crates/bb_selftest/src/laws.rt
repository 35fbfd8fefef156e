//! Laws, as contracts of functions without a body.

ghost use Rattle.std.specs.Prelude.{◌≡◌, ℕ, Bool, List, length};
ghost use Rattle.std.specs.List.{AllByRecursion};
ghost use Rattle.bb_base.specs.Net.{Gate as GateValue};
ghost use Rattle.bb_base.specs.Run.{IsRunBy};
ghost use Rattle.bb_base.specs.Named.{Named};
ghost use Rattle.bb_net.specs.Sites.{Site, sited};
ghost use Rattle.bb_terms.specs.Change.{Change, IsChangeOf, gives_by};
ghost use Rattle.bb_terms.specs.declared.plan.Cell.{Cell};
ghost use Rattle.bb_terms.specs.Plan.{PlanValue};
ghost use Rattle.bb_terms.specs.Signatures.{AreSignatures};
ghost use Rattle.bb_selftest.specs.WrittenLines.{IsObserver};
ghost use Rattle.bb_selftest.specs.TestRun.{IsTestRunBy, inputs_in_test};
ghost use Rattle.bb_selftest.specs.TestTrace.{IsWrittenNetlist, IsTracedTest};
ghost use Rattle.bb_selftest.specs.Tested.{IsTestedBy, ShowsChange};
ghost use Rattle.bb_selftest.specs.SelfTest.{IsSelfTest};

/// Each test run of a written netlist is, symbol by symbol, a trace of a test, whatever the original's gates are changed to.
pub fn test_runs_are_traces()
    ensures { (a b : Named) (p : PlanValue) (f : Change Site) (vs : List (Site → Bool)) → IsWrittenNetlist a b p → IsChangeOf (sited a).netlist.gates f
        → IsTestRunBy (gives_by f) b vs → IsTracedTest (gives_by f) a p vs }
{}

/// And from every state, under all inputs of the original, there is a test run, whatever gates mean.
pub fn test_runs_exist()
    ensures { (a b : Named) (p : PlanValue) (gives : GateValue Site → List Bool → Bool) (start : List Bool) (is : List (List Bool)) → IsWrittenNetlist a b p
        → length start ≡ length b.netlist.flops → AllByRecursion (λ i. length i ≡ length a.netlist.inputs) is
        → (vs : List (Site → Bool)) × IsRunBy gives (sited b).netlist start (inputs_in_test is) vs × IsTestRunBy gives b vs × (length vs ≡ length is) }
{}

/// Lines follow their segments, their vectors come, and registers hold and give out what they should in every test run, whatever the
/// original's gates are changed to.
pub fn mirrors_are_tested()
    ensures { (a b : Named) (p : PlanValue) (f : Change Site) → IsWrittenNetlist a b p → IsChangeOf (sited a).netlist.gates f → IsTestedBy (gives_by f) a b p }
{}

/// A change that the function of an observer's segment shows is shown by its line, at a run cycle that is the same for all test runs.
pub fn changes_show()
    ensures { (a b : Named) (p : PlanValue) (f : Change Site) (i r : ℕ) (c : Cell) → IsWrittenNetlist a b p → IsChangeOf (sited a).netlist.gates f → IsObserver p i r c
        → ShowsChange f a b p r c }
{}

/// A netlist that has the drivers of the written one is a self-test, with the plan's signatures.
pub fn mirrors_are_self_tests()
    ensures { (a b : Named) (p : PlanValue) (signatures : List (List ℕ)) → IsWrittenNetlist a b p → AreSignatures a.netlist p signatures → IsSelfTest a b p signatures }
{}
