//! Laws about netlists, as contracts of functions without a body.

ghost use Rattle.std.specs.Prelude.{◌≡◌, ◌↔◌, ◌<◌, ℕ, List, Bool, map, Some, slice_get};
ghost use Rattle.bb_base.specs.Net.{Gate as GateValue, Netlist, renamed, renamed_gate};
ghost use Rattle.bb_base.specs.Order.{IsOrder, IsCycle, ReadsGate};
ghost use Rattle.bb_base.specs.Run.{IsRun, IsRunBy};
ghost use Rattle.bb_base.specs.Variables.{Bit};

/// A netlist of numbered nets has the same runs under any names for them, whatever its gates mean.
pub fn runs_by_name()
    ensures plain { (f : ℕ → Bit) (n : Netlist ℕ) (s : List Bool) (is : List (List Bool)) (vs : List (Bit → Bool))
        → IsRun (renamed f n) s is vs ↔ IsRun n s is (map (λ v net. v (f net)) vs) }
    ensures any { (f : ℕ → Bit) (gives : GateValue Bit → List Bool → Bool) (n : Netlist ℕ) (s : List Bool) (is : List (List Bool)) (vs : List (Bit → Bool))
        → IsRunBy gives (renamed f n) s is vs ↔ IsRunBy (λ g. gives (renamed_gate f g)) n s is (map (λ v net. v (f net)) vs) }
{}

/// In an order each gate comes after those that drive its inputs, and gates with an order form no cycle.
pub fn orders_follow_drivers()
    ensures after { (gates : List (GateValue ℕ)) (order : List ℕ) (i j reader driver : ℕ) → IsOrder gates order → slice_get order i ≡ Some reader → slice_get order j ≡ Some driver → ReadsGate gates reader driver → j < i }
    ensures no_cycle { (gates : List (GateValue ℕ)) (order nets : List ℕ) → IsOrder gates order → IsCycle gates nets → ⊥ }
{}
