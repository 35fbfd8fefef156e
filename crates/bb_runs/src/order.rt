//! Laws about orders and loops, as contracts of functions without a body.

ghost use Rattle.std.specs.Prelude.{◌≡◌, ◌<◌, ◌≤◌, ◌↔◌, ◌⊎◌, ℕ, List, length};
ghost use Rattle.bb_base.specs.Net.{Gate as GateValue, Netlist, driven, times, IsNetlist};
ghost use Rattle.bb_base.specs.Order.{IsOrder, HasOrder, HasRanks, IsLoop, IsCycle};

/// Gates have one order: by level, then by number.
pub fn one_order()
    ensures { (gates : List (GateValue ℕ)) (order other : List ℕ) → IsOrder gates order → IsOrder gates other → order ≡ other }
{}

/// A netlist has an order or a loop, and not both.
pub fn order_or_loop()
    ensures either { (n : Netlist ℕ) → IsNetlist n → HasOrder n.gates ⊎ ((nets : List ℕ) × IsLoop n.gates nets) }
    ensures not_both { (gates : List (GateValue ℕ)) (nets : List ℕ) → IsLoop gates nets → HasOrder gates → ⊥ }
{}

/// A netlist has an order exactly where its nets have ranks that fall along gates; and nets with ranks form no cycle.
pub fn ranks_give_orders()
    ensures exactly { (n : Netlist ℕ) → IsNetlist n → HasRanks n.gates ↔ HasOrder n.gates }
    ensures ranks { (gates : List (GateValue ℕ)) → HasOrder gates → HasRanks gates }
    ensures no_cycle { (gates : List (GateValue ℕ)) (nets : List ℕ) → HasRanks gates → IsCycle gates nets → ⊥ }
{}

/// The loop that is named is one.
pub fn one_loop()
    ensures { (n : Netlist ℕ) (nets other : List ℕ) → IsNetlist n → IsLoop n.gates nets → IsLoop n.gates other → nets ≡ other }
{}

/// Where each net below a count is driven, by no more drivers than there are nets, each has exactly one driver.
pub fn each_driven_once()
    ensures { (n : Netlist ℕ) (nets : ℕ) → ((net : ℕ) → net < nets → 1 ≤ times net (driven n)) → length (driven n) ≤ nets → (net : ℕ) → net < nets → times net (driven n) ≡ 1 }
{}
