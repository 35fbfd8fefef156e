//! Laws about runs of named netlists by sites, as contracts of functions without a body.

ghost use Rattle.std.specs.Prelude.{◌≡◌, ◌<◌, ◌↔◌, ℕ, List, Bool, length, map};
ghost use Rattle.std.specs.List.{AllByRecursion, range_with_len};
ghost use Rattle.bb_base.specs.Net.{Gate as GateValue, Netlist};
ghost use Rattle.bb_base.specs.Order.{HasOrder, HasRanks, IsCycle};
ghost use Rattle.bb_base.specs.Run.{IsRunBy, IsTrace, at, states};
ghost use Rattle.bb_base.specs.Named.{Named as NamedValue, IsNamed, design_of};
ghost use Rattle.bb_net.specs.Sites.{Site, sited, site_of};
ghost use Rattle.bb_base.specs.Variables.{Bit};

/// By sites too a run is a trace of its gates and flip-flops, and a trace is a run.
pub fn site_runs_are_traces()
    ensures trace { (gives : GateValue Site → List Bool → Bool) (n : Netlist Site) (s : List Bool) (is : List (List Bool)) (vs : List (Site → Bool)) → IsRunBy gives n s is vs → IsTrace gives n.gates n.flops (length vs) (at vs) }
    ensures run { (gives : GateValue Site → List Bool → Bool) (n : Netlist Site) (vs : List (Site → Bool)) → IsTrace gives n.gates n.flops (length vs) (at vs) → IsRunBy gives n (states n (at vs 0)) (map (λ v. map v n.inputs) vs) vs }
    ensures by_cycle { (gives : GateValue Site → List Bool → Bool) (n : Netlist Site) (v : ℕ → Site → Bool) (cycles : ℕ) → IsTrace gives n.gates n.flops cycles v
        → IsRunBy gives n (states n (v 0)) (map (λ c. map (v c) n.inputs) (range_with_len 0 cycles)) (map v (range_with_len 0 cycles)) }
{}

/// A named netlist whose gates have an order has, by sites, a run from every start under all inputs, and any two agree at each net in each cycle.
pub fn site_runs_exist()
    ensures some { (n : NamedValue) (gives : GateValue Site → List Bool → Bool) (s : List Bool) (is : List (List Bool)) → IsNamed n → HasOrder n.netlist.gates
        → length s ≡ length n.netlist.flops → AllByRecursion (λ i. length i ≡ length n.netlist.inputs) is → (vs : List (Site → Bool)) × IsRunBy gives (sited n).netlist s is vs }
    ensures one { (n : NamedValue) (gives : GateValue Site → List Bool → Bool) (s : List Bool) (is : List (List Bool)) (vs ws : List (Site → Bool)) → IsNamed n → HasOrder n.netlist.gates
        → IsRunBy gives (sited n).netlist s is vs → IsRunBy gives (sited n).netlist s is ws → (c net : ℕ) → net < length n.names → at vs c (site_of n net) ≡ at ws c (site_of n net) }
{}

/// And so by the names of texts.
pub fn design_runs_exist()
    ensures { (n : NamedValue) (gives : GateValue Bit → List Bool → Bool) (s : List Bool) (is : List (List Bool)) → IsNamed n → HasOrder n.netlist.gates
        → length s ≡ length n.netlist.flops → AllByRecursion (λ i. length i ≡ length n.netlist.inputs) is → (vs : List (Bit → Bool)) × IsRunBy gives (design_of n).netlist s is vs }
{}

/// A named netlist has an order exactly where its nets have, by sites, ranks that fall along gates; and nets with ranks form no cycle.
pub fn site_ranks_give_orders()
    ensures exactly { (n : NamedValue) → IsNamed n → HasRanks (sited n).netlist.gates ↔ HasOrder n.netlist.gates }
    ensures no_cycle { (gates : List (GateValue Site)) (nets : List Site) → HasRanks gates → IsCycle gates nets → ⊥ }
{}
