//! Laws about runs, as contracts of functions without a body.

ghost use Rattle.std.specs.Prelude.{◌≡◌, ◌<◌, ℕ, List, Bool, length, map};
ghost use Rattle.std.specs.List.{AllByRecursion, range_with_len};
ghost use Rattle.bb_base.specs.Net.{Gate as GateValue, Netlist, driven, IsNetlist};
ghost use Rattle.bb_base.specs.Order.{HasOrder};
ghost use Rattle.bb_base.specs.Run.{SettlesBy, IsRunBy, IsTrace, at, states};

/// A netlist with an order has, for given bits of inputs and flip-flops, a valuation, and any two agree at each net.
pub fn one_valuation()
    ensures some { (gives : GateValue ℕ → List Bool → Bool) (n : Netlist ℕ) (i s : List Bool) → IsNetlist n → HasOrder n.gates → length i ≡ length n.inputs → length s ≡ length n.flops
        → (v : ℕ → Bool) × SettlesBy gives n i s v }
    ensures one { (gives : GateValue ℕ → List Bool → Bool) (n : Netlist ℕ) (i s : List Bool) (v w : ℕ → Bool) → IsNetlist n → HasOrder n.gates → SettlesBy gives n i s v → SettlesBy gives n i s w
        → (net : ℕ) → net < length (driven n) → v net ≡ w net }
{}

/// A netlist with an order has a run from every start under all inputs, and any two agree at each net in each cycle.
pub fn runs_exist()
    ensures some { (gives : GateValue ℕ → List Bool → Bool) (n : Netlist ℕ) (s : List Bool) (is : List (List Bool)) → IsNetlist n → HasOrder n.gates
        → length s ≡ length n.flops → AllByRecursion (λ i. length i ≡ length n.inputs) is → (vs : List (ℕ → Bool)) × IsRunBy gives n s is vs }
    ensures one { (gives : GateValue ℕ → List Bool → Bool) (n : Netlist ℕ) (s : List Bool) (is : List (List Bool)) (vs ws : List (ℕ → Bool)) → IsNetlist n → HasOrder n.gates
        → IsRunBy gives n s is vs → IsRunBy gives n s is ws → (c net : ℕ) → net < length (driven n) → at vs c net ≡ at ws c net }
{}

/// A run is a trace of its gates and flip-flops, and a trace is a run.
pub fn runs_are_traces()
    ensures trace { (gives : GateValue ℕ → List Bool → Bool) (n : Netlist ℕ) (s : List Bool) (is : List (List Bool)) (vs : List (ℕ → Bool)) → IsRunBy gives n s is vs → IsTrace gives n.gates n.flops (length vs) (at vs) }
    ensures run { (gives : GateValue ℕ → List Bool → Bool) (n : Netlist ℕ) (vs : List (ℕ → Bool)) → IsTrace gives n.gates n.flops (length vs) (at vs) → IsRunBy gives n (states n (at vs 0)) (map (λ v. map v n.inputs) vs) vs }
    ensures by_cycle { (gives : GateValue ℕ → List Bool → Bool) (n : Netlist ℕ) (v : ℕ → ℕ → Bool) (cycles : ℕ) → IsTrace gives n.gates n.flops cycles v
        → IsRunBy gives n (states n (v 0)) (map (λ c. map (v c) n.inputs) (range_with_len 0 cycles)) (map v (range_with_len 0 cycles)) }
{}
