//! A plan is chosen where there is room for one: laws, as contracts of functions without a body.

ghost use Rattle.std.specs.Prelude.{◌≡◌, ◌≤◌, ℕ, List, [], ◌∷◌};
ghost use Rattle.bb_base.specs.Net.{Netlist, IsNetlist};
ghost use Rattle.bb_terms.specs.Cuts.{IsFirstWide};
ghost use Rattle.bb_code.specs.declared.fault.Need.{Need};
ghost use Rattle.bb_rules.specs.Half.{half};
ghost use Rattle.bb_reg.specs.Chosen.{GroupedValue};
ghost use Rattle.bb_words.specs.declared.command.Settings.{Settings};
ghost use Rattle.bb_choose.specs.Arranged.{AreInRange, IsArranged};
ghost use Rattle.bb_choose.specs.Choice.{OfArranged, LacksDegree, LacksCycles, LacksMask};
ghost use Rattle.bb_choose.specs.Enough.{IsEnough};

/// The registers of a netlist are chosen in one way.
pub fn one_arrangement()
    ensures { (a : Netlist ℕ) (order : List ℕ) (settings : Settings) (one other : GroupedValue) → IsNetlist a
        → IsArranged a order settings one → IsArranged a order settings other → one ≡ other }
{}

/// Where there is room for a plan, no refusal of `choose` has its cause: it answers a plan, or runs out of memory.
pub fn enough_is_chosen()
    ensures gate { (a : Netlist ℕ) (order : List ℕ) (settings : Settings) (gate inputs : ℕ) → IsEnough a order settings
        → IsFirstWide a.gates settings.width gate inputs → ⊥ }
    ensures degree { (a : Netlist ℕ) (order : List ℕ) (settings : Settings) (max : ℕ) (need : Need) → IsNetlist a → AreInRange settings
        → IsEnough a order settings → OfArranged a order settings (λ grouped. LacksDegree settings grouped max need) → ⊥ }
    ensures limit { (a : Netlist ℕ) (order : List ℕ) (settings : Settings) (needed limit : ℕ) → IsNetlist a → AreInRange settings
        → IsEnough a order settings → OfArranged a order settings (λ grouped. LacksCycles settings grouped needed limit) → ⊥ }
    ensures period { (a : Netlist ℕ) (order : List ℕ) (settings : Settings) (cells : ℕ) → IsNetlist a → AreInRange settings
        → IsEnough a order settings → OfArranged a order settings (λ grouped. LacksMask settings grouped cells) → ⊥ }
{}

/// The half adder has room at degree 3, so from 17 cycles on.
pub fn half_has_room()
    ensures { (settings : Settings) → AreInRange settings → settings.min_degree ≤ 3 → 3 ≤ settings.max_degree → 17 ≤ settings.max_cycles
        → settings.register ≡ 8 → IsEnough half (0 ∷ 1 ∷ []) settings }
{}
