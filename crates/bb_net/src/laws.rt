//! Laws about named netlists, as contracts of functions without a body.

ghost use Rattle.std.specs.Prelude.{◌≡◌, ◌↔◌, ◌<◌, ◌≤◌, ℕ, List, Bool, map, length};
ghost use Rattle.bb_base.specs.Net.{Gate as GateValue, Netlist, renamed, renamed_gate};
ghost use Rattle.bb_base.specs.Run.{IsRunBy, at};
ghost use Rattle.bb_base.specs.Named.{Named as NamedValue, IsNamed, design_of, net_text};
ghost use Rattle.bb_base.specs.Variables.{Entry, bit_count};
ghost use Rattle.bb_net.specs.Sites.{Site, sited, site_of};

/// Nets of a named netlist differ by their sites, and by their names in texts.
pub fn sites_differ()
    ensures sites { (n : NamedValue) (net other : ℕ) → IsNamed n → net < length n.names → other < length n.names → site_of n net ≡ site_of n other → net ≡ other }
    ensures texts { (n : NamedValue) (net other : ℕ) → IsNamed n → net < length n.names → other < length n.names → net_text n net ≡ net_text n other → net ≡ other }
{}

/// A netlist has the same runs by sites, whatever its gates mean; and each run of a named netlist is one by sites.
pub fn runs_by_site()
    ensures any { (f : ℕ → Site) (gives : GateValue Site → List Bool → Bool) (n : Netlist ℕ) (s : List Bool) (is : List (List Bool)) (vs : List (Site → Bool))
        → IsRunBy gives (renamed f n) s is vs ↔ IsRunBy (λ g. gives (renamed_gate f g)) n s is (map (λ v net. v (f net)) vs) }
    ensures each { (n : NamedValue) (gives : GateValue Site → List Bool → Bool) (s : List Bool) (is : List (List Bool)) (ws : List (ℕ → Bool)) → IsNamed n
        → IsRunBy (λ g. gives (renamed_gate (site_of n) g)) n.netlist s is ws
        → (vs : List (Site → Bool)) × IsRunBy gives (sited n).netlist s is vs × ((c net : ℕ) → net < length n.names → at vs c (site_of n net) ≡ at ws c net) }
{}

/// Named netlists that are the same by sites are the same designs.
pub fn sites_are_designs()
    ensures { (a b : NamedValue) → sited a ≡ sited b → IsNamed a → IsNamed b → design_of a ≡ design_of b }
{}

/// A named netlist has no more nets, and no more variables, than its variables have bits; and no more inputs, gates or flip-flops than nets.
pub fn nets_are_bits()
    ensures nets { (n : NamedValue) → IsNamed n → length n.names ≤ bit_count n.variables }
    ensures variables { (variables : List Entry) → length variables ≤ bit_count variables }
    ensures inputs { (n : NamedValue) → IsNamed n → length n.netlist.inputs ≤ length n.names }
    ensures gates { (n : NamedValue) → IsNamed n → length n.netlist.gates ≤ length n.names }
    ensures flops { (n : NamedValue) → IsNamed n → length n.netlist.flops ≤ length n.names }
{}
