//! Laws about what is woven, as contracts of functions without a body.

ghost use Rattle.std.specs.Prelude.{◌≡◌, ◌≤◌, ◌+◌, ◌*◌, ℕ, length};
ghost use Rattle.bb_base.specs.Variables.{bit_count};
ghost use Rattle.bb_base.specs.Net.{Netlist, IsNetlist, driven};
ghost use Rattle.bb_base.specs.Named.{Named, IsNamed};
ghost use Rattle.bb_terms.specs.Plan.{PlanValue, chain};
ghost use Rattle.bb_terms.specs.Rules.{Holds, Registers, Kinds, Apart, Sessions};
ghost use Rattle.bb_terms.specs.Valid.{IsValidPlan};
ghost use Rattle.bb_written.specs.Written.{inner_wires, written_variables};
ghost use Rattle.bb_weave.specs.Room.{cell_wires, register_wires, controller_wires};

/// How many wires a self-test adds, exactly and at most, and how many bits the written netlist then has.
///
/// A net has one cell, or a Split and a Watch cell, so cells and registers add at most 23 wires a net, whatever the degree (`by_nets`).
/// A netlist may have 64 units of 2,097,152 bits, and an original has at most one: with its cells and registers it takes at most 24
/// units, and its sessions take 5 (`bits`). With a degree of at most 20 all of it is less than 16 units (`room`).
pub fn added_wires_are_few()
    ensures count { (a : Netlist ℕ) (p : PlanValue) → length (inner_wires a p) ≡ controller_wires p + (register_wires p + cell_wires p) }
    ensures most { (p : PlanValue) → register_wires p + cell_wires p ≤ 10 * length p.registers + 9 * length (chain p) }
    ensures by_nets { (a : Netlist ℕ) (p : PlanValue) → IsNetlist a → Holds a p Registers → Holds a p Kinds → Holds a p Apart → Holds a p Sessions
        → register_wires p + cell_wires p ≤ 23 * length (driven a) }
    ensures bits { (a : Named) (p : PlanValue) → IsNamed a → IsValidPlan a.netlist p
        → bit_count (written_variables a p) ≤ 24 * bit_count a.variables + 5 * length p.sessions + 2 * p.degree + 25 }
    ensures room { (a : Named) (p : PlanValue) → IsNamed a → IsValidPlan a.netlist p → bit_count a.variables ≤ 2097152
        → bit_count (written_variables a p) ≤ 31 * 1048576 + 65 }
{}
