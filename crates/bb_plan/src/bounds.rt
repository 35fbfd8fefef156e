// The rules of single numbers: the frame of a plan, its registers by themselves, the room for its cells, and the walk of its
// complete register.

ghost use Rattle.std.specs.Prelude.{◌≡◌, ◌↔◌, ◌≤◌, ℕ, IsTrue};
ghost use Rattle.bb_base.specs.Net.{Netlist};
ghost use Rattle.bb_terms.specs.Register.{IsMask};
ghost use Rattle.bb_terms.specs.Plan.{chain};
ghost use Rattle.bb_terms.specs.Rules.{IsFrame, IsRegister, Frame, Registers, Room, Period};
ghost use Rattle.bb_plan.specs.Answers.{IsVerdict};

use bb_gf2::walk;
use bb_terms::{Cell, Plan, Register};

/// Rule 1: the width is 1 to 12, the degree 1 to 20, and the mask's last tap is the complete register's last bit. The place is 0.
pub fn frame(plan: &Plan) -> Option<u64>
    ensures { (a : Netlist ℕ) → IsVerdict a plan.now Frame result }
{
    if is_frame(plan) {
        return None;
    }
    Some(0)
}

fn is_frame(plan: &Plan) -> bool
    ensures { IsTrue result ↔ IsFrame plan.now }
{
    if plan.width < 1 || plan.width > 12 {
        return false;
    }
    if plan.degree < 1 || plan.degree > 20 {
        return false;
    }
    is_mask(plan.degree, plan.mask)
}

/// Whether a mask fits a register of so many bits.
fn is_mask(bits: u32, mask: u32) -> bool
    requires some { 1 ≤ bits }
    requires few { bits ≤ 20 }
    ensures { IsTrue result ↔ IsMask bits mask }
{
    if mask < 1u32 << (bits - 1) {
        return false;
    }
    mask < 1u32 << bits
}

/// Rule 2: a register has 1 to 16 cells, and its mask's last tap is its last cell. The place is the register.
pub fn registers(plan: &Plan) -> Option<u64>
    ensures { (a : Netlist ℕ) → IsVerdict a plan.now Registers result }
{
    'registers: for (place, register) in plan.registers.iter().enumerate() {
        if !is_register(register) {
            return Some(place as u64);
        }
    }
    None
}

fn is_register(register: &Register) -> bool
    ensures { IsTrue result ↔ IsRegister register.now }
{
    let cells = register.cells.len();
    if cells < 1 || cells > 16 {
        return false;
    }
    is_mask(cells as u32, register.mask)
}

/// Rule 9: there are no more cells than states of the complete register. The place is the number of cells.
pub fn room(plan: &Plan, cells: &[Cell]) -> Option<u64>
    requires frame { IsFrame plan.now }
    requires chain { cells.now ≡ chain plan.now }
    ensures { (a : Netlist ℕ) → IsVerdict a plan.now Room result }
{
    let count = cells.len() as u64;
    if count <= 1u64 << plan.degree {
        return None;
    }
    Some(count)
}

/// Rule 14: the walk of the complete register from 0 meets every state. The place is the number of steps until it is back.
pub fn period(plan: &Plan) -> Option<u64>
    requires { IsFrame plan.now }
    ensures { (a : Netlist ℕ) → IsVerdict a plan.now Period result }
{
    match walk(plan.degree, plan.mask) {
        Ok(_) => None,
        Err(short) => Some(u64::from(short.steps)),
    }
}
