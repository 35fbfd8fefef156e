//! Where the lines of cells start.

ghost use Rattle.std.specs.Prelude.{◌≡◌, ◌≤◌, ℕ, true, All, Some, IfOk};
ghost use Rattle.std.specs.List.{AllZip};
ghost use Rattle.bb_base.specs.Net.{IsNetlist};
ghost use Rattle.bb_terms.specs.Paths.{Start as PlainStart};
ghost use Rattle.bb_terms.specs.Support.{start_in, StartExists};
ghost use Rattle.bb_terms.specs.Kinds.{is_observer};
ghost use Rattle.bb_terms.specs.Lines.{IsStart};
ghost use Rattle.bb_terms.specs.Rules.{Fits};
ghost use Rattle.bb_sign.specs.Compactors.{IsLineStart};

use bb_base::{Driver, Netlist};
use bb_terms::{Cell, Start};
use std::alloc::{AllocError, Global};

/// Where the walk back from an observer starts: at the d of its flip-flop, or behind the gate of its net.
fn start_of(netlist: &Netlist, cell: Cell) -> Start
    requires netlist { IsNetlist netlist.now }
    requires fits { Fits netlist.now cell }
    requires observer { is_observer cell.kind ≡ true }
    ensures exists { StartExists netlist.now result }
    ensures begins { (from : PlainStart ℕ) → start_in netlist.now.gates result ≡ Some from → IsStart netlist.now cell from }
{
    match netlist.driver(cell.net) {
        Driver::Flop(number) => {
            let flop = &netlist.flops()[number as usize];
            Start::Net(flop.d)
        }
        Driver::Gate(number) => Start::Gate(number),
        Driver::Input(_) => unreachable!(),
    }
}

/// Where the lines of observers start, in their order.
pub(crate) fn starts_of(
    alloc: Global,
    netlist: &Netlist,
    cells: &[Cell],
) -> Result<Vec<Start>, AllocError>
    requires netlist { IsNetlist netlist.now }
    requires fits { All (Fits netlist.now) cells.now }
    requires observers { All (λ c. is_observer c.kind ≡ true) cells.now }
    ensures { IfOk result (λ starts. AllZip (IsLineStart netlist.now) cells.now starts.items) }
{
    let mut starts = Vec::new(alloc);
    'cells: for cell in cells {
        starts.push(start_of(netlist, *cell))?;
    }
    Ok(starts)
}
