//! The lines of a register at 64 states.

ghost use Rattle.std.specs.Prelude.{◌≡◌, ◌<◌, ◌≤◌, ℕ, length, All};
ghost use Rattle.bb_base.specs.Net.{driven};
ghost use Rattle.bb_base.specs.Bits.{from_bits};
ghost use Rattle.bb_terms.specs.Support.{StartExists};
ghost use Rattle.bb_eqn.specs.Values.{bits_at};
ghost use Rattle.bb_eqn.specs.Lanes.{lane, in_lane};
ghost use Rattle.bb_sign.specs.Compactors.{start_bit, line_word};

use bb_base::Netlist;
use bb_eqn::gate_word;
use bb_terms::Start;

/// The bits of a line, a lane a state.
fn line_of(netlist: &Netlist, start: Start, values: &[u64]) -> u64
    requires exists { StartExists netlist.now start }
    requires values { length values.now ≡ length (driven netlist.now) }
    ensures { (t : ℕ) → t < 64 → lane t result ≡ start_bit netlist.now.gates (bits_at (in_lane t values.now)) start }
{
    match start {
        Start::Net(net) => values[net.0 as usize],
        Start::Gate(number) => gate_word(&netlist.gates()[number as usize], values),
    }
}

/// The bits of some lines, a row a line. The rows behind them are 0.
pub(crate) fn rows_of(netlist: &Netlist, starts: &[Start], values: &[u64]) -> [u64; 16]
    requires few { length starts.now ≤ 16 }
    requires exist { All (StartExists netlist.now) starts.now }
    requires values { length values.now ≡ length (driven netlist.now) }
    ensures { (t : ℕ) → t < 64 → from_bits (in_lane t result) ≡ line_word netlist.now.gates (bits_at (in_lane t values.now)) starts.now }
{
    let mut rows = [0; 16];
    for (place, start) in starts.iter().enumerate() {
        rows[place] = line_of(netlist, *start, values);
    }
    rows
}
