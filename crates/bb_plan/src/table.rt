// Tables by net: the outputs, and the kinds of the cells on each net.

ghost use Rattle.std.specs.Prelude.{◌≡◌, ◌||◌, ◌<◌, ℕ, false, length, All, IfOk, get_or, nat_eq};
ghost use Rattle.std.specs.List.{list_any};
ghost use Rattle.bb_plan.specs.Tables.{AreOutputs, AreStanding, with_kind, meets};

use bb_base::{NetId, Netlist};
use bb_terms::{Cell, Kind};
use std::alloc::{AllocError, Global};

/// The kinds of the cells on a net.
#[derive(Clone, Copy)]
pub(crate) struct OnNet {
    pub(crate) input: bool,
    pub(crate) state: bool,
    pub(crate) split: bool,
    pub(crate) cut: bool,
    pub(crate) watch: bool,
    pub(crate) output: bool,
}

/// A net without cells.
pub(crate) const BLANK: OnNet = OnNet {
    input: false,
    state: false,
    split: false,
    cut: false,
    watch: false,
    output: false,
};

impl OnNet {
    /// The same with a cell of this kind more.
    pub(crate) fn with(mut self, kind: Kind) -> OnNet
        ensures { result ≡ with_kind self kind }
    {
        match kind {
            Kind::Input => self.input = true,
            Kind::State => self.state = true,
            Kind::Split => self.split = true,
            Kind::Cut => self.cut = true,
            Kind::Watch => self.watch = true,
            Kind::Output => self.output = true,
        }
        self
    }

    /// Whether a cell of this kind would be a second source, a second observer of a d, or a second observer of the net.
    pub(crate) fn meets(self, kind: Kind) -> bool
        ensures { result ≡ meets self kind }
    {
        let source = self.input || self.state || self.split || self.cut;
        let d = self.state || self.watch;
        let net = self.cut || self.output;
        kind.is_source() && source || kind.takes_d() && d || kind.takes_net() && net
    }
}

/// A mark at each output.
pub(crate) fn output_marks(alloc: Global, netlist: &Netlist) -> Result<Vec<bool>, AllocError>
    ensures { IfOk result (λ marks. AreOutputs netlist.now marks.items) }
{
    let mut marks = vec![in alloc; false; netlist.nets() as usize]?;
    mark_nets(&mut marks, netlist.outputs());
    Ok(marks)
}

fn mark_nets(marks: &mut [bool], nets: &[NetId])
    requires { All (λ net. net < length marks.old) nets.now }
    ensures long { length marks.new ≡ length marks.old }
    ensures each { (net : ℕ) → net < length marks.old → get_or marks.new net false ≡ (get_or marks.old net false || list_any (nat_eq net) nets.now) }
{
    'nets: for net in nets {
        marks[net.0 as usize] = true;
    }
}

/// For each of so many nets the kinds of the cells on it. Cells on other nets count for nothing.
pub(crate) fn standing(alloc: Global, nets: u32, cells: &[Cell]) -> Result<Vec<OnNet>, AllocError>
    ensures { IfOk result (λ table. AreStanding nets cells.now table.items) }
{
    let mut table = vec![in alloc; BLANK; nets as usize]?;
    'cells: for cell in cells {
        let net = cell.net.0 as usize;
        if net < table.len() {
            table[net] = table[net].with(cell.kind);
        }
    }
    Ok(table)
}
