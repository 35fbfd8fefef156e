//! Why a call is refused.

use bb_base::{LexFault, Name};
use bb_fault::ElabFault;
use bb_parse::ParseFault;

/// Why a text denotes no netlist.
#[derive(Drop)]
pub enum TextRefusal {
    /// It has more bytes than are read.
    TooLong,
    /// The first thing in it that is no token.
    Lex(LexFault),
    /// The first place in it at which no module goes on.
    Parse(ParseFault),
    /// Its module denotes no netlist.
    Elab(ElabFault),
}

/// Why there is no plan for a netlist, in the order in which it is tried. Nets have the names of the text, with the index of a vector's
/// bit.
#[derive(Drop)]
pub enum PlanRefusal {
    /// The first gate by number with more different inputs than the width, by the net that it drives.
    GateTooWide {
        name: Name,
        select: Option<u32>,
        inputs: u32,
        width: u32,
    },
    /// The complete register has fewer states than there are cells, at the highest degree.
    TooFewStates {
        max: u32,
        cells: u32,
    },
    /// The first source for which no column is left, at the highest degree.
    NoColumn {
        max: u32,
        name: Name,
        select: Option<u32>,
    },
    /// At the least degree a test takes more cycles than it may.
    TooManyCycles {
        limit: u64,
        needed: u64,
    },
    /// No mask of this length has full period: of the degree, or else of a register.
    NoFullPeriod {
        degree: u32,
    },
}

/// Why a file of a self-test is none: a schedule, a list of signatures or a certificate.
#[derive(Drop)]
pub enum FormRefusal {
    /// It has more bytes than are read.
    TooLong,
    /// The first line that isn't of the form.
    Line(u32),
}

/// Why a call is refused.
#[derive(Drop)]
pub enum Refusal {
    /// The input denotes no netlist.
    Input(TextRefusal),
    /// There is no plan for the input's netlist.
    Plan(PlanRefusal),
    /// The netlist with its self-test denotes none.
    Netlist(TextRefusal),
    Schedule(FormRefusal),
    Signatures(FormRefusal),
    Certificate(FormRefusal),
    /// The files break a rule: the first rule that they break, and the place at which they first do.
    Check { rule: u8, place: u32 },
}
