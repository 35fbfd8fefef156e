//! The table of cells.

ghost use Rattle.std.specs.Prelude.{◌≡◌, map};
ghost use Rattle.std.specs.Option.{option_map};
ghost use Rattle.std.specs.Map.{lookup};
ghost use Rattle.std.specs.Str.{bytes_eq};
ghost use Rattle.bb_fault.specs.Firsts.{first_answer};
ghost use Rattle.bb_scope.specs.Answers.{IsAnswer};
ghost use Rattle.bb_scope.specs.Cells.{kind_of, unknown_item};
ghost use Rattle.bb_scope.specs.Kinds.{kind_value, row_value};

use bb_base::Op;
use bb_fault::ElabFault;
use bb_parse::Item;
use std::alloc::Global;

/// What a cell is made of.
#[derive(Clone, Copy, Debug, PartialEq, Eq)]
pub enum Body {
    /// A flip-flop, from its clock and its data.
    FlipFlop,
    /// One gate.
    Gate(Op),
    /// Not of the second input, and then a gate of the first and it.
    SecondInverted(Op),
    /// The second input where the third is 1, and else the first.
    Choice,
}

/// A kind of cell: the pins that it reads, in the order in which its body takes them, the pin that it drives, its body, and its pins by place.
#[derive(Clone, Copy)]
pub struct Kind {
    pub ins: &'static [&'static [u8]],
    pub out: &'static [u8],
    pub body: Body,
    pub places: &'static [&'static [u8]],
}

/// A row of the table: a kind of cell and its name.
struct Row {
    name: &'static [u8],
    kind: Kind,
}

const KINDS: &[Row] = &[
    Row {
        name: b"dff",
        kind: Kind {
            ins: &[b"CK", b"D"],
            out: b"Q",
            body: Body::FlipFlop,
            places: &[b"CK", b"Q", b"D"],
        },
    },
    Row {
        name: b"$_DFF_P_",
        kind: Kind {
            ins: &[b"C", b"D"],
            out: b"Q",
            body: Body::FlipFlop,
            places: &[],
        },
    },
    Row {
        name: b"$_NOT_",
        kind: Kind {
            ins: &[b"A"],
            out: b"Y",
            body: Body::Gate(Op::Not),
            places: &[],
        },
    },
    Row {
        name: b"$_BUF_",
        kind: Kind {
            ins: &[b"A"],
            out: b"Y",
            body: Body::Gate(Op::Buf),
            places: &[],
        },
    },
    Row {
        name: b"$_AND_",
        kind: Kind {
            ins: &[b"A", b"B"],
            out: b"Y",
            body: Body::Gate(Op::And),
            places: &[],
        },
    },
    Row {
        name: b"$_OR_",
        kind: Kind {
            ins: &[b"A", b"B"],
            out: b"Y",
            body: Body::Gate(Op::Or),
            places: &[],
        },
    },
    Row {
        name: b"$_NAND_",
        kind: Kind {
            ins: &[b"A", b"B"],
            out: b"Y",
            body: Body::Gate(Op::Nand),
            places: &[],
        },
    },
    Row {
        name: b"$_NOR_",
        kind: Kind {
            ins: &[b"A", b"B"],
            out: b"Y",
            body: Body::Gate(Op::Nor),
            places: &[],
        },
    },
    Row {
        name: b"$_XOR_",
        kind: Kind {
            ins: &[b"A", b"B"],
            out: b"Y",
            body: Body::Gate(Op::Xor),
            places: &[],
        },
    },
    Row {
        name: b"$_XNOR_",
        kind: Kind {
            ins: &[b"A", b"B"],
            out: b"Y",
            body: Body::Gate(Op::Xnor),
            places: &[],
        },
    },
    Row {
        name: b"$_ANDNOT_",
        kind: Kind {
            ins: &[b"A", b"B"],
            out: b"Y",
            body: Body::SecondInverted(Op::And),
            places: &[],
        },
    },
    Row {
        name: b"$_ORNOT_",
        kind: Kind {
            ins: &[b"A", b"B"],
            out: b"Y",
            body: Body::SecondInverted(Op::Or),
            places: &[],
        },
    },
    Row {
        name: b"$_MUX_",
        kind: Kind {
            ins: &[b"A", b"B", b"S"],
            out: b"Y",
            body: Body::Choice,
            places: &[],
        },
    },
];

/// The kind in the row of this name.
fn kind_in(rows: &[Row], name: &[u8]) -> Option<Kind>
    ensures { option_map kind_value result ≡ lookup (bytes_eq name.now) (map row_value rows.now) }
{
    for row in rows {
        if name == row.name {
            return Some(row.kind);
        }
    }
    None
}

/// The kind of cell that a name stands for.
pub fn kind_of(name: &[u8]) -> Option<Kind>
    ensures { option_map kind_value result ≡ kind_of name.now }
{
    kind_in(KINDS, name)
}

/// The fault of the first cell that the table lacks.
pub fn unknown_cell(alloc: Global, items: &[Item]) -> Result<(), ElabFault>
    ensures { IsAnswer (first_answer unknown_item items.now) result }
{
    for item in items {
        if let Item::Cell {
            line: _,
            cell,
            conns: _,
        } = item
        {
            if kind_of(cell.bytes()).is_none() {
                return Err(ElabFault::UnknownCell {
                    name: cell.copy(alloc)?,
                    select: None,
                });
            }
        }
    }
    Ok(())
}
