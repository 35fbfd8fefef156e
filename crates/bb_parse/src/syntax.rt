use crate::Sequence;
use bb_base::{Name, Op, Role};

/// A variable, or some bits of it: an index stands as a select from itself to itself.
#[derive(Drop)]
pub struct Ref {
    pub name: Name,
    pub select: Option<(u32, u32)>,
}

/// A step of an expression in postfix order: it puts a value behind those before it, or makes one of the last ones.
#[derive(Drop)]
pub enum Step {
    Ref(Ref),
    Const { size: u8, value: u128 },
    Not,
    And,
    Or,
    Xor,
    Xnor,
    /// Of the last three values the second where the first is true, else the third.
    Cond,
    /// The last so many values side by side.
    Join(u64),
    /// The last value so many times side by side.
    Repeat(u32),
}

/// An expression in postfix order.
pub type Expr = Sequence<Step>;

/// A name with its role, as a declaration or a header gives it.
#[derive(Drop)]
pub struct Decl {
    pub line: u32,
    pub role: Role,
    pub range: Option<(u32, u32)>,
    pub name: Name,
}

/// What an instance of a cell is connected to: terminals in order, or pins by name, of which some are open.
#[derive(Drop)]
pub enum Conns {
    Places(Sequence<Expr>),
    Pins(Sequence<(Name, Option<Expr>)>),
}

/// A declared name, an equation, a gate or an instance of a cell, with the line of its statement's first token.
#[derive(Drop)]
pub enum Item {
    Decl(Decl),
    Assign {
        line: u32,
        left: Sequence<Ref>,
        right: Expr,
    },
    Prim {
        line: u32,
        op: Op,
        terms: Sequence<Expr>,
    },
    Cell {
        line: u32,
        cell: Name,
        conns: Conns,
    },
}

/// The ports of a module: names alone, or with their directions.
#[derive(Drop)]
pub enum Header {
    Plain(Sequence<Name>),
    Ansi(Sequence<Decl>),
}

/// A module as it is written.
#[derive(Drop)]
pub struct Module {
    pub name: Name,
    pub header: Header,
    pub items: Sequence<Item>,
}
