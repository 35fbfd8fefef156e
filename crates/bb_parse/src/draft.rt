ghost use Rattle.std.specs.Prelude.{◌≡◌, ◌∷◌, ◌++◌, [], OnOk, IfOk, Some, None};
ghost use Rattle.bb_parse.specs.Machine.{whole};
ghost use Rattle.bb_parse.specs.Drafts.{no_draft, put, made_step, ref_done, begin_decl, declare, equation_done, term_done, gate_done, instance_done, open_pin_done, pin_done, conns_by, header_by, module_by};

use crate::symbol::{Made, Place, Side};
use crate::{Conns, Decl, Expr, Header, Item, Module, ParseFault, Ref, Sequence, Step};
use bb_base::{Name, Op, Role};
use std::alloc::{AllocError, Global};
use std::mem;

/// The module so far, and the parts of the statement that has begun.
#[derive(Drop)]
pub(crate) struct Draft {
    pub name: Option<Name>,
    pub names: Sequence<Name>,
    pub ports: Sequence<Decl>,
    pub items: Sequence<Item>,
    /// The line of the statement's first token, or of `module`.
    pub line: u32,
    pub role: Role,
    pub range: Option<(u32, u32)>,
    pub op: Op,
    pub cell: Option<Name>,
    /// The name of a reference whose select may follow.
    pub word: Option<Name>,
    /// The name of a pin whose value may follow.
    pub pin: Option<Name>,
    pub left: Sequence<Ref>,
    /// The steps of the expression. Most have one, so a new list has room for one.
    pub steps: Expr,
    pub terms: Sequence<Expr>,
    pub pins: Sequence<(Name, Option<Expr>)>,
}

fn made_step(made: Made) -> Step
    ensures { result ≡ made_step made }
{
    match made {
        Made::Not => Step::Not,
        Made::And => Step::And,
        Made::Or => Step::Or,
        Made::Xor => Step::Xor,
        Made::Xnor => Step::Xnor,
        Made::Cond => Step::Cond,
    }
}

// An instance without terminals has pins, none at least.
fn conns_by(terms: Sequence<Expr>, pins: Sequence<(Name, Option<Expr>)>) -> Conns
    ensures { result ≡ conns_by terms pins }
{
    if terms.as_slice().is_empty() {
        Conns::Pins(pins)
    } else {
        Conns::Places(terms)
    }
}

// A header with directions has a port.
fn header_by(names: Sequence<Name>, ports: Sequence<Decl>) -> Header
    ensures { result ≡ header_by names ports }
{
    if ports.as_slice().is_empty() {
        Header::Plain(names)
    } else {
        Header::Ansi(ports)
    }
}

impl Draft {
    /// Nothing yet.
    pub fn new(alloc: Global) -> Draft
        ensures { result ≡ no_draft }
    {
        Draft {
            name: None,
            names: Sequence::new(alloc),
            ports: Sequence::new(alloc),
            items: Sequence::new(alloc),
            line: 0,
            role: Role::Wire,
            range: None,
            op: Op::Buf,
            cell: None,
            word: None,
            pin: None,
            left: Sequence::new(alloc),
            steps: Sequence::new(alloc),
            terms: Sequence::new(alloc),
            pins: Sequence::new(alloc),
        }
    }

    /// The module, where it has a name; else the text ends in this line.
    pub fn whole(self, line: u32) -> Result<Module, ParseFault>
        ensures { result ≡ whole self.name self line }
    {
        let Draft {
            name,
            names,
            ports,
            items,
            ..
        } = self;
        match name {
            Some(name) => Ok(Module {
                name,
                header: header_by(names, ports),
                items,
            }),
            None => Err(ParseFault::Unreadable { line }),
        }
    }

    /// One more step of the expression.
    pub fn put(&mut self, step: Step) -> Result<(), AllocError>
        ensures { OnOk result (self.new ≡ put self.old (step ∷ [])) }
    {
        self.steps.push(step)
    }

    /// The step of an operator whose operands are complete.
    pub fn put_made(&mut self, made: Made) -> Result<(), AllocError>
        ensures { OnOk result (self.new ≡ put self.old (made_step made ∷ [])) }
    {
        self.put(made_step(made))
    }

    /// A reference is complete.
    pub fn ref_done(&mut self, side: Side, select: Option<(u32, u32)>) -> Result<(), AllocError>
        ensures { OnOk result (self.new ≡ ref_done side select self.old) }
    {
        let Some(name) = self.word.take() else {
            return Ok(());
        };
        match side {
            Side::Left => self.left.push(Ref { name, select }),
            Side::Right => self.steps.push(Step::Ref(Ref { name, select })),
        }
    }

    /// Names of a role begin.
    pub fn begin_decl(&mut self, line: u32, role: Role)
        ensures { self.new ≡ begin_decl line role self.old }
    {
        self.line = line;
        self.role = role;
        self.range = None;
    }

    /// One more name of the role and the range.
    pub fn declare(&mut self, place: Place, name: Name) -> Result<(), AllocError>
        ensures { OnOk result (self.new ≡ declare place name self.old) }
    {
        let decl = Decl {
            line: self.line,
            role: self.role,
            range: self.range,
            name,
        };
        match place {
            Place::Header => self.ports.push(decl),
            Place::Body => self.items.push(Item::Decl(decl)),
        }
    }

    /// An equation is complete.
    pub fn equation_done(&mut self, alloc: Global) -> Result<(), AllocError>
        ensures { OnOk result (self.new ≡ equation_done self.old) }
    {
        let line = self.line;
        let left = mem::replace(&mut self.left, Sequence::new(alloc));
        let right = mem::replace(&mut self.steps, Sequence::with_room(alloc)?);
        self.items.push(Item::Assign { line, left, right })
    }

    /// A terminal is complete.
    pub fn term_done(&mut self, alloc: Global) -> Result<(), AllocError>
        ensures { OnOk result (self.new ≡ term_done self.old) }
    {
        let term = mem::replace(&mut self.steps, Sequence::with_room(alloc)?);
        self.terms.push(term)
    }

    /// A gate is complete.
    pub fn gate_done(&mut self, alloc: Global) -> Result<(), AllocError>
        ensures { OnOk result (self.new ≡ gate_done self.old) }
    {
        let (line, op) = (self.line, self.op);
        let terms = mem::replace(&mut self.terms, Sequence::new(alloc));
        self.items.push(Item::Prim { line, op, terms })
    }

    /// An instance of a cell is complete.
    pub fn instance_done(&mut self, alloc: Global) -> Result<(), AllocError>
        ensures { OnOk result (self.new ≡ instance_done self.old) }
    {
        let line = self.line;
        let cell = match &self.cell {
            Some(cell) => cell.copy(alloc)?,
            None => return Ok(()),
        };
        let terms = mem::replace(&mut self.terms, Sequence::new(alloc));
        let pins = mem::replace(&mut self.pins, Sequence::new(alloc));
        let conns = conns_by(terms, pins);
        self.items.push(Item::Cell { line, cell, conns })
    }

    /// A pin is complete that stays open.
    pub fn open_pin_done(&mut self, alloc: Global) -> Result<(), AllocError>
        ensures { OnOk result (self.new ≡ open_pin_done self.old) }
    {
        let Some(name) = self.pin.take() else {
            return Ok(());
        };
        self.steps = Sequence::with_room(alloc)?;
        self.pins.push((name, None))
    }

    /// A pin with an expression is complete.
    pub fn pin_done(&mut self, alloc: Global) -> Result<(), AllocError>
        ensures { OnOk result (self.new ≡ pin_done self.old) }
    {
        let Some(name) = self.pin.take() else {
            return Ok(());
        };
        let value = mem::replace(&mut self.steps, Sequence::with_room(alloc)?);
        self.pins.push((name, Some(value)))
    }
}
