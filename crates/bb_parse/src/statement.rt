ghost use Rattle.std.specs.Prelude.{◌≡◌, ◌∷◌};
ghost use Rattle.bb_parse.specs.StatementMoves.{begin_gates, read_keyword, read_items, read_left, read_more_lefts, read_equation, read_more_equations, read_gate, read_more_terms, read_more_gates, read_instance, read_conns, read_more_instances, read_pin_name, read_pin_value, read_pin_end, read_more_pins};
ghost use Rattle.bb_parse.specs.Machine.{after_move, Going};
ghost use Rattle.bb_parse.specs.Standing.{MovesTo};
ghost use Rattle.bb_parse.specs.Grammar.{gate_op};
ghost use Rattle.bb_parse.specs.Drafts.{begin_decl};
ghost use Rattle.bb_parse.specs.declared.symbol.Symbol.TheVariants.{MoreDecls, Items};

use crate::ParseFault;
use crate::reader::Reader;
use crate::symbol::{Place, Side, Symbol};
use bb_base::{Keyword, Mark, Op, Role, TokenKind};

// The operator of a gate's keyword.
fn gate_op(keyword: Keyword) -> Option<Op>
    ensures { result ≡ gate_op keyword }
{
    match keyword {
        Keyword::And => Some(Op::And),
        Keyword::Nand => Some(Op::Nand),
        Keyword::Or => Some(Op::Or),
        Keyword::Nor => Some(Op::Nor),
        Keyword::Xor => Some(Op::Xor),
        Keyword::Xnor => Some(Op::Xnor),
        Keyword::Not => Some(Op::Not),
        Keyword::Buf => Some(Op::Buf),
        _ => None,
    }
}

impl Reader {
    // The keyword that begins a statement, or ends the module.
    fn keyword(&mut self, keyword: Keyword, line: u32) -> Result<(), ParseFault>
        ensures { MovesTo result (after_move (read_keyword keyword line self.old.draft) self.old.pending line) self.new.pending self.new.draft }
    {
        match keyword {
            Keyword::Endmodule => Ok(()),
            Keyword::Input => self.decls(line, Role::Input, Symbol::Type(Place::Body)),
            Keyword::Output => self.decls(line, Role::Output, Symbol::Type(Place::Body)),
            Keyword::Wire => self.decls(line, Role::Wire, Symbol::Range(Place::Body)),
            Keyword::Assign => {
                self.draft.line = line;
                self.expect(&[Symbol::Equation, Symbol::MoreEquations, Symbol::Items])
            }
            _ => self.gates(gate_op(keyword), line),
        }
    }

    // Names of a role begin.
    fn decls(&mut self, line: u32, role: Role, first: Symbol) -> Result<(), ParseFault>
        ensures { MovesTo result (Going (first ∷ MoreDecls ∷ Items ∷ self.old.pending) (begin_decl line role self.old.draft)) self.new.pending self.new.draft }
    {
        self.draft.begin_decl(line, role);
        self.expect(&[first, Symbol::MoreDecls, Symbol::Items])
    }

    // Gates of an operator begin, where the keyword has one.
    fn gates(&mut self, op: Option<Op>, line: u32) -> Result<(), ParseFault>
        ensures { MovesTo result (after_move (begin_gates op line self.old.draft) self.old.pending line) self.new.pending self.new.draft }
    {
        let Some(op) = op else {
            return Err(ParseFault::Unreadable { line });
        };
        self.draft.line = line;
        self.draft.op = op;
        self.expect(&[Symbol::Gate, Symbol::MoreGates, Symbol::Items])
    }

    // A statement, or the end of the module.
    pub fn items(&mut self, kind: TokenKind, line: u32) -> Result<(), ParseFault>
        ensures { MovesTo result (after_move (read_items kind line self.old.draft) self.old.pending line) self.new.pending self.new.draft }
    {
        match kind {
            TokenKind::Key(keyword) => self.keyword(keyword, line),
            TokenKind::Name(name) => {
                self.draft.line = line;
                self.draft.cell = Some(name);
                self.expect(&[Symbol::Instance, Symbol::MoreInstances, Symbol::Items])
            }
            _ => Err(ParseFault::Unreadable { line }),
        }
    }

    // The left side of an equation.
    pub fn left(&mut self, kind: TokenKind, line: u32) -> Result<(), ParseFault>
        ensures { MovesTo result (after_move (read_left kind self.old.draft) self.old.pending line) self.new.pending self.new.draft }
    {
        match kind {
            TokenKind::Name(name) => {
                self.draft.word = Some(name);
                self.expect(&[Symbol::Select(Side::Left)])
            }
            TokenKind::Mark(Mark::LeftBrace) => self.expect(&[Symbol::Left, Symbol::MoreLefts]),
            _ => Err(ParseFault::Unreadable { line }),
        }
    }

    // More targets in braces.
    pub fn more_lefts(&mut self, kind: TokenKind, line: u32) -> Result<(), ParseFault>
        ensures { MovesTo result (after_move (read_more_lefts kind self.old.draft) self.old.pending line) self.new.pending self.new.draft }
    {
        match kind {
            TokenKind::Mark(Mark::Comma) => self.expect(&[Symbol::Left, Symbol::MoreLefts]),
            TokenKind::Mark(Mark::RightBrace) => Ok(()),
            _ => Err(ParseFault::Unreadable { line }),
        }
    }

    // An equation.
    pub fn equation(&mut self, kind: TokenKind, line: u32) -> Result<(), ParseFault>
        ensures { MovesTo result (after_move (read_equation kind self.old.draft) self.old.pending line) self.new.pending self.new.draft }
    {
        self.expect(&[Symbol::Mark(Mark::Equals), Symbol::Expr])?;
        self.left(kind, line)
    }

    // More equations, or the end of the statement.
    pub fn more_equations(&mut self, kind: TokenKind, line: u32) -> Result<(), ParseFault>
        ensures { MovesTo result (after_move (read_more_equations kind self.old.draft) self.old.pending line) self.new.pending self.new.draft }
    {
        match kind {
            TokenKind::Mark(Mark::Comma) => {
                self.draft.equation_done(self.alloc)?;
                self.expect(&[Symbol::Equation, Symbol::MoreEquations])
            }
            TokenKind::Mark(Mark::Semicolon) => {
                self.draft.equation_done(self.alloc)?;
                Ok(())
            }
            _ => Err(ParseFault::Unreadable { line }),
        }
    }

    // A gate, whose name may be left out.
    pub fn gate(&mut self, kind: TokenKind, line: u32) -> Result<(), ParseFault>
        ensures { MovesTo result (after_move (read_gate kind self.old.draft) self.old.pending line) self.new.pending self.new.draft }
    {
        match kind {
            TokenKind::Name(_) => self.expect(&[
                Symbol::Mark(Mark::LeftParen),
                Symbol::Expr,
                Symbol::MoreTerms,
            ]),
            TokenKind::Mark(Mark::LeftParen) => self.expect(&[Symbol::Expr, Symbol::MoreTerms]),
            _ => Err(ParseFault::Unreadable { line }),
        }
    }

    // More terminals, or their end.
    pub fn more_terms(&mut self, kind: TokenKind, line: u32) -> Result<(), ParseFault>
        ensures { MovesTo result (after_move (read_more_terms kind self.old.draft) self.old.pending line) self.new.pending self.new.draft }
    {
        match kind {
            TokenKind::Mark(Mark::Comma) => {
                self.draft.term_done(self.alloc)?;
                self.expect(&[Symbol::Expr, Symbol::MoreTerms])
            }
            TokenKind::Mark(Mark::RightParen) => {
                self.draft.term_done(self.alloc)?;
                Ok(())
            }
            _ => Err(ParseFault::Unreadable { line }),
        }
    }

    // More gates, or the end of the statement.
    pub fn more_gates(&mut self, kind: TokenKind, line: u32) -> Result<(), ParseFault>
        ensures { MovesTo result (after_move (read_more_gates kind self.old.draft) self.old.pending line) self.new.pending self.new.draft }
    {
        match kind {
            TokenKind::Mark(Mark::Comma) => {
                self.draft.gate_done(self.alloc)?;
                self.expect(&[Symbol::Gate, Symbol::MoreGates])
            }
            TokenKind::Mark(Mark::Semicolon) => {
                self.draft.gate_done(self.alloc)?;
                Ok(())
            }
            _ => Err(ParseFault::Unreadable { line }),
        }
    }

    // An instance of a cell, whose name must stand.
    pub fn instance(&mut self, kind: TokenKind, line: u32) -> Result<(), ParseFault>
        ensures { MovesTo result (after_move (read_instance kind self.old.draft) self.old.pending line) self.new.pending self.new.draft }
    {
        match kind {
            TokenKind::Name(_) => self.expect(&[Symbol::Mark(Mark::LeftParen), Symbol::Conns]),
            _ => Err(ParseFault::Unreadable { line }),
        }
    }

    // What follows the `(` of an instance: pins, or terminals.
    pub fn conns(&mut self, kind: TokenKind, line: u32) -> Result<(), ParseFault>
        ensures { MovesTo result (after_move (read_conns kind self.old.draft) self.old.pending line) self.new.pending self.new.draft }
    {
        match kind {
            TokenKind::Mark(Mark::RightParen) => Ok(()),
            TokenKind::Mark(Mark::Dot) => self.expect(&[
                Symbol::PinName,
                Symbol::Mark(Mark::LeftParen),
                Symbol::PinValue,
                Symbol::MorePins,
            ]),
            kind => {
                self.expect(&[Symbol::MoreTerms])?;
                self.expr(kind, line)
            }
        }
    }

    // More instances, or the end of the statement.
    pub fn more_instances(&mut self, kind: TokenKind, line: u32) -> Result<(), ParseFault>
        ensures { MovesTo result (after_move (read_more_instances kind self.old.draft) self.old.pending line) self.new.pending self.new.draft }
    {
        match kind {
            TokenKind::Mark(Mark::Comma) => {
                self.draft.instance_done(self.alloc)?;
                self.expect(&[Symbol::Instance, Symbol::MoreInstances])
            }
            TokenKind::Mark(Mark::Semicolon) => {
                self.draft.instance_done(self.alloc)?;
                Ok(())
            }
            _ => Err(ParseFault::Unreadable { line }),
        }
    }

    // The name of a pin.
    pub fn pin_name(&mut self, kind: TokenKind, line: u32) -> Result<(), ParseFault>
        ensures { MovesTo result (after_move (read_pin_name kind self.old.draft) self.old.pending line) self.new.pending self.new.draft }
    {
        match kind {
            TokenKind::Name(name) => {
                self.draft.pin = Some(name);
                Ok(())
            }
            _ => Err(ParseFault::Unreadable { line }),
        }
    }

    // The value of a pin, or none.
    pub fn pin_value(&mut self, kind: TokenKind, line: u32) -> Result<(), ParseFault>
        ensures { MovesTo result (after_move (read_pin_value kind self.old.draft) self.old.pending line) self.new.pending self.new.draft }
    {
        match kind {
            TokenKind::Mark(Mark::RightParen) => {
                self.draft.open_pin_done(self.alloc)?;
                Ok(())
            }
            kind => {
                self.expect(&[Symbol::PinEnd])?;
                self.expr(kind, line)
            }
        }
    }

    // The end of a pin with a value.
    pub fn pin_end(&mut self, kind: TokenKind, line: u32) -> Result<(), ParseFault>
        ensures { MovesTo result (after_move (read_pin_end kind self.old.draft) self.old.pending line) self.new.pending self.new.draft }
    {
        match kind {
            TokenKind::Mark(Mark::RightParen) => {
                self.draft.pin_done(self.alloc)?;
                Ok(())
            }
            _ => Err(ParseFault::Unreadable { line }),
        }
    }

    // More pins, or their end.
    pub fn more_pins(&mut self, kind: TokenKind, line: u32) -> Result<(), ParseFault>
        ensures { MovesTo result (after_move (read_more_pins kind self.old.draft) self.old.pending line) self.new.pending self.new.draft }
    {
        match kind {
            TokenKind::Mark(Mark::Comma) => self.expect(&[
                Symbol::Mark(Mark::Dot),
                Symbol::PinName,
                Symbol::Mark(Mark::LeftParen),
                Symbol::PinValue,
                Symbol::MorePins,
            ]),
            TokenKind::Mark(Mark::RightParen) => Ok(()),
            _ => Err(ParseFault::Unreadable { line }),
        }
    }
}
