ghost use Rattle.std.specs.Prelude.{◌≡◌, ◌∷◌};
ghost use Rattle.bb_parse.specs.declared.symbol.Symbol.TheVariants.{Unary, Put, Ands, Xors};
ghost use Rattle.bb_parse.specs.ExpressionMoves.{read_unary, read_expr, read_operators, read_braced, read_joined, read_repeat_end, read_ands, read_xors, read_ors, read_choice, read_select, read_select_from, read_select_to, read_select_last, read_select_end};
ghost use Rattle.bb_parse.specs.Machine.{Going, after_move};
ghost use Rattle.bb_parse.specs.Standing.{MovesTo};

use crate::reader::Reader;
use crate::symbol::{Made, Side, Symbol};
use crate::{ParseFault, Step};
use bb_base::{Mark, TokenKind};

impl Reader {
    // An operand with its prefixes.
    pub fn unary(&mut self, kind: TokenKind, line: u32) -> Result<(), ParseFault>
        ensures { MovesTo result (after_move (read_unary kind self.old.draft) self.old.pending line) self.new.pending self.new.draft }
    {
        match kind {
            TokenKind::Mark(Mark::Tilde) => self.expect(&[Symbol::Unary, Symbol::Put(Made::Not)]),
            TokenKind::Name(name) => {
                self.draft.word = Some(name);
                self.expect(&[Symbol::Select(Side::Right)])
            }
            TokenKind::Const { size, value } => {
                self.draft.put(Step::Const { size, value })?;
                Ok(())
            }
            TokenKind::Mark(Mark::LeftParen) => self.expect(&[
                Symbol::Expr,
                Symbol::Mark(Mark::RightParen),
            ]),
            TokenKind::Mark(Mark::LeftBrace) => self.expect(&[Symbol::Braced]),
            _ => Err(ParseFault::Unreadable { line }),
        }
    }

    // An expression: an operand, and what may follow it.
    pub fn expr(&mut self, kind: TokenKind, line: u32) -> Result<(), ParseFault>
        ensures { MovesTo result (after_move (read_expr kind self.old.draft) self.old.pending line) self.new.pending self.new.draft }
    {
        self.expect(&[Symbol::Operators])?;
        self.unary(kind, line)
    }

    // The first operator behind an operand, as if the symbols of all stood here.
    pub fn operators(&mut self, kind: TokenKind, line: u32) -> Result<(), ParseFault>
        ensures { MovesTo result (after_move (read_operators kind self.old.draft) self.old.pending line) self.new.pending self.new.draft }
    {
        match &kind {
            TokenKind::Mark(Mark::Amp) => {
                self.expect(&[Symbol::Xors, Symbol::Ors, Symbol::Choice])?;
                self.ands(kind, line)
            }
            TokenKind::Mark(Mark::Caret | Mark::TildeCaret | Mark::CaretTilde) => {
                self.expect(&[Symbol::Ors, Symbol::Choice])?;
                self.xors(kind, line)
            }
            TokenKind::Mark(Mark::Bar) => {
                self.expect(&[Symbol::Choice])?;
                self.ors(kind, line)
            }
            _ => self.choice(kind, line),
        }
    }

    // What follows the `{` of an operand: a repeat, or expressions.
    pub fn braced(&mut self, kind: TokenKind, line: u32) -> Result<(), ParseFault>
        ensures { MovesTo result (after_move (read_braced kind self.old.draft) self.old.pending line) self.new.pending self.new.draft }
    {
        match kind {
            TokenKind::Number(0) => Err(ParseFault::Unreadable { line }),
            TokenKind::Number(times) => self.expect(&[
                Symbol::Mark(Mark::LeftBrace),
                Symbol::Expr,
                Symbol::Joined(1),
                Symbol::RepeatEnd(times),
            ]),
            kind => {
                self.expect(&[Symbol::Joined(1)])?;
                self.expr(kind, line)
            }
        }
    }

    // More expressions behind so many in braces, or their end. More than a `u64` counts fit into no memory.
    pub fn joined(&mut self, count: u64, kind: TokenKind, line: u32) -> Result<(), ParseFault>
        ensures { MovesTo result (after_move (read_joined count kind self.old.draft) self.old.pending line) self.new.pending self.new.draft }
    {
        match kind {
            TokenKind::Mark(Mark::Comma) => match count.checked_add(1) {
                Some(more) => self.expect(&[Symbol::Expr, Symbol::Joined(more)]),
                None => Err(ParseFault::NoMemory),
            }
            TokenKind::Mark(Mark::RightBrace) => {
                self.draft.put(Step::Join(count))?;
                Ok(())
            }
            _ => Err(ParseFault::Unreadable { line }),
        }
    }

    // The end of a repeat.
    pub fn repeat_end(&mut self, times: u32, kind: TokenKind, line: u32) -> Result<(), ParseFault>
        ensures { MovesTo result (after_move (read_repeat_end times kind self.old.draft) self.old.pending line) self.new.pending self.new.draft }
    {
        match kind {
            TokenKind::Mark(Mark::RightBrace) => {
                self.draft.put(Step::Repeat(times))?;
                Ok(())
            }
            _ => Err(ParseFault::Unreadable { line }),
        }
    }

    // One more operand of `&`.
    pub fn ands(&mut self, kind: TokenKind, line: u32) -> Result<(), ParseFault>
        ensures { MovesTo result (after_move (read_ands kind self.old.draft) self.old.pending line) self.new.pending self.new.draft }
    {
        match kind {
            TokenKind::Mark(Mark::Amp) => self.expect(&[
                Symbol::Unary,
                Symbol::Put(Made::And),
                Symbol::Ands,
            ]),
            _ => Err(ParseFault::Unreadable { line }),
        }
    }

    // One more operand of `^`, `~^` or `^~`.
    pub fn xors(&mut self, kind: TokenKind, line: u32) -> Result<(), ParseFault>
        ensures { MovesTo result (after_move (read_xors kind self.old.draft) self.old.pending line) self.new.pending self.new.draft }
    {
        match kind {
            TokenKind::Mark(Mark::Caret) => self.xor_operand(Made::Xor),
            TokenKind::Mark(Mark::TildeCaret | Mark::CaretTilde) => self.xor_operand(Made::Xnor),
            _ => Err(ParseFault::Unreadable { line }),
        }
    }

    // An operand of this operator, and behind it the operator and further ones.
    fn xor_operand(&mut self, made: Made) -> Result<(), ParseFault>
        ensures { MovesTo result (Going (Unary ∷ Ands ∷ Put made ∷ Xors ∷ self.old.pending) self.old.draft) self.new.pending self.new.draft }
    {
        self.expect(&[Symbol::Put(made), Symbol::Xors])?;
        self.expect(&[Symbol::Unary, Symbol::Ands])
    }

    // One more operand of `|`.
    pub fn ors(&mut self, kind: TokenKind, line: u32) -> Result<(), ParseFault>
        ensures { MovesTo result (after_move (read_ors kind self.old.draft) self.old.pending line) self.new.pending self.new.draft }
    {
        match kind {
            TokenKind::Mark(Mark::Bar) => self.expect(&[
                Symbol::Unary,
                Symbol::Ands,
                Symbol::Xors,
                Symbol::Put(Made::Or),
                Symbol::Ors,
            ]),
            _ => Err(ParseFault::Unreadable { line }),
        }
    }

    // The two values of a condition.
    pub fn choice(&mut self, kind: TokenKind, line: u32) -> Result<(), ParseFault>
        ensures { MovesTo result (after_move (read_choice kind self.old.draft) self.old.pending line) self.new.pending self.new.draft }
    {
        match kind {
            TokenKind::Mark(Mark::Question) => {
                self.expect(&[Symbol::Expr, Symbol::Put(Made::Cond)])?;
                self.expect(&[Symbol::Expr, Symbol::Mark(Mark::Colon)])
            }
            _ => Err(ParseFault::Unreadable { line }),
        }
    }

    // What follows a name.
    pub fn select(&mut self, side: Side, kind: TokenKind, line: u32) -> Result<(), ParseFault>
        ensures { MovesTo result (after_move (read_select side kind self.old.draft) self.old.pending line) self.new.pending self.new.draft }
    {
        match kind {
            TokenKind::Mark(Mark::LeftBracket) => self.expect(&[Symbol::SelectFrom(side)]),
            _ => Err(ParseFault::Unreadable { line }),
        }
    }

    // An index, or the first one of a select.
    pub fn select_from(&mut self, side: Side, kind: TokenKind, line: u32) -> Result<(), ParseFault>
        ensures { MovesTo result (after_move (read_select_from side kind self.old.draft) self.old.pending line) self.new.pending self.new.draft }
    {
        match kind {
            TokenKind::Number(from) => self.expect(&[Symbol::SelectTo(side, from)]),
            _ => Err(ParseFault::Unreadable { line }),
        }
    }

    // What follows the first index of a select.
    pub fn select_to(
        &mut self,
        side: Side,
        from: u32,
        kind: TokenKind,
        line: u32,
    ) -> Result<(), ParseFault>
        ensures { MovesTo result (after_move (read_select_to side from kind self.old.draft) self.old.pending line) self.new.pending self.new.draft }
    {
        match kind {
            TokenKind::Mark(Mark::RightBracket) => {
                self.draft.ref_done(side, Some((from, from)))?;
                Ok(())
            }
            TokenKind::Mark(Mark::Colon) => self.expect(&[Symbol::SelectLast(side, from)]),
            _ => Err(ParseFault::Unreadable { line }),
        }
    }

    // The last index of a select.
    pub fn select_last(
        &mut self,
        side: Side,
        from: u32,
        kind: TokenKind,
        line: u32,
    ) -> Result<(), ParseFault>
        ensures { MovesTo result (after_move (read_select_last side from kind self.old.draft) self.old.pending line) self.new.pending self.new.draft }
    {
        match kind {
            TokenKind::Number(to) => self.expect(&[Symbol::SelectEnd(side, from, to)]),
            _ => Err(ParseFault::Unreadable { line }),
        }
    }

    // The end of a select.
    pub fn select_end(
        &mut self,
        side: Side,
        from: u32,
        to: u32,
        kind: TokenKind,
        line: u32,
    ) -> Result<(), ParseFault>
        ensures { MovesTo result (after_move (read_select_end side from to kind self.old.draft) self.old.pending line) self.new.pending self.new.draft }
    {
        match kind {
            TokenKind::Mark(Mark::RightBracket) => {
                self.draft.ref_done(side, Some((from, to)))?;
                Ok(())
            }
            _ => Err(ParseFault::Unreadable { line }),
        }
    }
}
