ghost use Rattle.std.specs.Prelude.{◌≡◌};
ghost use Rattle.bb_parse.specs.Moves.{read_type, read_range, read_range_from, read_range_to, read_declared};
ghost use Rattle.bb_parse.specs.StatementMoves.{read_more_decls};
ghost use Rattle.bb_parse.specs.Machine.{after_move};
ghost use Rattle.bb_parse.specs.Standing.{MovesTo};

use crate::ParseFault;
use crate::reader::Reader;
use crate::symbol::{Place, Symbol};
use bb_base::{Keyword, Mark, TokenKind};

impl Reader {
    // What follows a direction.
    pub fn type_of(&mut self, place: Place, kind: TokenKind, line: u32) -> Result<(), ParseFault>
        ensures { MovesTo result (after_move (read_type place kind self.old.draft) self.old.pending line) self.new.pending self.new.draft }
    {
        match kind {
            TokenKind::Key(Keyword::Wire) => self.expect(&[Symbol::Range(place)]),
            TokenKind::Mark(Mark::LeftBracket) => self.expect(&[
                Symbol::RangeFrom,
                Symbol::Declared(place),
            ]),
            TokenKind::Name(name) => {
                self.draft.declare(place, name)?;
                Ok(())
            }
            _ => Err(ParseFault::Unreadable { line }),
        }
    }

    // A range or a name.
    pub fn range(&mut self, place: Place, kind: TokenKind, line: u32) -> Result<(), ParseFault>
        ensures { MovesTo result (after_move (read_range place kind self.old.draft) self.old.pending line) self.new.pending self.new.draft }
    {
        match kind {
            TokenKind::Mark(Mark::LeftBracket) => self.expect(&[
                Symbol::RangeFrom,
                Symbol::Declared(place),
            ]),
            TokenKind::Name(name) => {
                self.draft.declare(place, name)?;
                Ok(())
            }
            _ => Err(ParseFault::Unreadable { line }),
        }
    }

    // The left number of a range.
    pub fn range_from(&mut self, kind: TokenKind, line: u32) -> Result<(), ParseFault>
        ensures { MovesTo result (after_move (read_range_from kind self.old.draft) self.old.pending line) self.new.pending self.new.draft }
    {
        match kind {
            TokenKind::Number(from) => self.expect(&[
                Symbol::Mark(Mark::Colon),
                Symbol::RangeTo(from),
                Symbol::Mark(Mark::RightBracket),
            ]),
            _ => Err(ParseFault::Unreadable { line }),
        }
    }

    // The right number of a range.
    pub fn range_to(&mut self, from: u32, kind: TokenKind, line: u32) -> Result<(), ParseFault>
        ensures { MovesTo result (after_move (read_range_to from kind self.old.draft) self.old.pending line) self.new.pending self.new.draft }
    {
        match kind {
            TokenKind::Number(to) => {
                self.draft.range = Some((from, to));
                Ok(())
            }
            _ => Err(ParseFault::Unreadable { line }),
        }
    }

    // A declared name.
    pub fn declared(&mut self, place: Place, kind: TokenKind, line: u32) -> Result<(), ParseFault>
        ensures { MovesTo result (after_move (read_declared place kind self.old.draft) self.old.pending line) self.new.pending self.new.draft }
    {
        match kind {
            TokenKind::Name(name) => {
                self.draft.declare(place, name)?;
                Ok(())
            }
            _ => Err(ParseFault::Unreadable { line }),
        }
    }

    // More declared names, or the end of the statement.
    pub fn more_decls(&mut self, kind: TokenKind, line: u32) -> Result<(), ParseFault>
        ensures { MovesTo result (after_move (read_more_decls kind self.old.draft) self.old.pending line) self.new.pending self.new.draft }
    {
        match kind {
            TokenKind::Mark(Mark::Comma) => self.expect(&[
                Symbol::Declared(Place::Body),
                Symbol::MoreDecls,
            ]),
            TokenKind::Mark(Mark::Semicolon) => Ok(()),
            _ => Err(ParseFault::Unreadable { line }),
        }
    }
}
