//! The reader of tokens: the first symbol that must follow takes a token, and others stand in its place.

ghost use Rattle.std.specs.Prelude.{◌≡◌, ℕ, ◌∷◌, ◌++◌, [], OnOk, IfErr, Some, None, Ok};
ghost use Rattle.bb_parse.specs.Passes.{passed};
ghost use Rattle.bb_parse.specs.ExpressionMoves.{read_mark};
ghost use Rattle.bb_parse.specs.Machine.{after_move, read_by, passed_on};
ghost use Rattle.bb_parse.specs.Standing.{MovesTo, Finds};
ghost use Rattle.bb_parse.specs.Drafts.{no_draft};
ghost use Rattle.bb_parse.specs.declared.fault.ParseFault.TheVariants.{NoMemory};
ghost use Rattle.bb_parse.specs.declared.symbol.Symbol.TheVariants.{File};

use crate::ParseFault;
use crate::draft::Draft;
use crate::stack::Stack;
use crate::symbol::{Symbol, passes};
use bb_base::{Mark, TokenKind};
use std::alloc::Global;

/// What must still follow, and the module so far.
#[derive(Drop)]
pub(crate) struct Reader {
    pub alloc: Global,
    pub pending: Stack,
    pub draft: Draft,
}

impl Reader {
    // Symbols that must follow before the others.
    pub fn expect(&mut self, symbols: &[Symbol]) -> Result<(), ParseFault>
        ensures pending { OnOk result (self.new.pending ≡ symbols.now ++ self.old.pending) }
        ensures draft { self.new.draft ≡ self.old.draft }
        ensures memory { IfErr result (λ e. e ≡ NoMemory) }
    {
        self.pending.push_all(symbols)?;
        Ok(())
    }

    // A mark that must stand here.
    fn mark(&mut self, mark: Mark, kind: TokenKind, line: u32) -> Result<(), ParseFault>
        ensures { MovesTo result (after_move (read_mark mark kind self.old.draft) self.old.pending line) self.new.pending self.new.draft }
    {
        match kind {
            TokenKind::Mark(found) if found == mark => Ok(()),
            _ => Err(ParseFault::Unreadable { line }),
        }
    }

    // The symbol is empty here.
    fn pass(&mut self, symbol: Symbol) -> Result<(), ParseFault>
        ensures draft { OnOk result (self.new.draft ≡ passed symbol self.old.draft) }
        ensures pending { self.new.pending ≡ self.old.pending }
        ensures memory { IfErr result (λ e. e ≡ NoMemory) }
    {
        match symbol {
            Symbol::Put(made) => {
                self.draft.put_made(made)?;
                Ok(())
            }
            Symbol::Select(side) => {
                self.draft.ref_done(side, None)?;
                Ok(())
            }
            _ => Ok(()),
        }
    }

    // The first symbol that doesn't let the token pass, taken off.
    fn next(&mut self, kind: &TokenKind) -> Result<Option<Symbol>, ParseFault>
        ensures { Finds result self.old.pending self.old.draft kind.now self.new.pending self.new.draft }
    {
        'symbols: while let Some(symbol) = self.pending.pop() {
            if !passes(symbol, kind) {
                return Ok(Some(symbol));
            }
            self.pass(symbol)?;
        }
        Ok(None)
    }

    // The symbol takes the token.
    fn read(&mut self, symbol: Symbol, kind: TokenKind, line: u32) -> Result<(), ParseFault>
        ensures { MovesTo result (after_move (read_by symbol kind line self.old.draft) self.old.pending line) self.new.pending self.new.draft }
    {
        match symbol {
            Symbol::File => self.file(kind, line),
            Symbol::ModuleName => self.module_name(kind, line),
            Symbol::Header => self.header(kind, line),
            Symbol::Ports => self.ports(kind, line),
            Symbol::PlainName => self.plain_name(kind, line),
            Symbol::MoreNames => self.more_names(kind, line),
            Symbol::Port => self.port(kind, line),
            Symbol::MorePorts => self.more_ports(kind, line),
            Symbol::Type(place) => self.type_of(place, kind, line),
            Symbol::Range(place) => self.range(place, kind, line),
            Symbol::RangeFrom => self.range_from(kind, line),
            Symbol::RangeTo(from) => self.range_to(from, kind, line),
            Symbol::Declared(place) => self.declared(place, kind, line),
            Symbol::Items => self.items(kind, line),
            Symbol::MoreDecls => self.more_decls(kind, line),
            Symbol::Equation => self.equation(kind, line),
            Symbol::MoreEquations => self.more_equations(kind, line),
            Symbol::Left => self.left(kind, line),
            Symbol::MoreLefts => self.more_lefts(kind, line),
            Symbol::Gate => self.gate(kind, line),
            Symbol::MoreGates => self.more_gates(kind, line),
            Symbol::MoreTerms => self.more_terms(kind, line),
            Symbol::Instance => self.instance(kind, line),
            Symbol::Conns => self.conns(kind, line),
            Symbol::MoreInstances => self.more_instances(kind, line),
            Symbol::PinName => self.pin_name(kind, line),
            Symbol::PinValue => self.pin_value(kind, line),
            Symbol::PinEnd => self.pin_end(kind, line),
            Symbol::MorePins => self.more_pins(kind, line),
            Symbol::Select(side) => self.select(side, kind, line),
            Symbol::SelectFrom(side) => self.select_from(side, kind, line),
            Symbol::SelectTo(side, from) => self.select_to(side, from, kind, line),
            Symbol::SelectLast(side, from) => self.select_last(side, from, kind, line),
            Symbol::SelectEnd(side, from, to) => self.select_end(side, from, to, kind, line),
            Symbol::Expr => self.expr(kind, line),
            Symbol::Unary => self.unary(kind, line),
            Symbol::Braced => self.braced(kind, line),
            Symbol::Joined(count) => self.joined(count, kind, line),
            Symbol::RepeatEnd(times) => self.repeat_end(times, kind, line),
            Symbol::Operators => self.operators(kind, line),
            Symbol::Ands => self.ands(kind, line),
            Symbol::Xors => self.xors(kind, line),
            Symbol::Ors => self.ors(kind, line),
            Symbol::Choice => self.choice(kind, line),
            // it lets every token pass
            Symbol::Put(_) => Err(ParseFault::Unreadable { line }),
            Symbol::Mark(mark) => self.mark(mark, kind, line),
        }
    }

    // One token.
    pub fn token(&mut self, kind: TokenKind, line: u32) -> Result<(), ParseFault>
        ensures { MovesTo result (passed_on self.old.pending self.old.draft kind line) self.new.pending self.new.draft }
    {
        match self.next(&kind)? {
            Some(symbol) => self.read(symbol, kind, line),
            None => Err(ParseFault::Unreadable { line }),
        }
    }
}
