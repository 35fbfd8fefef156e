ghost use Rattle.std.specs.Prelude.{◌≡◌, Err};
ghost use Rattle.bb_parse.specs.declared.fault.ParseFault.{ParseFault as FaultValue};
ghost use Rattle.bb_parse.specs.Machine.{Failed, step, start, end};
ghost use Rattle.bb_parse.specs.Standing.{answer_of, Follows};

use crate::draft::Draft;
use crate::reader::Reader;
use crate::stack::Stack;
use crate::symbol::Symbol;
use crate::{Module, ParseFault};
use bb_base::Token;
use std::alloc::Global;
use std::marker::Model;

/// Reads a module token by token.
#[derive(Drop)]
pub struct Parser {
    reader: Reader,
    fault: Option<ParseFault>,
}

impl Model for Parser {
    ghost use Rattle.bb_parse.specs.Machine.{Parsing};
    ghost use Rattle.bb_parse.specs.Standing.{state_of};

    ghost Value = { Parsing };

    ghost view = { λ p. state_of p.fault p.reader.pending p.reader.draft };
}

impl Parser {
    /// Before the first token.
    pub fn new(alloc: Global) -> Parser
        ensures { result ≡ start }
    {
        Parser {
            reader: Reader {
                alloc,
                pending: Stack::new(alloc, Symbol::File),
                draft: Draft::new(alloc),
            },
            fault: None,
        }
    }

    /// Takes the next token.
    ///
    /// After a fault or want of memory each later call gives the same answer and changes nothing.
    pub fn token(&mut self, token: Token) -> Result<(), ParseFault>
        ensures stands { Follows result (step self.old token) self.new }
        ensures told { result ≡ answer_of self.new }
        ensures again { (fault : FaultValue) → self.old ≡ Failed fault → result ≡ Err fault }
        ensures unchanged { (fault : FaultValue) → self.old ≡ Failed fault → self.new ≡ self.old }
    {
        if let Some(fault) = self.fault {
            return Err(fault);
        }
        match self.reader.token(token.kind, token.line) {
            Ok(()) => Ok(()),
            Err(fault) => {
                self.fault = Some(fault);
                Err(fault)
            }
        }
    }

    /// The end of the text, in this line: the module.
    pub fn finish(self, line: u32) -> Result<Module, ParseFault>
        ensures { result ≡ end self line }
    {
        let Parser { mut reader, fault } = self;
        match fault {
            Some(fault) => Err(fault),
            None if reader.pending.pop().is_some() => Err(ParseFault::Unreadable { line }),
            None => reader.draft.whole(line),
        }
    }
}
