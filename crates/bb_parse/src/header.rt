ghost use Rattle.std.specs.Prelude.{◌≡◌};
ghost use Rattle.bb_parse.specs.Moves.{read_file, read_module_name, read_header, read_ports, read_plain_name, read_more_names, read_port, read_more_ports};
ghost use Rattle.bb_parse.specs.Machine.{after_move};
ghost use Rattle.bb_parse.specs.Standing.{MovesTo};
ghost use Rattle.bb_parse.specs.Drafts.{begin_decl};

use crate::ParseFault;
use crate::reader::Reader;
use crate::symbol::{Place, Symbol};
use bb_base::{Keyword, Mark, Role, TokenKind};

impl Reader {
    // `module`.
    pub fn file(&mut self, kind: TokenKind, line: u32) -> Result<(), ParseFault>
        ensures { MovesTo result (after_move (read_file kind line self.old.draft) self.old.pending line) self.new.pending self.new.draft }
    {
        match kind {
            TokenKind::Key(Keyword::Module) => {
                self.draft.line = line;
                self.expect(&[Symbol::ModuleName, Symbol::Header, Symbol::Items])
            }
            _ => Err(ParseFault::Unreadable { line }),
        }
    }

    // The module's name.
    pub fn module_name(&mut self, kind: TokenKind, line: u32) -> Result<(), ParseFault>
        ensures { MovesTo result (after_move (read_module_name kind self.old.draft) self.old.pending line) self.new.pending self.new.draft }
    {
        match kind {
            TokenKind::Name(name) => {
                self.draft.name = Some(name);
                Ok(())
            }
            _ => Err(ParseFault::Unreadable { line }),
        }
    }

    // What follows the name of a module.
    pub fn header(&mut self, kind: TokenKind, line: u32) -> Result<(), ParseFault>
        ensures { MovesTo result (after_move (read_header kind self.old.draft) self.old.pending line) self.new.pending self.new.draft }
    {
        match kind {
            TokenKind::Mark(Mark::Semicolon) => Ok(()),
            TokenKind::Mark(Mark::LeftParen) => self.expect(&[
                Symbol::Ports,
                Symbol::Mark(Mark::Semicolon),
            ]),
            _ => Err(ParseFault::Unreadable { line }),
        }
    }

    // What follows the `(` of a header.
    pub fn ports(&mut self, kind: TokenKind, line: u32) -> Result<(), ParseFault>
        ensures { MovesTo result (after_move (read_ports kind self.old.draft) self.old.pending line) self.new.pending self.new.draft }
    {
        match kind {
            TokenKind::Mark(Mark::RightParen) => Ok(()),
            TokenKind::Name(name) => {
                self.draft.names.push(name)?;
                self.expect(&[Symbol::MoreNames])
            }
            TokenKind::Key(Keyword::Input) => {
                self.begin_ports(Role::Input);
                self.expect(&[Symbol::Type(Place::Header), Symbol::MorePorts])
            }
            TokenKind::Key(Keyword::Output) => {
                self.begin_ports(Role::Output);
                self.expect(&[Symbol::Type(Place::Header), Symbol::MorePorts])
            }
            _ => Err(ParseFault::Unreadable { line }),
        }
    }

    // Ports of a direction begin. Their line is that of `module`.
    fn begin_ports(&mut self, role: Role)
        ensures draft { self.new.draft ≡ begin_decl self.old.draft.line role self.old.draft }
        ensures pending { self.new.pending ≡ self.old.pending }
    {
        let line = self.draft.line;
        self.draft.begin_decl(line, role);
    }

    // The name of a port without a direction.
    pub fn plain_name(&mut self, kind: TokenKind, line: u32) -> Result<(), ParseFault>
        ensures { MovesTo result (after_move (read_plain_name kind self.old.draft) self.old.pending line) self.new.pending self.new.draft }
    {
        match kind {
            TokenKind::Name(name) => {
                self.draft.names.push(name)?;
                Ok(())
            }
            _ => Err(ParseFault::Unreadable { line }),
        }
    }

    // More names of ports, or the end of the header.
    pub fn more_names(&mut self, kind: TokenKind, line: u32) -> Result<(), ParseFault>
        ensures { MovesTo result (after_move (read_more_names kind self.old.draft) self.old.pending line) self.new.pending self.new.draft }
    {
        match kind {
            TokenKind::Mark(Mark::Comma) => self.expect(&[Symbol::PlainName, Symbol::MoreNames]),
            TokenKind::Mark(Mark::RightParen) => Ok(()),
            _ => Err(ParseFault::Unreadable { line }),
        }
    }

    // A port of a header with directions.
    pub fn port(&mut self, kind: TokenKind, line: u32) -> Result<(), ParseFault>
        ensures { MovesTo result (after_move (read_port kind self.old.draft) self.old.pending line) self.new.pending self.new.draft }
    {
        match kind {
            TokenKind::Name(name) => {
                self.draft.declare(Place::Header, name)?;
                Ok(())
            }
            TokenKind::Key(Keyword::Input) => {
                self.begin_ports(Role::Input);
                self.expect(&[Symbol::Type(Place::Header)])
            }
            TokenKind::Key(Keyword::Output) => {
                self.begin_ports(Role::Output);
                self.expect(&[Symbol::Type(Place::Header)])
            }
            _ => Err(ParseFault::Unreadable { line }),
        }
    }

    // More ports, or the end of the header.
    pub fn more_ports(&mut self, kind: TokenKind, line: u32) -> Result<(), ParseFault>
        ensures { MovesTo result (after_move (read_more_ports kind self.old.draft) self.old.pending line) self.new.pending self.new.draft }
    {
        match kind {
            TokenKind::Mark(Mark::Comma) => self.expect(&[Symbol::Port, Symbol::MorePorts]),
            TokenKind::Mark(Mark::RightParen) => Ok(()),
            _ => Err(ParseFault::Unreadable { line }),
        }
    }
}
