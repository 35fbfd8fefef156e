//! The module that a text is, or the first thing that breaks it.

ghost use Rattle.std.specs.Prelude.{◌≡◌, [], ◌++◌, ℕ, List, Ok, Err, IfOk, OnOk, IsErrOf};
ghost use Rattle.bb_base.specs.declared.lex_fault.LexFault.{LexFault as LexValue};
ghost use Rattle.bb_base.specs.declared.token.Token.{Token as TokenValue};
ghost use Rattle.bb_parse.specs.declared.fault.ParseFault.{ParseFault as ParseValue};
ghost use Rattle.bb_parse.specs.declared.fault.ParseFault.TheVariants as grammar;
ghost use Rattle.bb_parse.specs.Machine as parsing;
ghost use Rattle.bb_parse.specs.Standing as standing;
ghost use Rattle.bb_parse.specs.Sound.{IsSoundModule};
ghost use Rattle.bb_grammar.specs.Texts.{IsModuleOf, HasLexFault, HasParseFault};
ghost use Rattle.bb_fault.specs.declared.fault.ElabFault.{ElabFault as ElabValue};
ghost use Rattle.bb_read.specs.TextReading.{HasRead, reading};

use crate::fault::ReadFault;
use bb_base::Token;
use bb_grammar::{cut_short, first_bad_token, in_parts, in_range as sound_modules, one_module};
use bb_lex::{Lexer, a_fault_stands, any_cutting, in_range, one_reading};
use bb_parse::{Module, ParseFault, Parser};
use std::alloc::Global;

/// How many bytes are read at a time.
const PIECE: usize = 65_536;

/// Gives tokens to a parser, up to the first at which no module goes on.
fn parse_all(parser: &mut Parser, tokens: Vec<Token>) -> Result<(), ParseFault>
    ensures run { OnOk result (parser.new ≡ parsing.run parser.old tokens.items) }
    ensures going { OnOk result (standing.answer_of parser.old ≡ Ok tt → standing.answer_of parser.new ≡ Ok tt) }
    ensures bad { (line : ℕ) → result ≡ Err (grammar.Unreadable line) → (front rest : List TokenValue) × (tokens.items ≡ front ++ rest) × (parsing.run parser.old front ≡ parsing.Failed (grammar.Unreadable line)) }
{
    in_parts();
    'tokens: for token in tokens {
        match parser.token(token) {
            Ok(()) => {}
            Err(fault) => return Err(fault),
        }
    }
    Ok(())
}

/// Reads a piece of a text, and answers the first flaw of the text where it is found in it.
fn feed(
    alloc: Global,
    lexer: &mut Lexer,
    parser: &mut Parser,
    piece: &[u8],
) -> Result<(), ReadFault>
    ensures goes_on { OnOk result ((text : List ℕ) → HasRead text (reading lexer.old parser.old) → HasRead (text ++ piece.now) (reading lexer.new parser.new)) }
    ensures lex { (fault : LexValue) → IsErrOf result (ReadFault.Lex fault) → (text rest : List ℕ) → HasRead text (reading lexer.old parser.old) → HasLexFault ((text ++ piece.now) ++ rest) fault }
    ensures parse { (fault : ParseValue) → IsErrOf result (ReadFault.Parse fault) → (text rest : List ℕ) → HasRead text (reading lexer.old parser.old) → HasParseFault ((text ++ piece.now) ++ rest) fault }
    ensures no_read { IsErrOf result ReadFault.Read → ⊥ }
    ensures no_length { IsErrOf result ReadFault.TooLong → ⊥ }
    ensures no_elab { (fault : ElabValue) → IsErrOf result (ReadFault.Elab fault) → ⊥ }
{
    one_reading();
    any_cutting();
    a_fault_stands();
    in_range();
    one_module();
    first_bad_token();
    in_parts();
    let mut tokens = Vec::new(alloc);
    let fed = lexer.feed(piece, &mut tokens);
    parse_all(parser, tokens)?;
    fed?;
    Ok(())
}

/// Reads the end of a text, and answers its module, or the first flaw of the text.
fn finish(alloc: Global, lexer: &mut Lexer, mut parser: Parser) -> Result<Module, ReadFault>
    ensures whole { IfOk result (λ value. (text : List ℕ) → HasRead text (reading lexer.old parser) → IsModuleOf value text × IsSoundModule value) }
    ensures lex { (fault : LexValue) → IsErrOf result (ReadFault.Lex fault) → (text : List ℕ) → HasRead text (reading lexer.old parser) → HasLexFault text fault }
    ensures parse { (fault : ParseValue) → IsErrOf result (ReadFault.Parse fault) → (text : List ℕ) → HasRead text (reading lexer.old parser) → HasParseFault text fault }
    ensures no_read { IsErrOf result ReadFault.Read → ⊥ }
    ensures no_length { IsErrOf result ReadFault.TooLong → ⊥ }
    ensures no_elab { (fault : ElabValue) → IsErrOf result (ReadFault.Elab fault) → ⊥ }
{
    one_reading();
    any_cutting();
    in_range();
    one_module();
    first_bad_token();
    cut_short();
    in_parts();
    sound_modules();
    let mut tokens = Vec::new(alloc);
    let end = lexer.finish(&mut tokens);
    parse_all(&mut parser, tokens)?;
    let line = end?;
    let syntax = parser.finish(line)?;
    Ok(syntax)
}

/// The module that a text is, or the first flaw of the text.
pub fn module_in(alloc: Global, text: &[u8]) -> Result<Module, ReadFault>
    ensures whole { IfOk result (λ value. IsModuleOf value text.now × IsSoundModule value) }
    ensures lex { (fault : LexValue) → IsErrOf result (ReadFault.Lex fault) → HasLexFault text.now fault }
    ensures parse { (fault : ParseValue) → IsErrOf result (ReadFault.Parse fault) → HasParseFault text.now fault }
    ensures no_read { IsErrOf result ReadFault.Read → ⊥ }
    ensures no_length { IsErrOf result ReadFault.TooLong → ⊥ }
    ensures no_elab { (fault : ElabValue) → IsErrOf result (ReadFault.Elab fault) → ⊥ }
{
    let mut lexer = Lexer::new(alloc);
    let mut parser = Parser::new(alloc);
    let mut rest = text;
    'pieces: while !rest.is_empty() {
        let (piece, after) = rest.split_at(rest.len().min(PIECE));
        feed(alloc, &mut lexer, &mut parser, piece)?;
        rest = after;
    }
    finish(alloc, &mut lexer, parser)
}
