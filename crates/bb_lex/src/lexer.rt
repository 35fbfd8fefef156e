//! The reader: what has begun is kept from byte to byte, and from piece to piece.

ghost use Rattle.std.specs.Prelude.{◌≡◌, ℕ, List, [], ◌++◌, Ok, Err, OnOk, OnErr, IfErr, IfOk, true, false, min, nat_lt, ◌^◌, ◌==◌, if◌then◌else◌};
ghost use Rattle.bb_lex.specs.Bytes.{class_of, base_of, radix_of, with_digit, is_digit_or_low};
ghost use Rattle.bb_lex.specs.Keywords.{word_kind};
ghost use Rattle.bb_lex.specs.Fences.{closer, place_after, shown};
ghost use Rattle.bb_lex.specs.Machine.{InNumber, InConstant, Failed, InFence, run, start, step, seen, told, IsKept, Stands, close, goes_on, more, begin, one, mode_of, answer_by, ending, IsEnding, checked, act, Gives, tick_byte, quoted, based, capped, number_limit, constant_limit, is_short};
ghost use Rattle.bb_base.specs.declared.token.TokenKind.TheVariants.{Const, Mark as MarkKind};
ghost use Rattle.bb_lex.specs.declared.lexer.Place.TheVariants.{Outside};
ghost use Rattle.bb_base.specs.declared.lex_fault.LexFault.{LexFault as FaultValue};
ghost use Rattle.bb_base.specs.declared.lex_fault.LexFault.TheVariants.{BadNumber, NoMemory};

use crate::bytes::{
    Base, Class, base_of, class_of, digit_of, is_constant, is_number, is_odd, is_sign, line_after,
    radix_of,
};
use crate::constant::{fits, with_digit};
use crate::spelling::Spelling;
use bb_base::{LexFault, Mark, Token, TokenKind, keyword_of, may_follow};
use std::alloc::Global;
use std::marker::Model;

const NUMBER_LIMIT: u32 = 1 << 31;

/// What is dropped between two marks.
#[derive(Clone, Copy, Debug, PartialEq, Eq)]
enum Fence {
    Comment,
    Attribute,
}

/// Where a byte stands in an attribute.
#[derive(Clone, Copy, Debug, PartialEq, Eq)]
enum Place {
    Outside,
    InString,
    Slashed,
}

/// What has begun and not ended. The bytes of a name stand beside it.
#[derive(Clone, Copy)]
enum Begun {
    Between,
    Name,
    Number(u32),
    Quote {
        signed: bool,
        size: u8,
    },
    Radix {
        size: u8,
        base: Base,
    },
    Constant {
        size: u8,
        base: Base,
        value: Option<u128>,
    },
    Tilde,
    Caret,
    Paren,
    Slash,
    Tick(u8),
    Line,
    Fenced {
        fence: Fence,
        place: Place,
        star: bool,
        from: u32,
    },
    Backslash,
    Escaped,
    Failed(LexFault),
}

/// Reads a text in pieces of any length.
#[derive(Drop)]
pub struct Lexer {
    alloc: Global,
    begun: Begun,
    line: u32,
    name: Spelling,
}

impl Model for Lexer {
    ghost use Rattle.bb_lex.specs.Machine.{Lexing, mode_of};

    ghost Value = { Lexing };

    ghost view = { λ l. record { mode = mode_of l.begun l.name; line = l.line } };
}

// The bytes of `timescale`.
#[tactic(auto, unfolding(crate::specs::Machine::tick_byte))]
fn tick_byte(matched: u8) -> u8
    ensures { result ≡ tick_byte matched }
{
    match matched {
        0 => b't',
        1 => b'i',
        2 => b'm',
        3 => b'e',
        4 => b's',
        5 => b'c',
        6 => b'a',
        7 => b'l',
        _ => b'e',
    }
}

// The byte after the star of the closing mark.
fn closer(fence: Fence) -> u8
    ensures { result ≡ closer fence }
{
    match fence {
        Fence::Comment => b'/',
        Fence::Attribute => b')',
    }
}

// Where the byte after this one stands.
fn place_after(fence: Fence, place: Place, b: u8) -> Place
    ensures { result ≡ place_after fence place b }
{
    match (fence, place) {
        (Fence::Comment, _) => Place::Outside,
        (Fence::Attribute, Place::Outside) if b == b'"' => Place::InString,
        (Fence::Attribute, Place::Outside) => Place::Outside,
        (Fence::Attribute, Place::InString) if b == b'"' => Place::Outside,
        (Fence::Attribute, Place::InString) if b == b'\\' => Place::Slashed,
        (Fence::Attribute, Place::InString) => Place::InString,
        (Fence::Attribute, Place::Slashed) => Place::InString,
    }
}

// A byte outside strings, and 0 for one inside.
fn shown(place: Place, b: u8) -> u8
    ensures { result ≡ shown place b }
{
    match place {
        Place::Outside => b,
        Place::InString | Place::Slashed => 0,
    }
}

// What begins at the second byte of an opening mark.
fn fence_from(fence: Fence, line: u32) -> Begun
    ensures { (name : List ℕ) → mode_of result name ≡ InFence fence Outside false line }
{
    Begun::Fenced {
        fence,
        place: Place::Outside,
        star: false,
        from: line,
    }
}

// A number with one more byte: a digit, `_` or the `'` of a constant.
fn after_number(number: u32, b: u8, line: u32) -> Begun
    ensures { (name : List ℕ) → mode_of result name ≡ (if b == 39 then quoted number line else InNumber (min (with_digit 10 number b) number_limit)) }
{
    if b == b'\'' {
        return after_size(number, line);
    }
    if b == b'_' {
        return Begun::Number(number.min(NUMBER_LIMIT));
    }
    let sum = u64::from(number) * 10 + u64::from(digit_of(b));
    Begun::Number(sum.min(u64::from(NUMBER_LIMIT)) as u32)
}

// The `'` after the size of a constant.
fn after_size(size: u32, line: u32) -> Begun
    ensures { (name : List ℕ) → mode_of result name ≡ quoted size line }
{
    if 1 <= size && size <= 128 {
        return Begun::Quote {
            signed: false,
            size: size as u8,
        };
    }
    Begun::Failed(LexFault::BadNumber { line })
}

// A letter after the `'` of a constant: its base, or the sign.
fn after_quote(size: u8, b: u8) -> Begun
    ensures { (name : List ℕ) → mode_of result name ≡ based (base_of b) size }
{
    match base_of(b) {
        Some(base) => Begun::Radix { size, base },
        None => Begun::Quote { signed: true, size },
    }
}

// A constant with one more byte: a digit of its base, `_`, or a fault.
fn after_digit(size: u8, base: Base, value: Option<u128>, b: u8, line: u32) -> Begun
    ensures { (name : List ℕ) → mode_of result name ≡ (if is_digit_or_low base b then InConstant size base (min (with_digit (radix_of base) (capped value) b) constant_limit) else Failed (BadNumber line)) }
{
    if b == b'_' || digit_of(b) < radix_of(base) {
        let value = with_digit(value, base, b);
        return Begun::Constant { size, base, value };
    }
    Begun::Failed(LexFault::BadNumber { line })
}

// A comment or an attribute with one more byte that doesn't close it.
fn inside(fence: Fence, place: Place, from: u32, b: u8) -> Begun
    ensures { (name : List ℕ) → mode_of result name ≡ InFence fence (place_after fence place b) (shown place b == 42) from }
{
    Begun::Fenced {
        fence,
        place: place_after(fence, place, b),
        star: shown(place, b) == b'*',
        from,
    }
}

// Moves on to what has begun now, and answers the fault where it is one.
fn settle(begun: &mut Begun, next: Begun) -> Result<(), LexFault>
    ensures next { begun.new ≡ next }
    ensures answer { result ≡ told (mode_of next []) }
    ensures told { (name : List ℕ) → result ≡ told (mode_of next name) }
{
    *begun = next;
    match next {
        Begun::Failed(fault) => Err(fault),
        _ => Ok(()),
    }
}

// One more token, or none.
fn give(out: &mut Vec<Token>, kind: TokenKind, line: u32) -> Result<(), LexFault>
    ensures ok { OnOk result (out.new.items ≡ out.old.items ++ one kind line) }
    ensures err { OnErr result (out.new.items ≡ out.old.items) }
    ensures memory { IfErr result (λ e. e ≡ NoMemory) }
{
    out.push(Token { kind, line })?;
    Ok(())
}

// The kind of the token that a simple name spells.
fn word_kind(alloc: Global, name: &Spelling) -> Result<TokenKind, LexFault>
    requires { is_short name.now ≡ true }
    ensures ok { IfOk result (λ kind. kind ≡ word_kind name.now) }
    ensures memory { IfErr result (λ e. e ≡ NoMemory) }
{
    match keyword_of(name.bytes()) {
        Some(keyword) => Ok(TokenKind::Key(keyword)),
        None => Ok(TokenKind::Name(name.name(alloc)?)),
    }
}

// The kind of the token that a constant spells, where its value fits its size.
fn constant_kind(size: u8, value: Option<u128>, line: u32) -> Result<Option<TokenKind>, LexFault>
    ensures { IsEnding result (checked (nat_lt (capped value) (2 ^ min size 128)) (Const size (capped value)) (BadNumber line)) }
{
    match value {
        Some(value) if fits(value, size) => Ok(Some(TokenKind::Const { size, value })),
        Some(_) => Err(LexFault::BadNumber { line }),
        None => Err(LexFault::BadNumber { line }),
    }
}

impl Lexer {
    /// A reader at the start of a text.
    pub fn new(alloc: Global) -> Lexer
        ensures { seen result [] ≡ start }
    {
        Lexer {
            alloc,
            begun: Begun::Between,
            line: 1,
            name: Spelling::new(alloc),
        }
    }

    // Whether the byte is part of what has begun.
    fn goes_on(&self, b: u8) -> bool
        ensures { result ≡ goes_on self.now.mode b }
    {
        match self.begun {
            Begun::Between => false,
            Begun::Name => may_follow(b),
            Begun::Number(_) => is_number(b) || b == b'\'',
            Begun::Quote { signed, .. } => base_of(b).is_some() || (!signed && is_sign(b)),
            Begun::Radix { base, .. } => digit_of(b) < radix_of(base),
            Begun::Constant { .. } => is_constant(b),
            Begun::Tilde => b == b'^',
            Begun::Caret => b == b'~',
            Begun::Paren => b == b'*',
            Begun::Slash => b == b'/' || b == b'*',
            Begun::Tick(matched) => b == tick_byte(matched),
            Begun::Line => b != b'\n',
            Begun::Backslash => b.is_ascii_graphic(),
            Begun::Escaped => b.is_ascii_graphic() || is_odd(b),
            Begun::Fenced { .. } | Begun::Failed(_) => true,
        }
    }

    // The token that what has begun spells, where it spells one.
    fn kind(&self) -> Result<Option<TokenKind>, LexFault>
        ensures { IsEnding result (ending self.now.mode self.now.line) }
    {
        let line = self.line;
        match self.begun {
            Begun::Between | Begun::Line => Ok(None),
            Begun::Name if self.name.is_short() => Ok(Some(word_kind(self.alloc, &self.name)?)),
            Begun::Escaped if self.name.is_short() => {
                Ok(Some(TokenKind::Name(self.name.name(self.alloc)?)))
            }
            Begun::Name | Begun::Escaped => Err(LexFault::LongName { line }),
            Begun::Number(number) if number < NUMBER_LIMIT => Ok(Some(TokenKind::Number(number))),
            Begun::Number(_) => Err(LexFault::BadNumber { line }),
            Begun::Constant { size, value, .. } => constant_kind(size, value, line),
            Begun::Quote { .. } | Begun::Radix { .. } => Err(LexFault::BadNumber { line }),
            Begun::Tilde => Ok(Some(TokenKind::Mark(Mark::Tilde))),
            Begun::Caret => Ok(Some(TokenKind::Mark(Mark::Caret))),
            Begun::Paren => Ok(Some(TokenKind::Mark(Mark::LeftParen))),
            Begun::Slash | Begun::Tick(_) | Begun::Backslash => Err(LexFault::BadByte { line }),
            Begun::Fenced { from, .. } => Err(LexFault::OpenComment { line: from }),
            Begun::Failed(fault) => Err(fault),
        }
    }

    // What has begun ends here.
    fn end(&mut self, out: &mut Vec<Token>) -> Result<(), LexFault>
        ensures stands { Stands result (close (seen self.old out.old.items)) (seen self.new out.new.items) }
        ensures told { result ≡ told self.new.mode }
        ensures kept { IsKept out.old.items out.new.items }
    {
        let given = match self.kind() {
            Ok(Some(kind)) => give(out, kind, self.line),
            Ok(None) => Ok(()),
            Err(fault) => Err(fault),
        };
        match given {
            Ok(()) => settle(&mut self.begun, Begun::Between),
            Err(fault) => {
                self.begun = Begun::Failed(fault);
                Err(fault)
            }
        }
    }

    // A mark that is complete.
    fn mark(&mut self, mark: Mark, out: &mut Vec<Token>) -> Result<(), LexFault>
        ensures stands { Stands result (act (Gives (MarkKind mark)) self.old.line out.old.items) (seen self.new out.new.items) }
        ensures told { result ≡ told self.new.mode }
        ensures kept { IsKept out.old.items out.new.items }
    {
        match give(out, TokenKind::Mark(mark), self.line) {
            Ok(()) => settle(&mut self.begun, Begun::Between),
            Err(memory) => {
                self.begun = Begun::Failed(memory);
                Err(memory)
            }
        }
    }

    // The byte is part of what has begun.
    fn more(&mut self, b: u8, out: &mut Vec<Token>) -> Result<(), LexFault>
        requires { goes_on self.old.mode b ≡ true }
        ensures stands { Stands result (more b (seen self.old out.old.items)) (seen self.new out.new.items) }
        ensures told { result ≡ told self.new.mode }
        ensures kept { IsKept out.old.items out.new.items }
    {
        let line = self.line;
        match self.begun {
            // nothing goes on here
            Begun::Between => Ok(()),
            Begun::Name => match self.name.push(b) {
                Ok(()) => settle(&mut self.begun, Begun::Name),
                Err(_) => {
                    self.begun = Begun::Failed(LexFault::NoMemory);
                    Err(LexFault::NoMemory)
                }
            },
            Begun::Number(number) => settle(&mut self.begun, after_number(number, b, line)),
            Begun::Quote { size, .. } => settle(&mut self.begun, after_quote(size, b)),
            Begun::Radix { size, base } => {
                let value = Some(u128::from(digit_of(b)));
                settle(&mut self.begun, Begun::Constant { size, base, value })
            }
            Begun::Constant { size, base, value } => {
                settle(&mut self.begun, after_digit(size, base, value, b, line))
            }
            Begun::Tilde => self.mark(Mark::TildeCaret, out),
            Begun::Caret => self.mark(Mark::CaretTilde, out),
            Begun::Paren => settle(&mut self.begun, fence_from(Fence::Attribute, line)),
            Begun::Slash if b == b'/' => settle(&mut self.begun, Begun::Line),
            Begun::Slash => settle(&mut self.begun, fence_from(Fence::Comment, line)),
            Begun::Tick(matched) if matched < 8 => settle(
                &mut self.begun,
                Begun::Tick(matched + 1),
            ),
            Begun::Tick(_) => settle(&mut self.begun, Begun::Line),
            Begun::Line => Ok(()),
            Begun::Fenced {
                fence,
                place,
                star,
                ..
            } if star && shown(place, b) == closer(fence) => {
                settle(&mut self.begun, Begun::Between)
            }
            Begun::Fenced {
                fence,
                place,
                from,
                ..
            } => {
                self.line = line_after(self.line, b);
                settle(&mut self.begun, inside(fence, place, from, b))
            }
            Begun::Backslash => match self.name.start(b) {
                Ok(()) => settle(&mut self.begun, Begun::Escaped),
                Err(_) => {
                    self.begun = Begun::Failed(LexFault::NoMemory);
                    Err(LexFault::NoMemory)
                }
            },
            Begun::Escaped if is_odd(b) => {
                settle(&mut self.begun, Begun::Failed(LexFault::BadByte { line }))
            }
            Begun::Escaped => match self.name.push(b) {
                Ok(()) => settle(&mut self.begun, Begun::Escaped),
                Err(_) => {
                    self.begun = Begun::Failed(LexFault::NoMemory);
                    Err(LexFault::NoMemory)
                }
            },
            Begun::Failed(fault) => Err(fault),
        }
    }

    // The byte begins something.
    fn begin(&mut self, b: u8, out: &mut Vec<Token>) -> Result<(), LexFault>
        requires { told self.old.mode ≡ Ok tt }
        ensures stands { Stands result (begin (class_of b) b (seen self.old out.old.items)) (seen self.new out.new.items) }
        ensures told { result ≡ told self.new.mode }
        ensures kept { IsKept out.old.items out.new.items }
    {
        let line = self.line;
        match class_of(b) {
            Class::Letter => match self.name.start(b) {
                Ok(()) => settle(&mut self.begun, Begun::Name),
                Err(_) => {
                    self.begun = Begun::Failed(LexFault::NoMemory);
                    Err(LexFault::NoMemory)
                }
            },
            Class::Digit => settle(&mut self.begun, Begun::Number(u32::from(digit_of(b)))),
            Class::Blank => {
                self.line = line_after(line, b);
                settle(&mut self.begun, Begun::Between)
            }
            Class::Slash => settle(&mut self.begun, Begun::Slash),
            Class::Backslash => settle(&mut self.begun, Begun::Backslash),
            Class::Tick => settle(&mut self.begun, Begun::Tick(0)),
            Class::Paren => settle(&mut self.begun, Begun::Paren),
            Class::Tilde => settle(&mut self.begun, Begun::Tilde),
            Class::Caret => settle(&mut self.begun, Begun::Caret),
            Class::Single(mark) => self.mark(mark, out),
            Class::Odd => settle(&mut self.begun, Begun::Failed(LexFault::BadByte { line })),
        }
    }

    // One byte.
    fn step(&mut self, b: u8, out: &mut Vec<Token>) -> Result<(), LexFault>
        ensures stands { Stands result (step (seen self.old out.old.items) b) (seen self.new out.new.items) }
        ensures told { result ≡ told self.new.mode }
        ensures kept { IsKept out.old.items out.new.items }
    {
        if self.goes_on(b) {
            return self.more(b, out);
        }
        match self.end(out) {
            Ok(()) => self.begin(b, out),
            Err(fault) => Err(fault),
        }
    }

    /// Takes the next piece of the text, and appends the tokens that are complete in it.
    ///
    /// A name, a number, a constant, `(`, `~` or `^` at the piece's end isn't complete yet. After a fault or want of memory each
    /// later call gives the same answer and changes nothing. What stood in `out` stands there, whatever the call answers; behind
    /// it stand the tokens before a fault, or after want of memory the first of them.
    pub fn feed(&mut self, piece: &[u8], out: &mut Vec<Token>) -> Result<(), LexFault>
        ensures stands { Stands result (run (seen self.old out.old.items) piece.now) (seen self.new out.new.items) }
        ensures told { result ≡ told self.new.mode }
        ensures kept { IsKept out.old.items out.new.items }
        ensures again { (fault : FaultValue) → told self.old.mode ≡ Err fault → result ≡ Err fault }
        ensures unchanged { (fault : FaultValue) → told self.old.mode ≡ Err fault → seen self.new out.new.items ≡ seen self.old out.old.items }
    {
        if let Begun::Failed(fault) = self.begun {
            return Err(fault);
        }
        'bytes: for b in piece {
            match self.step(*b, out) {
                Ok(()) => {}
                Err(fault) => return Err(fault),
            }
        }
        Ok(())
    }

    /// The end of the text: appends the last token, and answers the number of the line where the text ends.
    ///
    /// Lines count to the greatest `u32` and stay there.
    pub fn finish(&mut self, out: &mut Vec<Token>) -> Result<u32, LexFault>
        ensures stands { Stands result (close (seen self.old out.old.items)) (seen self.new out.new.items) }
        ensures answer { result ≡ answer_by self.new.mode self.new.line }
        ensures kept { IsKept out.old.items out.new.items }
        ensures again { (fault : FaultValue) → told self.old.mode ≡ Err fault → result ≡ Err fault }
        ensures unchanged { (fault : FaultValue) → told self.old.mode ≡ Err fault → seen self.new out.new.items ≡ seen self.old out.old.items }
    {
        match self.begun {
            Begun::Failed(fault) => Err(fault),
            _ => {
                self.end(out)?;
                Ok(self.line)
            }
        }
    }
}
