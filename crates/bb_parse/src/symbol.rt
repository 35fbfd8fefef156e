ghost use Rattle.std.specs.Prelude.{◌≡◌};
ghost use Rattle.bb_parse.specs.Passes.{passes};

use bb_base::{Mark, TokenKind};

/// Where a declared name stands.
#[derive(Clone, Copy, Debug, PartialEq, Eq)]
pub(crate) enum Place {
    Header,
    Body,
}

/// The side of an equation on which a reference stands; terminals and pins are on the right.
#[derive(Clone, Copy, Debug, PartialEq, Eq)]
pub(crate) enum Side {
    Left,
    Right,
}

/// An operator whose operands are complete.
#[derive(Clone, Copy, Debug, PartialEq, Eq)]
pub(crate) enum Made {
    Not,
    And,
    Or,
    Xor,
    Xnor,
    Cond,
}

/// What must still follow: a symbol of the grammar, or what is left of one that has begun.
#[derive(Clone, Copy, Debug, PartialEq, Eq)]
pub(crate) enum Symbol {
    File,
    ModuleName,
    Header,
    Ports,
    PlainName,
    MoreNames,
    Port,
    MorePorts,
    Type(Place),
    Range(Place),
    RangeFrom,
    RangeTo(u32),
    Declared(Place),
    Items,
    MoreDecls,
    Equation,
    MoreEquations,
    Left,
    MoreLefts,
    Gate,
    MoreGates,
    MoreTerms,
    Instance,
    Conns,
    MoreInstances,
    PinName,
    PinValue,
    PinEnd,
    MorePins,
    Select(Side),
    SelectFrom(Side),
    SelectTo(Side, u32),
    SelectLast(Side, u32),
    SelectEnd(Side, u32, u32),
    Expr,
    Unary,
    Braced,
    Joined(u64),
    RepeatEnd(u32),
    /// What may follow an operand: `Ands`, `Xors`, `Ors` and `Choice` in one, while none of them has begun.
    Operators,
    Ands,
    Xors,
    Ors,
    Choice,
    Put(Made),
    Mark(Mark),
}

/// Whether the token of this kind is for what follows behind the symbol, which may be empty.
pub(crate) fn passes(symbol: Symbol, kind: &TokenKind) -> bool
    ensures { result ≡ passes symbol kind.now }
{
    match symbol {
        Symbol::Put(_) => true,
        Symbol::Select(_) => !matches!(kind, TokenKind::Mark(Mark::LeftBracket)),
        Symbol::Operators => !matches!(
            kind,
            TokenKind::Mark(
                Mark::Amp
                    | Mark::Caret
                    | Mark::TildeCaret
                    | Mark::CaretTilde
                    | Mark::Bar
                    | Mark::Question
            )
        ),
        Symbol::Ands => !matches!(kind, TokenKind::Mark(Mark::Amp)),
        Symbol::Xors => !matches!(
            kind,
            TokenKind::Mark(Mark::Caret | Mark::TildeCaret | Mark::CaretTilde)
        ),
        Symbol::Ors => !matches!(kind, TokenKind::Mark(Mark::Bar)),
        Symbol::Choice => !matches!(kind, TokenKind::Mark(Mark::Question)),
        _ => false,
    }
}
