ghost use Rattle.std.specs.Prelude.{◌≡◌, ◌∷◌, ◌++◌, [], OnOk, MatchOption};

use crate::symbol::Symbol;
use std::alloc::{AllocError, Global};
use std::marker::Model;

/// Symbols that must still follow, the next one first. However deep a text nests, they lie on the heap.
#[derive(Drop)]
pub(crate) struct Stack {
    // All but the last one, turned round.
    symbols: Vec<Symbol>,
    last: Option<Symbol>,
}

impl Model for Stack {
    ghost use Rattle.std.specs.Prelude.{List, reverse, ◌++◌};
    ghost use Rattle.std.specs.Option.{option_to_list};
    ghost use Rattle.bb_parse.specs.declared.symbol.Symbol.{Symbol as Pending};

    ghost Value = { List Pending };

    ghost view = { λ s. reverse s.symbols.items ++ option_to_list s.last };
}

impl Stack {
    /// One symbol, which takes no memory.
    pub fn new(alloc: Global, last: Symbol) -> Stack
        ensures { result ≡ last ∷ [] }
    {
        Stack {
            symbols: Vec::new(alloc),
            last: Some(last),
        }
    }

    /// The next symbol, taken off.
    pub fn pop(&mut self) -> Option<Symbol>
        ensures { MatchOption result (self.old ≡ []) (λ symbol. self.old ≡ symbol ∷ self.new) }
    {
        match self.symbols.pop() {
            Some(symbol) => Some(symbol),
            None => self.last.take(),
        }
    }

    /// Symbols that must follow before the others.
    pub fn push_all(&mut self, symbols: &[Symbol]) -> Result<(), AllocError>
        ensures { OnOk result (self.new ≡ symbols.now ++ self.old) }
    {
        let mut rest = symbols;
        'symbols: while let Some((last, front)) = rest.split_last() {
            self.symbols.push(*last)?;
            rest = front;
        }
        Ok(())
    }
}
