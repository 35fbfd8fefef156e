ghost use Rattle.std.specs.Prelude.{IsTrue, ◌↔◌};
ghost use Rattle.bb_base.specs.Operators.{IsArity};

/// What a gate computes of its inputs. `Xor` of n inputs is their parity, `Xnor` its complement.
#[derive(Clone, Copy, Debug, PartialEq, Eq)]
pub enum Op {
    And,
    Nand,
    Or,
    Nor,
    Xor,
    Xnor,
    Not,
    Buf,
    Zero,
    One,
}

/// Whether an operator takes so many inputs.
pub fn has_arity(op: Op, count: usize) -> bool
    ensures { IsTrue result ↔ IsArity op count }
{
    match op {
        Op::Not | Op::Buf => count == 1,
        Op::Zero | Op::One => count == 0,
        _ => count > 0,
    }
}
