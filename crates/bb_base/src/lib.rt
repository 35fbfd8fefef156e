//! What every layer speaks of: names, tokens, operators, variables and their bits, and netlists.
//!
//! - A name has 1 to 1,024 bytes, each from 33 to 126.
//! - A variable is one bit or the bits of a range; its bits are counted from the left, whatever way the range runs.
//! - Names that begin with `bt_` are this project's own.
//! - In a netlist every net has exactly one driver: an input, a gate or a flip-flop. Outputs are distinct, and none is an input.
//!
//! `specs/Name.antt` and `specs/Words.antt` say what names and words are made of, `specs/Tokens.antt` which tokens a text may have,
//! `specs/Variables.antt` what the bits of variables are, `specs/Operators.antt` what a gate's operator gives, and `specs/Firsts.antt`
//! what "the first" and "the least" are. `specs/Net.antt` says what a netlist is, over any kind of net, `specs/Run.antt` what its runs
//! are, and `specs/Order.antt` what an order of its gates is; `specs/Named.antt` adds names, and `specs/Building.antt` says what the calls
//! of a builder make. `specs/Bits.antt`, `specs/Parity.antt`, `specs/Span.antt` and `specs/Dual.antt` have vectors of bits as numbers.
#![tactic(auto)]

mod drivers;
mod fault;
mod keyword;
mod lex_fault;
mod name;
mod net;
mod netlist;
mod operator;
mod own_name;
mod token;
mod variable;
mod word;

pub use fault::NetFault;
pub use keyword::{Keyword, keyword_of};
pub use lex_fault::LexFault;
pub use name::Name;
pub use net::{Flop, Gate, NetId};
pub use netlist::{Driver, Netlist};
pub use operator::{Op, has_arity};
pub use own_name::{is_reserved, made_name};
pub use token::{Mark, Token, TokenKind};
pub use variable::{BitName, Role, Variable, index_of, is_port_role, width_of};
pub use word::{may_follow, may_start};
