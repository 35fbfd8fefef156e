//! The columns of the code that generating registers use, and the least degree at which there are any.
//!
//! - `columns` gives each source the least column that is outside the span of the columns given before
//!   to the sources of each segment that lists it, or answers the first source for which none is left.
//! - `degree` answers the least degree of a range at which there are columns and no fewer states than
//!   cells, with its columns, or what the highest degree lacks.
//! - The columns of a segment's sources are independent.
//! - Where no source is listed by more than d segments, and no segment has more than m sources, a
//!   source is stuck at a degree k only where 2^k <= d * 2^(m - 1); elsewhere there are columns
//!   (`columns_exist`).
//! - There is one choice of columns at most, and it is the same at every degree at which it fits; a
//!   source in no segment takes 1 (`columns_are_unique`).
//!
//! Not promised: the least degree of any code. `specs/Segments.antt` says what segments are,
//! `specs/Columns.antt` what columns they have, and `specs/Degree.antt` at which degrees there are any.
#![tactic(auto)]

mod choice;
mod fault;
mod laws;
mod listings;
mod marks;
mod search;

pub use choice::columns;
pub use fault::{CodeFault, DegreeFault, Need};
pub use laws::{columns_are_unique, columns_exist};
pub use search::{Coded, degree};
