//! The outside: what the program reads and writes, as traits that say what each call does and when it fails.
//!
//! - A [`Store`] is files by name. A count of its faults rises in each call that fails, and in no other; one that has come to
//!   2^64 - 1 stands.
//! - Reading changes no contents, and writing changes those of the one name that is being written.
//! - A [`Sink`] takes bytes in order, and after a put that failed it has a front of them.
//! - [`MemStore`] and [`MemSink`] tell all that they hold. They fail exactly where they are asked to, where a name isn't
//!   held, or where what is written finds no memory, and a put that fails changes nothing that they hold.
//! - [`SureStore`] and [`SureSink`] never fail, and drop what is written.
//! - [`DirStore`] and [`OutSink`] stand for the files of the system and for standard output.
//!
//! Not promised: what a file of the system holds, or that standard output was read by anyone.
//! `specs/Told.antt` says what a store and a sink tell, and `specs/Causes.antt` when a call may fail.
#![tactic(auto)]

mod dir_store;
mod files;
mod mem_sink;
mod mem_store;
mod out_sink;
mod schedule;
mod sink;
mod store;
mod sure_sink;
mod sure_store;
mod written;

pub use dir_store::DirStore;
pub use mem_sink::MemSink;
pub use mem_store::MemStore;
pub use out_sink::OutSink;
pub use schedule::{Fail, Step};
pub use sink::Sink;
pub use store::{Failed, Store};
pub use sure_sink::SureSink;
pub use sure_store::SureStore;
