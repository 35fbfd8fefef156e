//! The program: `bilbo compile IN PREFIX` puts a self-test into the netlist of the file IN, and writes files whose names begin with PREFIX.
//! `bilbo check IN PREFIX` judges such files, and `bilbo sample N PREFIX` compiles a sample netlist.
//!
//! It hands its words, the files of the system and standard output to the call `bilbo` of bb_top, whose contract says what is
//! read and written and which status is answered. A word that isn't UTF-8 makes the words wrong ones.
#![tactic(auto)]

use bb_edge::{DirStore, OutSink};
use bb_top::bilbo;
use std::alloc::AllocError;
use std::process::ExitCode;
use std::rt::Env;
use std::{env, io};

/// The status where memory is wanting.
const NO_MEMORY: u8 = 5;

/// The words behind the program's name, or none where one isn't UTF-8.
fn words_of(rt: &(impl Env + AllocGlobal)) -> Result<Vec<String>, AllocError> {
    let mut words = Vec::new(rt.alloc());
    match env::args(rt) {
        Ok(args) => {
            for word in args.skip(1) {
                words.push(word)?;
            }
        }
        Err(error) if error.kind() == io::ErrorKind::InvalidData => {}
        Err(_) => return Err(AllocError),
    }
    Ok(words)
}

fn main(rt: HostRuntime) -> ExitCode {
    let Ok(words) = words_of(&rt) else {
        return ExitCode::from(NO_MEMORY);
    };
    let mut store = DirStore::new(rt.alloc(), &rt);
    let mut out = OutSink::new(&rt);
    ExitCode::from(bilbo(rt.alloc(), &words, &mut store, &mut out))
}
