//! The files and the line of what is made.

ghost use Rattle.std.specs.Prelude.{◌≡◌, ◌++◌, IfOk, OnOk};
ghost use Rattle.bb_compile.specs.Outputs.{outputs, done_line};

use crate::done::done_line_of;
use bb_make::Artifacts;
use bb_read::File;
use std::alloc::{AllocError, Global};
use std::marker::Model;

/// The files that are to be written, in order, and the line that is to be put then.
#[derive(Drop)]
pub struct Prepared {
    pub files: Vec<File>,
    pub line: Vec<u8>,
}

impl Model for Prepared {
    ghost use Rattle.bb_compile.specs.Prepared.{PreparedValue};

    ghost Value = { PreparedValue };

    ghost view = { λ p. record { files = p.files.items; line = p.line.items } };
}

/// A file whose name begins with the prefix.
pub(crate) fn file(
    alloc: Global,
    prefix: &str,
    ending: &str,
    text: Vec<u8>,
) -> Result<File, AllocError>
    ensures { IfOk result (λ file. file ≡ (prefix.now ++ ending.now, text.items)) }
{
    let name = format!(in alloc; "{prefix}{ending}")?;
    Ok(File { name, text })
}

/// Adds the four files of what is made.
fn push_files(
    alloc: Global,
    files: &mut Vec<File>,
    prefix: &str,
    made: Artifacts,
) -> Result<(), AllocError>
    ensures { OnOk result (files.new.items ≡ files.old.items ++ outputs prefix.now made) }
{
    files.push(file(alloc, prefix, ".v", made.netlist)?)?;
    files.push(file(alloc, prefix, ".sched", made.schedule)?)?;
    files.push(file(alloc, prefix, ".sig", made.signatures)?)?;
    files.push(file(alloc, prefix, ".cert", made.certificate)?)?;
    Ok(())
}

/// These files and then those of what is made, and its line.
pub(crate) fn prepared_behind(
    alloc: Global,
    mut files: Vec<File>,
    prefix: &str,
    made: Artifacts,
) -> Result<Prepared, AllocError>
    ensures files { IfOk result (λ prepared. prepared.files ≡ files.items ++ outputs prefix.now made) }
    ensures line { IfOk result (λ prepared. prepared.line ≡ done_line made.summary) }
{
    let line = done_line_of(alloc, made.summary)?;
    push_files(alloc, &mut files, prefix, made)?;
    Ok(Prepared { files, line })
}
