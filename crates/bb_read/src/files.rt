//! Files that are written one after another.

ghost use Rattle.std.specs.Prelude.{◌≡◌, None, OnOk, OnErr};
ghost use Rattle.std.specs.List.{AllByRecursion};
ghost use Rattle.bb_edge.specs.Causes.{HasCause};
ghost use Rattle.bb_read.specs.Files.{names_of, AreApart, AreWhole, SameButAll, AreCutShort};

use crate::write::write_whole;
use bb_edge::{Failed, Store};
use std::marker::Model;

/// A file that is to be written.
#[derive(Drop)]
pub struct File {
    pub name: String,
    pub text: Vec<u8>,
}

impl Model for File {
    ghost use Rattle.std.specs.Prelude.{string_bytes};
    ghost use Rattle.bb_edge.specs.Files.{FileValue};

    ghost Value = { FileValue };

    ghost view = { λ f. (string_bytes f.name, f.text.items) };
}

/// Writes files whole, one after another, up to the first that fails.
pub fn write_files<S: Store>(store: &mut S, files: &[File]) -> Result<(), Failed>
    requires free { S.writing store.old ≡ None }
    requires may { AllByRecursion (λ f. S.may_write f.0) files.now }
    requires apart { AreApart files.now }
    ensures free { S.writing store.new ≡ None }
    ensures whole { OnOk result (AreWhole files.now (S.holds store.new)) }
    ensures partly { OnErr result (AreCutShort files.now (S.holds store.old) (S.holds store.new)) }
    ensures others { SameButAll (names_of files.now) (S.holds store.old) (S.holds store.new) }
    ensures read_faults { S.read_faults store.new ≡ S.read_faults store.old }
    ensures cause { HasCause (S.write_faults store.old) (S.write_faults store.new) result }
{
    'files: for file in files {
        write_whole(store, file.name.as_str(), &file.text)?;
    }
    Ok(())
}
