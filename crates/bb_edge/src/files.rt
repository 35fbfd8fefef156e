ghost use Rattle.std.specs.Prelude.{◌≡◌, ◌≢◌, ◌++◌, ◌∷◌, [], length, take, drop, min, position, IfOk, MatchOption, OnErr, OnOk};
ghost use Rattle.std.specs.Str.{bytes_eq};
ghost use Rattle.bb_edge.specs.Told.{Absent};
ghost use Rattle.bb_edge.specs.Files.{file_place, held, file_name, bytes_at, with_file, IsPlace, IsPlaceOf};

use std::alloc::{AllocError, Global};
use std::marker::Model;

/// A file in memory.
#[derive(Debug, Drop)]
struct File {
    name: String,
    bytes: Vec<u8>,
}

impl Model for File {
    ghost use Rattle.std.specs.Prelude.{string_bytes};
    ghost use Rattle.bb_edge.specs.Files.{FileValue};

    ghost Value = { FileValue };

    ghost view = { λ f. (string_bytes f.name, f.bytes.items) };
}

impl File {
    /// Whether it has this name.
    fn is_named(&self, name: &str) -> bool
        ensures { result ≡ bytes_eq self.now.0 name.now }
    {
        self.name.as_str() == name
    }

    /// Its bytes.
    fn bytes(&self) -> &[u8]
        ensures { result.now ≡ self.now.1 }
    {
        &self.bytes
    }

    /// Drops its bytes.
    fn clear(&mut self)
        ensures { self.new ≡ (self.old.0, []) }
    {
        self.bytes.clear();
    }

    /// Appends to its bytes.
    fn append(&mut self, bytes: &[u8]) -> Result<(), AllocError>
        ensures ok { OnOk result (self.new ≡ (self.old.0, self.old.1 ++ bytes.now)) }
        ensures err { OnErr result (self.new ≡ self.old) }
        ensures grows { OnErr result (bytes.now ≢ []) }
    {
        self.bytes.extend_from_slice(bytes)
    }

    /// GivesFront it other bytes.
    fn replace(&mut self, bytes: Vec<u8>)
        ensures { self.new ≡ (self.old.0, bytes.items) }
    {
        self.bytes = bytes;
    }
}

/// Files in memory, by their places.
#[derive(Debug, Drop)]
pub(crate) struct Files {
    alloc: Global,
    list: Vec<File>,
}

impl Model for Files {
    ghost use Rattle.std.specs.Prelude.{List};
    ghost use Rattle.bb_edge.specs.Files.{FileValue};

    ghost Value = { List FileValue };

    ghost view = { λ s. s.list.items };
}

impl Files {
    /// No files.
    pub(crate) fn new(alloc: Global) -> Self
        ensures { result ≡ [] }
    {
        Files {
            alloc,
            list: Vec::new(alloc),
        }
    }

    /// The place of the file with this name.
    pub(crate) fn find(&self, name: &str) -> Option<usize>
        ensures value { result ≡ file_place name.now self.now }
        ensures cases { MatchOption result (held self.now name.now ≡ Absent) (λ place. IsPlaceOf self.now name.now place) }
    {
        find(&self.list, name)
    }

    /// The bytes of the file in this place.
    pub(crate) fn bytes(&self, place: usize) -> &[u8]
        requires { IsPlace self.now place }
        ensures { result.now ≡ bytes_at self.now place }
    {
        self.list[place].bytes()
    }

    /// GivesFront a name these bytes.
    pub(crate) fn set(&mut self, name: &str, bytes: &[u8]) -> Result<(), AllocError>
        ensures ok { OnOk result (self.new ≡ with_file name.now bytes.now self.old) }
        ensures err { OnErr result (self.new ≡ self.old) }
    {
        match self.find(name) {
            Some(place) => {
                let bytes = Vec::from_slice(self.alloc, bytes)?;
                self.list[place].replace(bytes);
                Ok(())
            }
            None => {
                self.add(name, bytes)?;
                Ok(())
            }
        }
    }

    /// Empties the file with this name, or adds one, and answers its place.
    pub(crate) fn start(&mut self, name: &str) -> Result<usize, AllocError>
        ensures ok { OnOk result (self.new ≡ with_file name.now [] self.old) }
        ensures place { IfOk result (λ place. IsPlaceOf self.new name.now place) }
        ensures added { OnErr result (held self.old name.now ≡ Absent) }
        ensures err { OnErr result (self.new ≡ self.old) }
    {
        match self.find(name) {
            Some(place) => {
                self.list[place].clear();
                Ok(place)
            }
            None => {
                let place = self.list.len();
                self.add(name, b"")?;
                Ok(place)
            }
        }
    }

    /// Appends bytes to the file in this place.
    pub(crate) fn append(&mut self, place: usize, bytes: &[u8]) -> Result<(), AllocError>
        requires { IsPlace self.old place }
        ensures ok { OnOk result (self.new ≡ with_file (file_name self.old place) (bytes_at self.old place ++ bytes.now) self.old) }
        ensures err { OnErr result (self.new ≡ self.old) }
        ensures grows { OnErr result (bytes.now ≢ []) }
    {
        self.list[place].append(bytes)?;
        Ok(())
    }

    /// Adds a file behind the others.
    fn add(&mut self, name: &str, bytes: &[u8]) -> Result<(), AllocError>
        ensures ok { OnOk result (self.new ≡ self.old ++ (name.now, bytes.now) ∷ []) }
        ensures err { OnErr result (self.new ≡ self.old) }
    {
        let file = File {
            name: String::from_str(self.alloc, name)?,
            bytes: Vec::from_slice(self.alloc, bytes)?,
        };
        self.list.push(file)?;
        Ok(())
    }
}

/// The place of the file with this name.
fn find(files: &[File], name: &str) -> Option<usize>
    ensures { result ≡ position (λ f. bytes_eq f.0 name.now) files.now }
{
    files.iter().position(|file| file.is_named(name))
}

/// How far a file was read.
#[derive(Clone, Copy, Debug)]
pub(crate) struct Place {
    pub(crate) file: usize,
    pub(crate) given: usize,
}

/// Copies the bytes behind those that were given into the front of the buffer, as many as both have, and answers their
/// number.
pub(crate) fn give(from: &[u8], given: usize, buf: &mut [u8]) -> usize
    ensures count { result ≡ min (length (drop given from.now)) (length buf.old) }
    ensures bytes { buf.new ≡ take result (drop given from.now) ++ drop result buf.old }
{
    let rest = if given < from.len() {
        from.split_at(given).1
    } else {
        &[]
    };
    let count = rest.len().min(buf.len());
    buf[..count].copy_from_slice(&rest[..count]);
    count
}
