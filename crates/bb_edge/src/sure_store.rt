ghost use Rattle.std.specs.Prelude.{◌≡◌, ◌++◌, ◌∷◌, ◌<◌, [], None, Some, true, false, IsOk, IsSome, IfOk, IfSome, length, map, min, string_bytes, take, drop, position};
ghost use Rattle.std.specs.Str.{bytes_eq};
ghost use Rattle.std.specs.Option.{option_map};
ghost use Rattle.bb_edge.specs.Files.{held, told_text, bytes_at};
ghost use Rattle.bb_edge.specs.Sure.{left_if, told_in, writing_of};

use crate::files::{Place, give};
use crate::written::{Name, Written};
use crate::{Failed, Store};
use std::alloc::Global;
use std::marker::Model;

/// Files in memory that are read and never fail. An absent name is read as empty, and what is written is dropped.
#[derive(Drop)]
pub struct SureStore {
    files: Vec<(String, Vec<u8>)>,
    reading: Option<Place>,
    is_writing: bool,
    written: Written,
}

impl Model for SureStore {
    ghost use Rattle.std.specs.Prelude.{map, string_bytes};
    ghost use Rattle.std.specs.Option.{option_map};
    ghost use Rattle.bb_edge.specs.Sure.{Sure, rest_at};

    ghost Value = { Sure };

    ghost view = { λ s. record {
      files = map (λ f. (string_bytes f.0, f.1.items)) s.files.items;
      reading = option_map (rest_at (map (λ f. (string_bytes f.0, f.1.items)) s.files.items)) s.reading;
      is_writing = s.is_writing;
      written = s.written.names;
    } };
}

impl SureStore {
    /// A store of these files. Where a name stands twice, the first one is read.
    pub fn new(_alloc: Global, files: Vec<(String, Vec<u8>)>) -> Self
        ensures { result ≡ record { files = map (λ f. (string_bytes f.0, f.1.items)) files.items; reading = None; is_writing = false; written = [] } }
    {
        SureStore {
            files,
            reading: None,
            is_writing: false,
            written: Written::new(),
        }
    }
}

/// The place of the first file with this name.
fn find(files: &[(String, Vec<u8>)], name: &str) -> Option<usize>
    ensures { result ≡ position (λ f. bytes_eq (string_bytes f.0) name.now) files.now }
{
    files.iter().position(|file| file.0.as_str() == name)
}

/// The place of the first file with this name, or the one behind all files.
fn find_or_end(files: &[(String, Vec<u8>)], name: &str) -> usize
    ensures { bytes_at (map (λ f. (string_bytes f.0, f.1.items)) files.now) result ≡ told_text (held (map (λ f. (string_bytes f.0, f.1.items)) files.now) name.now) }
{
    match find(files, name) {
        Some(place) => place,
        None => files.len(),
    }
}

/// The bytes of the file in this place, or none behind all files.
fn bytes_or_none(files: &[(String, Vec<u8>)], place: usize) -> &[u8]
    ensures { result.now ≡ bytes_at (map (λ f. (string_bytes f.0, f.1.items)) files.now) place }
{
    match files.get(place) {
        Some(file) => &file.1,
        None => &[],
    }
}

impl Store for SureStore {
    ghost holds = { λ s. told_in s.files s.written };

    ghost reading = { λ s. left_if s.reading };

    ghost writing = { writing_of };

    ghost read_faults = { λ _. 0 };

    ghost write_faults = { λ _. 0 };

    ghost may_read = { λ _. Unit {0} };

    ghost may_write = { λ _. Unit {0} };

    fn begin(&mut self, name: &str) -> Result<(), Failed>
        ensures sure { IsOk result }
        ensures begun { self.new ≡ record self.old { reading = Some (told_text (held self.old.files name.now)) } }
    {
        self.reading = Some(Place {
            file: find_or_end(&self.files, name),
            given: 0,
        });
        Ok(())
    }

    fn piece(&mut self, buf: &mut [u8]) -> Result<usize, Failed>
        requires begun { IsSome self.old.reading }
        requires room { 0 < length buf.old }

        ensures sure { IsOk result }
        ensures count { IfOk result (λ count. IfSome self.old.reading (λ rest. count ≡ min (length rest) (length buf.old))) }
        ensures bytes { IfOk result (λ count. IfSome self.old.reading (λ rest. buf.new ≡ take count rest ++ drop count buf.old)) }
        ensures rest { IfOk result (λ count. self.new ≡ record self.old { reading = option_map (drop count) self.old.reading }) }
    {
        let Some(place) = self.reading else {
            unreachable!()
        };
        let count = give(bytes_or_none(&self.files, place.file), place.given, buf);
        self.reading = Some(Place {
            file: place.file,
            given: place.given + count,
        });
        Ok(count)
    }

    fn put_begin(&mut self, name: &str) -> Result<(), Failed>
        requires free { writing_of self.old ≡ None }

        ensures sure { IsOk result }
        ensures begun { self.new ≡ record self.old { is_writing = true; written = name.now ∷ self.old.written } }
    {
        self.is_writing = true;
        self.written = self.written.and(&Name { text: name });
        Ok(())
    }

    /// Drops the bytes.
    fn put_piece(&mut self, _bytes: &[u8]) -> Result<(), Failed>
        requires { IsSome (writing_of self.old) }

        ensures sure { IsOk result }
        ensures dropped { self.new ≡ self.old }
    {
        Ok(())
    }

    fn put_end(&mut self) -> Result<(), Failed>
        requires { IsSome (writing_of self.old) }

        ensures sure { IsOk result }
        ensures stopped { self.new ≡ record self.old { is_writing = false } }
    {
        self.is_writing = false;
        Ok(())
    }
}
