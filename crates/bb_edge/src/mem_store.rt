ghost use Rattle.std.specs.Option.{option_map};
ghost use Rattle.std.specs.Prelude.{◌≡◌, ◌≢◌, ◌⊎◌, ◌↔◌, ◌<◌, ◌≤◌, ◌+◌, ◌++◌, ℕ, List, [], None, Some, length, take, drop, min, IfOk, OnOk, OnErr, IsErr, IsSome, IfSome, MatchOption};
ghost use Rattle.bb_edge.specs.Causes.{HasCause, one_more};
ghost use Rattle.bb_edge.specs.Told.{Absent, Held, Idle, Left, IsReading, Shows, GivesFront, IsPrefix, SameBut, KeepsOrEmpties, Extends, Cuts};
ghost use Rattle.bb_edge.specs.Files.{held, told_text, with_file};
ghost use Rattle.bb_edge.specs.Calls.{IsDue, with_call};
ghost use Rattle.bb_edge.specs.Memory.{reading_of};
ghost use Rattle.bb_edge.specs.declared.schedule.Step.TheVariants.{Begin, Piece, PutBegin, PutPiece, PutEnd};

use crate::files::{Files, Place, give};
use crate::schedule::{Schedule, one_more};
use crate::{Fail, Failed, Step, Store};
use std::alloc::{AllocError, Global};
use std::marker::Model;

/// Files in memory, whose calls fail where they are asked to.
#[derive(Debug, Drop)]
pub struct MemStore {
    files: Files,
    reading: Option<Place>,
    writing: Option<usize>,
    schedule: Schedule,
    read_faults: u64,
    write_faults: u64,
}

impl Model for MemStore {
    ghost use Rattle.std.specs.Option.{option_map};
    ghost use Rattle.bb_edge.specs.Files.{file_name};
    ghost use Rattle.bb_edge.specs.Memory.{Memory, HasPlaces, named_place};

    ghost Value = { Memory };

    ghost view = { λ s. record {
      files = s.files;
      reading = option_map (named_place s.files) s.reading;
      writing = option_map (file_name s.files) s.writing;
      calls = s.schedule;
      read_faults = s.read_faults;
      write_faults = s.write_faults;
    } };

    ghost invariant = { λ s. HasPlaces s.files s.reading s.writing };
}

impl MemStore {
    /// An empty store. The calls in the list fail, each counted among those of its step from 0.
    pub fn new(alloc: Global, fails: Vec<Fail>) -> Self
        ensures files { result.files ≡ [] }
        ensures reading { result.reading ≡ None }
        ensures writing { result.writing ≡ None }
        ensures calls { result.calls ≡ record { fails = fails.items; begins = 0; pieces = 0; put_begins = 0; put_pieces = 0; put_ends = 0 } }
        ensures faults { (result.read_faults ≡ 0) × (result.write_faults ≡ 0) }
    {
        MemStore {
            files: Files::new(alloc),
            reading: None,
            writing: None,
            schedule: Schedule::new(fails),
            read_faults: 0,
            write_faults: 0,
        }
    }

    /// GivesFront a name these bytes, whether it was held or not.
    pub fn set(&mut self, name: &str, bytes: &[u8]) -> Result<(), AllocError>
        ensures ok { OnOk result (self.new ≡ record self.old { files = with_file name.now bytes.now self.old.files }) }
        ensures err { OnErr result (self.new ≡ self.old) }
    {
        self.files.set(name, bytes)?;
        Ok(())
    }

    /// What a name holds.
    pub fn get(&self, name: &str) -> Option<&[u8]>
        ensures { MatchOption result (held self.now.files name.now ≡ Absent) (λ bytes. held self.now.files name.now ≡ Held bytes.now) }
    {
        let place = self.files.find(name)?;
        Some(self.files.bytes(place))
    }

    /// Ends what is being read, and counts the fault.
    fn fail_read(&mut self) -> Failed
        ensures counted { self.new ≡ record self.old { reading = None; read_faults = one_more self.old.read_faults } }
        ensures later { self.old.read_faults ≤ self.new.read_faults }
    {
        self.reading = None;
        self.read_faults = one_more(self.read_faults);
        Failed
    }

    /// Ends what is being written, and counts the fault.
    fn fail_put(&mut self) -> Failed
        ensures counted { self.new ≡ record self.old { writing = None; write_faults = one_more self.old.write_faults } }
        ensures later { self.old.write_faults ≤ self.new.write_faults }
    {
        self.writing = None;
        self.write_faults = one_more(self.write_faults);
        Failed
    }
}

impl Store for MemStore {
    ghost holds = { λ s. held s.files };

    ghost reading = { reading_of };

    ghost writing = { λ s. s.writing };

    ghost read_faults = { λ s. s.read_faults };

    ghost write_faults = { λ s. s.write_faults };

    ghost may_read = { λ _. Unit {0} };

    ghost may_write = { λ _. Unit {0} };

    /// Fails exactly where its call is to fail or the name isn't held.
    fn begin(&mut self, name: &str) -> Result<(), Failed>
        ensures fails { IsErr result ↔ (IsDue Begin self.old.calls ⊎ (held self.old.files name.now ≡ Absent)) }
        ensures ok { OnOk result (self.new ≡ record self.old { calls = with_call Begin self.old.calls; reading = Some (name.now, 0) }) }
        ensures err { OnErr result (self.new ≡ record self.old { calls = with_call Begin self.old.calls; reading = None; read_faults = one_more self.old.read_faults }) }

        ensures started { OnOk result (IsReading (reading_of self.new)) }
        ensures first { OnOk result ((text : List ℕ) → held self.old.files name.now ≡ Held text → reading_of self.new ≡ Left text) }
        ensures failed { OnErr result (reading_of self.new ≡ Idle) }
        ensures absent { held self.old.files name.now ≡ Absent → IsErr result }
        ensures contents { held self.new.files ≡ held self.old.files }
        ensures writing { self.new.writing ≡ self.old.writing }
        ensures write_faults { self.new.write_faults ≡ self.old.write_faults }
        ensures cause { HasCause self.old.read_faults self.new.read_faults result }
    {
        let due = self.schedule.count(Step::Begin);
        match self.files.find(name) {
            Some(file) if !due => {
                self.reading = Some(Place { file, given: 0 });
                Ok(())
            }
            _ => Err(self.fail_read()),
        }
    }

    /// Fails exactly where its call is to fail, and gives as many bytes as the buffer and the rest both have.
    fn piece(&mut self, buf: &mut [u8]) -> Result<usize, Failed>
        requires begun { IsReading (reading_of self.old) }
        requires room { 0 < length buf.old }

        ensures fails { IsErr result ↔ IsDue Piece self.old.calls }
        ensures count { IfOk result (λ count. (rest : List ℕ) → reading_of self.old ≡ Left rest → (count ≡ min (length rest) (length buf.old)) × (buf.new ≡ take count rest ++ drop count buf.old)) }
        ensures ok { IfOk result (λ count. self.new ≡ record self.old { calls = with_call Piece self.old.calls; reading = option_map (λ place. (place.0, place.1 + count)) self.old.reading }) }
        ensures err { OnErr result (self.new ≡ record self.old { calls = with_call Piece self.old.calls; reading = None; read_faults = one_more self.old.read_faults }) }
        ensures buffer { OnErr result (buf.new ≡ buf.old) }

        ensures goes_on { OnOk result (IsReading (reading_of self.new)) }
        ensures within { IfOk result (λ count. count ≤ length buf.new) }
        ensures bytes { IfOk result (λ count. (rest : List ℕ) → reading_of self.old ≡ Left rest
            → GivesFront rest (take count buf.new) (drop count rest) × (reading_of self.new ≡ Left (drop count rest))) }
        ensures failed { OnErr result (reading_of self.new ≡ Idle) }
        ensures contents { held self.new.files ≡ held self.old.files }
        ensures writing { self.new.writing ≡ self.old.writing }
        ensures write_faults { self.new.write_faults ≡ self.old.write_faults }
        ensures cause { HasCause self.old.read_faults self.new.read_faults result }
    {
        let due = self.schedule.count(Step::Piece);
        match self.reading {
            Some(place) if !due => {
                let count = give(self.files.bytes(place.file), place.given, buf);
                self.reading = Some(Place {
                    file: place.file,
                    given: place.given + count,
                });
                Ok(count)
            }
            _ => Err(self.fail_read()),
        }
    }

    /// Fails where its call is to fail, and else only where a name that isn't held finds no memory. Where it fails, it
    /// changes no contents.
    fn put_begin(&mut self, name: &str) -> Result<(), Failed>
        requires free { self.old.writing ≡ None }

        ensures due { IsDue PutBegin self.old.calls → IsErr result }
        ensures grows { OnErr result (IsDue PutBegin self.old.calls ⊎ (held self.old.files name.now ≡ Absent)) }
        ensures ok { OnOk result (self.new ≡ record self.old { files = with_file name.now [] self.old.files; calls = with_call PutBegin self.old.calls; writing = Some name.now }) }
        ensures err { OnErr result (self.new ≡ record self.old { calls = with_call PutBegin self.old.calls; write_faults = one_more self.old.write_faults }) }

        ensures started { OnOk result (self.new.writing ≡ Some name.now) }
        ensures emptied { OnOk result (Shows (held self.new.files name.now) []) }
        ensures failed { OnErr result (self.new.writing ≡ None) }
        ensures kept { OnErr result (KeepsOrEmpties (held self.old.files name.now) (held self.new.files name.now)) }
        ensures others { SameBut name.now (held self.old.files) (held self.new.files) }
        ensures read_faults { self.new.read_faults ≡ self.old.read_faults }
        ensures cause { HasCause self.old.write_faults self.new.write_faults result }
    {
        if self.schedule.count(Step::PutBegin) {
            return Err(self.fail_put());
        }
        match self.files.start(name) {
            Ok(file) => {
                self.writing = Some(file);
                Ok(())
            }
            Err(_) => Err(self.fail_put()),
        }
    }

    /// Fails where its call is to fail, and else only where a file that has to grow finds no memory. Where it fails, it
    /// changes no contents.
    fn put_piece(&mut self, bytes: &[u8]) -> Result<(), Failed>
        requires { IsSome self.old.writing }

        ensures due { IsDue PutPiece self.old.calls → IsErr result }
        ensures grows { OnErr result (IsDue PutPiece self.old.calls ⊎ (bytes.now ≢ [])) }
        ensures ok { OnOk result (IfSome self.old.writing (λ name.
            self.new ≡ record self.old { files = with_file name (told_text (held self.old.files name) ++ bytes.now) self.old.files; calls = with_call PutPiece self.old.calls })) }
        ensures err { OnErr result (self.new ≡ record self.old { calls = with_call PutPiece self.old.calls; writing = None; write_faults = one_more self.old.write_faults }) }

        ensures goes_on { OnOk result (self.new.writing ≡ self.old.writing) }
        ensures all { OnOk result (IfSome self.old.writing (λ name. Extends (held self.old.files name) (held self.new.files name) bytes.now)) }
        ensures failed { OnErr result (self.new.writing ≡ None) }
        ensures front { OnErr result (IfSome self.old.writing (λ name. (front : List ℕ) × IsPrefix front bytes.now × Extends (held self.old.files name) (held self.new.files name) front)) }
        ensures others { IfSome self.old.writing (λ name. SameBut name (held self.old.files) (held self.new.files)) }
        ensures read_faults { self.new.read_faults ≡ self.old.read_faults }
        ensures cause { HasCause self.old.write_faults self.new.write_faults result }
    {
        let due = self.schedule.count(Step::PutPiece);
        match self.writing {
            Some(file) if !due => match self.files.append(file, bytes) {
                Ok(()) => Ok(()),
                Err(_) => Err(self.fail_put()),
            },
            _ => Err(self.fail_put()),
        }
    }

    /// Fails exactly where its call is to fail, and changes no contents.
    fn put_end(&mut self) -> Result<(), Failed>
        requires { IsSome self.old.writing }

        ensures fails { IsErr result ↔ IsDue PutEnd self.old.calls }
        ensures ok { OnOk result (self.new ≡ record self.old { calls = with_call PutEnd self.old.calls; writing = None }) }
        ensures err { OnErr result (self.new ≡ record self.old { calls = with_call PutEnd self.old.calls; writing = None; write_faults = one_more self.old.write_faults }) }

        ensures stopped { self.new.writing ≡ None }
        ensures all { OnOk result (held self.new.files ≡ held self.old.files) }
        ensures front { OnErr result (IfSome self.old.writing (λ name. Cuts (held self.old.files name) (held self.new.files name))) }
        ensures others { IfSome self.old.writing (λ name. SameBut name (held self.old.files) (held self.new.files)) }
        ensures read_faults { self.new.read_faults ≡ self.old.read_faults }
        ensures cause { HasCause self.old.write_faults self.new.write_faults result }
    {
        if self.schedule.count(Step::PutEnd) {
            return Err(self.fail_put());
        }
        self.writing.take();
        Ok(())
    }
}
