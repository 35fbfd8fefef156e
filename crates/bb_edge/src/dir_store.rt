ghost use Rattle.std.specs.Prelude.{◌≡◌, ◌≤◌, None, false};
ghost use Rattle.bb_edge.specs.Causes.{one_more};
ghost use Rattle.bb_edge.specs.Told.{Untold};
ghost use Rattle.bb_edge.specs.Outside.{reading_if};

use crate::schedule::one_more;
use crate::{Failed, Store};
use std::alloc::Global;
use std::fs;
use std::io::{Read, Write};
use std::marker::Model;
use std::rt::Files;

/// A file that is being written.
#[derive(Drop)]
struct Output<F> {
    name: String,
    file: F,
}

/// The files of the system, by their paths. Nothing is told of what they hold, and each fault is counted.
#[derive(Drop)]
pub struct DirStore<'a, R: Files> {
    alloc: Global,
    files: &'a R,
    reading: Option<R::File>,
    writing: Option<Output<R::File>>,
    read_faults: u64,
    write_faults: u64,
}

impl<'a, R: Files> Model for DirStore<'a, R> {
    ghost use Rattle.std.specs.Prelude.{is_some, string_bytes};
    ghost use Rattle.std.specs.Option.{option_map};
    ghost use Rattle.bb_edge.specs.Outside.{Outside};

    ghost Value = { Outside };

    ghost view = { λ s. record {
      reading = is_some s.reading;
      writing = option_map (λ output. string_bytes output.name) s.writing;
      read_faults = s.read_faults;
      write_faults = s.write_faults;
    } };
}

impl<'a, R: Files> DirStore<'a, R> {
    /// Nothing is read or written yet.
    pub fn new(alloc: Global, files: &'a R) -> Self
        ensures { result ≡ record { reading = false; writing = None; read_faults = 0; write_faults = 0 } }
    {
        DirStore {
            alloc,
            files,
            reading: None,
            writing: None,
            read_faults: 0,
            write_faults: 0,
        }
    }

    /// Ends what is being read, and counts the fault.
    fn fail_read(&mut self) -> Failed
        ensures counted { self.new ≡ record self.old { reading = false; read_faults = one_more self.old.read_faults } }
        ensures later { self.old.read_faults ≤ self.new.read_faults }
    {
        self.reading = None;
        self.read_faults = one_more(self.read_faults);
        Failed
    }

    /// Ends what is being written, and counts the fault.
    fn fail_put(&mut self) -> Failed
        ensures counted { self.new ≡ record self.old { writing = None; write_faults = one_more self.old.write_faults } }
        ensures later { self.old.write_faults ≤ self.new.write_faults }
    {
        self.writing = None;
        self.write_faults = one_more(self.write_faults);
        Failed
    }
}

impl<'a, R: Files> Store for DirStore<'a, R> {
    ghost holds = { λ s name. Untold };

    ghost reading = { λ s. reading_if s.reading };

    ghost writing = { λ s. s.writing };

    ghost read_faults = { λ s. s.read_faults };

    ghost write_faults = { λ s. s.write_faults };

    ghost may_read = { λ _. Unit {0} };

    ghost may_write = { λ _. Unit {0} };

    fn begin(&mut self, name: &str) -> Result<(), Failed> {
        match fs::open(self.files, name) {
            Ok(file) => {
                self.reading = Some(file);
                Ok(())
            }
            Err(_) => Err(self.fail_read()),
        }
    }

    fn piece(&mut self, buf: &mut [u8]) -> Result<usize, Failed> {
        let read = match &mut self.reading {
            Some(file) => file.read(buf),
            None => return Err(self.fail_read()),
        };
        match read {
            Ok(count) => Ok(count),
            Err(_) => Err(self.fail_read()),
        }
    }

    /// Want of memory for the name counts as a fault.
    fn put_begin(&mut self, name: &str) -> Result<(), Failed> {
        let Ok(copy) = String::from_str(self.alloc, name) else {
            return Err(self.fail_put());
        };
        match fs::create(self.files, name) {
            Ok(file) => {
                self.writing = Some(Output { name: copy, file });
                Ok(())
            }
            Err(_) => Err(self.fail_put()),
        }
    }

    fn put_piece(&mut self, bytes: &[u8]) -> Result<(), Failed> {
        let written = match &mut self.writing {
            Some(output) => output.file.write_all(bytes),
            None => return Err(self.fail_put()),
        };
        match written {
            Ok(()) => Ok(()),
            Err(_) => Err(self.fail_put()),
        }
    }

    /// Flushes the file and closes it.
    fn put_end(&mut self) -> Result<(), Failed> {
        let flushed = match &mut self.writing {
            Some(output) => output.file.flush(),
            None => return Err(self.fail_put()),
        };
        match flushed {
            Ok(()) => {
                self.writing = None;
                Ok(())
            }
            Err(_) => Err(self.fail_put()),
        }
    }
}
