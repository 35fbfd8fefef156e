//! The three commands.

ghost use Rattle.std.specs.Prelude.{◌≡◌, ◌≤◌, None};
ghost use Rattle.std.specs.List.{AllByRecursion};
ghost use Rattle.bb_words.specs.Commands.{Compile, Check, Sample, command_value, files_of, names_read, names_written};
ghost use Rattle.bb_choose.specs.Arranged.{AreInRange};
ghost use Rattle.bb_top.specs.Steps.{around, AreRanged, HasAnswered};

use crate::ends::{finish, stopped};
use bb_compile::{made_or_refused, prepare, prepare_sample, room_is_enough};
use bb_edge::{Failed, Sink, Store};
use bb_words::{Command, Settings};
use std::alloc::Global;

/// `compile IN PREFIX`, with its settings.
pub(crate) fn compile<S: Store, K: Sink>(
    alloc: Global,
    input: &str,
    prefix: &str,
    settings: &Settings,
    store: &mut S,
    out: &mut K,
) -> u8
    requires may_read { S.may_read input.now }
    requires may_write { AllByRecursion S.may_write (files_of prefix.now) }
    requires settings { AreInRange settings.now }
    requires free { S.writing store.old ≡ None }
    ensures free { S.writing store.new ≡ None }
    ensures answered { HasAnswered (Compile input.now prefix.now settings.now)
        (around (S.holds store.old) (S.read_faults store.old) (S.write_faults store.old) (K.told out.old) (K.faults out.old))
        (around (S.holds store.new) (S.read_faults store.new) (S.write_faults store.new) (K.told out.new) (K.faults out.new)) result }
{
    made_or_refused();
    room_is_enough();
    match prepare(alloc, store, input, prefix, settings) {
        Ok(prepared) => finish(&prepared, store, out),
        Err(stop) => stopped(alloc, &stop, out),
    }
}

/// `sample NUMBER PREFIX`, with its settings.
pub(crate) fn sample<S: Store, K: Sink>(
    alloc: Global,
    number: u32,
    prefix: &str,
    settings: &Settings,
    store: &mut S,
    out: &mut K,
) -> u8
    requires least { 1 ≤ number }
    requires most { number ≤ 65536 }
    requires may_write { AllByRecursion S.may_write (names_written (Sample number prefix.now settings.now)) }
    requires settings { AreInRange settings.now }
    requires free { S.writing store.old ≡ None }
    ensures free { S.writing store.new ≡ None }
    ensures answered { HasAnswered (Sample number prefix.now settings.now)
        (around (S.holds store.old) (S.read_faults store.old) (S.write_faults store.old) (K.told out.old) (K.faults out.old))
        (around (S.holds store.new) (S.read_faults store.new) (S.write_faults store.new) (K.told out.new) (K.faults out.new)) result }
{
    made_or_refused();
    room_is_enough();
    match prepare_sample(alloc, number, prefix, settings) {
        Ok(prepared) => finish(&prepared, store, out),
        Err(stop) => stopped(alloc, &stop, out),
    }
}

/// `check IN PREFIX`.
pub(crate) fn check<S: Store, K: Sink>(
    alloc: Global,
    input: &str,
    prefix: &str,
    store: &mut S,
    out: &mut K,
) -> u8
    requires may_read { AllByRecursion S.may_read (names_read (Check input.now prefix.now)) }
    requires free { S.writing store.old ≡ None }
    ensures free { S.writing store.new ≡ None }
    ensures answered { HasAnswered (Check input.now prefix.now)
        (around (S.holds store.old) (S.read_faults store.old) (S.write_faults store.old) (K.told out.old) (K.faults out.old))
        (around (S.holds store.new) (S.read_faults store.new) (S.write_faults store.new) (K.told out.new) (K.faults out.new)) result }
{
    match bb_check::check(alloc, store, input, prefix) {
        Ok(()) => match out.put(b"pass\n") {
            Ok(()) => 0,
            Err(Failed) => 4,
        },
        Err(stop) => stopped(alloc, &stop, out),
    }
}

/// Does what a command asks for, and answers the status.
pub(crate) fn run<S: Store, K: Sink>(
    alloc: Global,
    command: &Command,
    store: &mut S,
    out: &mut K,
) -> u8
    requires may_read { AllByRecursion S.may_read (names_read (command_value command.now)) }
    requires may_write { AllByRecursion S.may_write (names_written (command_value command.now)) }
    requires ranges { AreRanged (command_value command.now) }
    requires free { S.writing store.old ≡ None }
    ensures free { S.writing store.new ≡ None }
    ensures answered { HasAnswered (command_value command.now)
        (around (S.holds store.old) (S.read_faults store.old) (S.write_faults store.old) (K.told out.old) (K.faults out.old))
        (around (S.holds store.new) (S.read_faults store.new) (S.write_faults store.new) (K.told out.new) (K.faults out.new)) result }
{
    match command {
        Command::Compile {
            input,
            prefix,
            settings,
        } => compile(alloc, input.as_str(), prefix.as_str(), settings, store, out),
        Command::Check { input, prefix } => check(
            alloc,
            input.as_str(),
            prefix.as_str(),
            store,
            out,
        ),
        Command::Sample {
            number,
            prefix,
            settings,
        } => sample(alloc, *number, prefix.as_str(), settings, store, out),
    }
}
