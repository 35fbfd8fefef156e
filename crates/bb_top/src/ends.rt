//! How a command ends: its files are written and its line is put, or only a refusal's line.

ghost use Rattle.std.specs.Prelude.{◌≡◌, ◌≢◌, ◌⊎◌, ◌≤◌, None};
ghost use Rattle.std.specs.List.{AllByRecursion};
ghost use Rattle.bb_edge.specs.Causes.{Rose};
ghost use Rattle.bb_edge.specs.Told.{AppendsAll, AppendsFront};
ghost use Rattle.bb_read.specs.Files.{names_of, AreApart, AreWhole, SameButAll, AreCutShort};
ghost use Rattle.bb_read.specs.declared.refusal.Refusal.{Refusal as RefusalValue};
ghost use Rattle.bb_read.specs.Lines.{refusal_line};

use bb_compile::Prepared;
use bb_edge::{Failed, Sink, Store};
use bb_read::{Refusal, Stop, line_of, write_files};
use std::alloc::Global;

/// Puts the line of a refusal, and answers the status.
fn refuse<K: Sink>(alloc: Global, refusal: &Refusal, out: &mut K) -> u8
    ensures known { result ≤ 5 }
    ensures not_done { result ≢ 0 }
    ensures not_usage { result ≢ 2 }
    ensures not_read { result ≢ 3 }
    ensures refused { result ≡ 1 → AppendsAll (K.told out.old) (K.told out.new) (refusal_line refusal.now) }
    ensures write { result ≡ 4 → Rose (K.faults out.old) (K.faults out.new) × AppendsFront (K.told out.old) (K.told out.new) (refusal_line refusal.now) }
    ensures memory { result ≡ 5 → K.told out.new ≡ K.told out.old }
{
    let Ok(line) = line_of(alloc, refusal) else {
        return 5;
    };
    match out.put(&line) {
        Ok(()) => 1,
        Err(Failed) => 4,
    }
}

/// Answers the status of a command that has nothing to write, and puts the line of its refusal if it has one.
pub(crate) fn stopped<K: Sink>(alloc: Global, stop: &Stop, out: &mut K) -> u8
    ensures known { result ≤ 5 }
    ensures not_done { result ≢ 0 }
    ensures not_usage { result ≢ 2 }
    ensures refused { result ≡ 1 → (refusal : RefusalValue) × (stop.now ≡ Stop.Refused refusal) × AppendsAll (K.told out.old) (K.told out.new) (refusal_line refusal) }
    ensures read { result ≡ 3 → (stop.now ≡ Stop.Read) × (K.told out.new ≡ K.told out.old) }
    ensures write { result ≡ 4 → (refusal : RefusalValue) × (stop.now ≡ Stop.Refused refusal) × Rose (K.faults out.old) (K.faults out.new)
        × AppendsFront (K.told out.old) (K.told out.new) (refusal_line refusal) }
    ensures memory { result ≡ 5 → K.told out.new ≡ K.told out.old }
{
    match stop {
        Stop::Read => 3,
        Stop::NoMemory => 5,
        Stop::Refused(refusal) => refuse(alloc, refusal, out),
    }
}

/// Writes the files of a command and then puts its line, and answers the status.
pub(crate) fn finish<S: Store, K: Sink>(prepared: &Prepared, store: &mut S, out: &mut K) -> u8
    requires free { S.writing store.old ≡ None }
    requires may { AllByRecursion (λ f. S.may_write f.0) prepared.now.files }
    requires apart { AreApart prepared.now.files }
    ensures free { S.writing store.new ≡ None }
    ensures status { (result ≡ 0) ⊎ (result ≡ 4) }
    ensures done { result ≡ 0 → AreWhole prepared.now.files (S.holds store.new) × AppendsAll (K.told out.old) (K.told out.new) prepared.now.line }
    ensures write { result ≡ 4
        → (Rose (S.write_faults store.old) (S.write_faults store.new) × (K.told out.new ≡ K.told out.old) × AreCutShort prepared.now.files (S.holds store.old) (S.holds store.new))
        ⊎ (Rose (K.faults out.old) (K.faults out.new) × AreWhole prepared.now.files (S.holds store.new) × AppendsFront (K.told out.old) (K.told out.new) prepared.now.line) }
    ensures others { SameButAll (names_of prepared.now.files) (S.holds store.old) (S.holds store.new) }
{
    match write_files(store, &prepared.files) {
        Ok(()) => {}
        Err(Failed) => return 4,
    }
    match out.put(&prepared.line) {
        Ok(()) => 0,
        Err(Failed) => 4,
    }
}
