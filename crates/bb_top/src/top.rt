ghost use Rattle.std.specs.Prelude.{◌≡◌, ◌≢◌, ◌⊎◌, ◌≤◌, map, ℕ, List, None, Contains, string_bytes};
ghost use Rattle.bb_edge.specs.Causes.{Rose};
ghost use Rattle.bb_edge.specs.Told.{AppendsAll};
ghost use Rattle.bb_words.specs.Commands.{CommandValue, names_read, names_written, HasSameName};
ghost use Rattle.bb_words.specs.Calls.{Means};
ghost use Rattle.bb_read.specs.declared.refusal.Refusal.{Refusal as RefusalValue};
ghost use Rattle.bb_read.specs.Lines.{refusal_line};
ghost use Rattle.bb_top.specs.Ends.{Success, success_line, IsDone, IsRefusal, IsUnwritten, IsUnsaid, MeanNothing, usage_line, same_name_line};
ghost use Rattle.bb_top.specs.Needs.{HasNeeds, HasRefusal};

use crate::commands::run;
use bb_edge::{Failed, Sink, Store};
use bb_words::{WordsFault, one_command};
use std::alloc::Global;

/// Reads the words, does what they mean, puts a line, and answers the status: 0 where it is done, 1 where a file or a sample is refused,
/// 2 where the words mean no command or one that would write its own input, 3 where reading failed, 4 where writing failed, 5 where
/// memory was wanting.
pub fn bilbo<S: Store, K: Sink>(alloc: Global, words: &[String], store: &mut S, out: &mut K) -> u8
    // The names that the command reads and writes may be read and written. Words that mean none ask nothing of names.
    requires may_read { (command : CommandValue) (name : List ℕ) → Means (map (λ w. string_bytes w) words.now) command → Contains (names_read command) name → S.may_read name }
    requires may_write { (command : CommandValue) (name : List ℕ) → Means (map (λ w. string_bytes w) words.now) command → Contains (names_written command) name → S.may_write name }
    requires free { S.writing store.old ≡ None }

    ensures free { S.writing store.new ≡ None }
    ensures status { result ≤ 5 }

    // `compile` and `sample`: a text denotes a netlist, and the files hold its self-test. `check`: the files are a self-test of IN's netlist.
    ensures done { result ≡ 0 → (command : CommandValue) × (success : Success) × Means (map (λ w. string_bytes w) words.now) command
        × IsDone command success (S.holds store.old) (S.holds store.new) × AppendsAll (K.told out.old) (K.told out.new) (success_line success) }
    ensures refused { result ≡ 1 → (command : CommandValue) × (refusal : RefusalValue) × Means (map (λ w. string_bytes w) words.now) command
        × IsRefusal command refusal (S.holds store.old) × AppendsAll (K.told out.old) (K.told out.new) (refusal_line refusal) × (S.holds store.new ≡ S.holds store.old) }
    ensures words { result ≡ 2 → (S.holds store.new ≡ S.holds store.old)
        × ((MeanNothing (map (λ w. string_bytes w) words.now) × AppendsAll (K.told out.old) (K.told out.new) usage_line)
        ⊎ ((command : CommandValue) × Means (map (λ w. string_bytes w) words.now) command × HasSameName command × AppendsAll (K.told out.old) (K.told out.new) same_name_line)) }
    ensures read { result ≡ 3 → Rose (S.read_faults store.old) (S.read_faults store.new)
        × (K.told out.new ≡ K.told out.old) × (S.holds store.new ≡ S.holds store.old) }
    ensures write { result ≡ 4
        → (Rose (S.write_faults store.old) (S.write_faults store.new) × (K.told out.new ≡ K.told out.old)
        × ((command : CommandValue) × Means (map (λ w. string_bytes w) words.now) command × IsUnwritten command (S.holds store.old) (S.holds store.new)))
        ⊎ (Rose (K.faults out.old) (K.faults out.new) × IsUnsaid (map (λ w. string_bytes w) words.now) (S.holds store.old) (S.holds store.new) (K.told out.old) (K.told out.new)) }
    ensures memory { result ≡ 5 → (K.told out.new ≡ K.told out.old) × (S.holds store.new ≡ S.holds store.old) }

    // Words that mean no command are answered so, unless the sink fails or memory is wanting.
    ensures always_usage { MeanNothing (map (λ w. string_bytes w) words.now) → (result ≡ 2) ⊎ (result ≡ 4) ⊎ (result ≡ 5) }
    // And so are those whose command would write its own input.
    ensures always_same_name { (command : CommandValue) → Means (map (λ w. string_bytes w) words.now) command → HasSameName command → (result ≡ 2) ⊎ (result ≡ 4) ⊎ (result ≡ 5) }
    // A command that has what it needs is done, unless the store or the sink fails or memory is wanting.
    ensures complete { (command : CommandValue) → Means (map (λ w. string_bytes w) words.now) command → (HasSameName command → ⊥) → HasNeeds command (S.holds store.old)
        → (result ≢ 1) × (result ≢ 2) }
    // One that has a refusal is refused, unless the store or the sink fails or memory is wanting.
    ensures always_refused { (command : CommandValue) (refusal : RefusalValue) → Means (map (λ w. string_bytes w) words.now) command → (HasSameName command → ⊥)
        → HasRefusal command refusal (S.holds store.old) → (result ≢ 0) × (result ≢ 2) }
{
    one_command();
    match bb_words::words(alloc, words) {
        Ok(command) => run(alloc, &command, store, out),
        Err(WordsFault::Usage) => match out.put(
            b"usage: bilbo compile IN PREFIX [options] | check IN PREFIX | sample N PREFIX [options]\n",
        ) {
            Ok(()) => 2,
            Err(Failed) => 4,
        },
        Err(WordsFault::SameName) => match out.put(b"refused words: same name\n") {
            Ok(()) => 2,
            Err(Failed) => 4,
        },
        Err(WordsFault::NoMemory) => 5,
    }
}
