// From words to their command.

ghost use Rattle.std.specs.Prelude.{◌≡◌, ◌≤◌, ◌↔◌, ◌∷◌, [], ℕ, List, codes, map, string_bytes, IfOk, IfSome, IsTrue, IsErrOf, Contains, None, decimal};
ghost use Rattle.bb_words.specs.declared.command.WordsFault;
ghost use Rattle.bb_words.specs.Commands.{CommandValue, command_value, files_of, HasSameName};
ghost use Rattle.bb_words.specs.Calls.{Means};
ghost use Rattle.bb_words.specs.Parts.{AreAllowed, IsCommand};

use crate::command::{Command, WordsFault};
use crate::number::number_in;
use crate::said::{Positional, Said, said_in};
use std::alloc::Global;

/// The greatest number of a sample.
const MAX_SAMPLE: u64 = 65_536;

/// Whether a name is that of one of a prefix's four files.
fn is_file_of(name: &str, prefix: &str) -> bool
    ensures { IsTrue result ↔ Contains (files_of prefix.now) name.now }
{
    match name.strip_prefix(prefix) {
        Some(ending) => matches!(ending, ".v" | ".sched" | ".sig" | ".cert"),
        None => false,
    }
}

/// `compile IN PREFIX`, with options.
fn compile(alloc: Global, said: &Said<'_>) -> Result<Command, WordsFault>
    requires { AreAllowed said.now }
    ensures command { IfOk result (λ c. IsCommand (codes "compile") said.now (command_value c) × (HasSameName (command_value c) → ⊥)) }
    ensures usage { IsErrOf result WordsFault.Usage → (c : CommandValue) → IsCommand (codes "compile") said.now c → ⊥ }
    ensures same { IsErrOf result WordsFault.SameName → (c : CommandValue) × IsCommand (codes "compile") said.now c × HasSameName c }
{
    let Positional::Two(input, prefix) = said.positional else {
        return Err(WordsFault::Usage);
    };
    let Some(settings) = said.settings() else {
        return Err(WordsFault::Usage);
    };
    if is_file_of(input, prefix) {
        return Err(WordsFault::SameName);
    }
    Ok(Command::Compile {
        input: String::from_str(alloc, input)?,
        prefix: String::from_str(alloc, prefix)?,
        settings,
    })
}

/// `check IN PREFIX`, with no option.
fn check(alloc: Global, said: &Said<'_>) -> Result<Command, WordsFault>
    ensures command { IfOk result (λ c. IsCommand (codes "check") said.now (command_value c) × (HasSameName (command_value c) → ⊥)) }
    ensures usage { IsErrOf result WordsFault.Usage → (c : CommandValue) → IsCommand (codes "check") said.now c → ⊥ }
    ensures same { IsErrOf result WordsFault.SameName → ⊥ }
{
    let Positional::Two(input, prefix) = said.positional else {
        return Err(WordsFault::Usage);
    };
    if !said.is_plain() {
        return Err(WordsFault::Usage);
    }
    Ok(Command::Check {
        input: String::from_str(alloc, input)?,
        prefix: String::from_str(alloc, prefix)?,
    })
}

/// The number of a sample that a word writes.
fn sample_number(word: &str) -> Option<u32>
    ensures found { IfSome result (λ number. (1 ≤ number) × (number ≤ 65536) × (word.now ≡ decimal number)) }
    ensures none { result ≡ None → (number : ℕ) → 1 ≤ number → number ≤ 65536 → word.now ≡ decimal number → ⊥ }
{
    let number = number_in(word)?;
    if number > MAX_SAMPLE {
        return None;
    }
    Some(number as u32)
}

/// `sample NUMBER PREFIX`, with options.
fn sample(alloc: Global, said: &Said<'_>) -> Result<Command, WordsFault>
    requires { AreAllowed said.now }
    ensures command { IfOk result (λ c. IsCommand (codes "sample") said.now (command_value c) × (HasSameName (command_value c) → ⊥)) }
    ensures usage { IsErrOf result WordsFault.Usage → (c : CommandValue) → IsCommand (codes "sample") said.now c → ⊥ }
    ensures same { IsErrOf result WordsFault.SameName → ⊥ }
{
    let Positional::Two(word, prefix) = said.positional else {
        return Err(WordsFault::Usage);
    };
    let Some(number) = sample_number(word) else {
        return Err(WordsFault::Usage);
    };
    let Some(settings) = said.settings() else {
        return Err(WordsFault::Usage);
    };
    Ok(Command::Sample {
        number,
        prefix: String::from_str(alloc, prefix)?,
        settings,
    })
}

/// The command that words mean. Usage comes before SameName.
pub fn words(alloc: Global, words: &[String]) -> Result<Command, WordsFault>
    ensures command { IfOk result (λ c. Means (map (λ w. string_bytes w) words.now) (command_value c) × (HasSameName (command_value c) → ⊥)) }
    ensures usage { IsErrOf result WordsFault.Usage → (c : CommandValue) → Means (map (λ w. string_bytes w) words.now) c → ⊥ }
    ensures same { IsErrOf result WordsFault.SameName → (c : CommandValue) × Means (map (λ w. string_bytes w) words.now) c × HasSameName c }
{
    let Some((first, rest)) = words.split_first() else {
        return Err(WordsFault::Usage);
    };
    let Some(said) = said_in(rest) else {
        return Err(WordsFault::Usage);
    };
    match first.as_str() {
        "compile" => compile(alloc, &said),
        "check" => check(alloc, &said),
        "sample" => sample(alloc, &said),
        _ => Err(WordsFault::Usage),
    }
}
