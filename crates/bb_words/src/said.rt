// What the pieces of a call say.

ghost use Rattle.std.specs.Prelude.{◌≡◌, ◌≢◌, false, ◌⊎◌, ◌<◌, ◌++◌, [], ℕ, List, length, map, string_bytes, IfSome, IsTrue, None, slice_index_or};
ghost use Rattle.std.specs.List.{AllByRecursion, flat_map};
ghost use Rattle.bb_words.specs.declared.setting.Setting.{Setting as SettingValue};
ghost use Rattle.bb_words.specs.declared.command.Settings.{Settings as SettingsValue};
ghost use Rattle.bb_words.specs.Options.{IsInRange, row_of};
ghost use Rattle.bb_words.specs.Calls.{PieceValue, IsPiece, writing, AreSettings};
ghost use Rattle.bb_words.specs.Parts.{plain_words, numbers_by, words_in, numbers_said, HasSaid, AreAllowed, AreFew};

use crate::command::Settings;
use crate::piece::{Piece, piece_in};
use crate::setting::Setting;

/// The positional words of a call.
#[derive(Clone, Copy)]
pub enum Positional<'a> {
    Nothing,
    One(&'a str),
    Two(&'a str, &'a str),
}

/// What the pieces of a call say.
#[derive(Clone, Copy)]
pub struct Said<'a> {
    pub positional: Positional<'a>,
    /// The number that the option of each setting gives.
    pub numbers: [Option<u64>; 5],
}

impl<'a> Said<'a> {
    /// The same with one more positional word, where there is room for it.
    fn with_word(self, word: &'a str) -> Option<Said<'a>>
        ensures with { IfSome result (λ said. (words_in said.positional ≡ words_in self.entry.positional ++ plain_words (Piece.Word word.entry))
            × (said.numbers ≡ self.entry.numbers)) }
        ensures none { result ≡ None → 2 < length (words_in self.entry.positional ++ plain_words (Piece.Word word.entry)) }
    {
        let positional = match self.positional {
            Positional::Nothing => Positional::One(word),
            Positional::One(first) => Positional::Two(first, word),
            Positional::Two(..) => return None,
        };
        Some(Said { positional, ..self })
    }

    /// The same with one more number, where its option has none yet.
    fn with_number(self, setting: Setting, number: u64) -> Option<Said<'a>>
        ensures words { IfSome result (λ said. said.positional ≡ self.entry.positional) }
        ensures numbers { IfSome result (λ said. (other : SettingValue)
            → numbers_said said other ≡ numbers_said self.entry other ++ numbers_by (Piece.Number setting number) other) }
        ensures none { result ≡ None → 1 < length (numbers_said self.entry setting ++ numbers_by (Piece.Number setting number) setting) }
    {
        let mut numbers = self.numbers;
        let place = setting.place();
        let before = numbers[place];
        if before.is_some() {
            return None;
        }
        numbers[place] = Some(number);
        Some(Said { numbers, ..self })
    }

    /// The same with what a piece says, where a command may say it.
    fn with(self, piece: Piece<'a>) -> Option<Said<'a>>
        ensures words { IfSome result (λ said. words_in said.positional ≡ words_in self.entry.positional ++ plain_words piece.entry) }
        ensures numbers { IfSome result (λ said. (setting : SettingValue)
            → numbers_said said setting ≡ numbers_said self.entry setting ++ numbers_by piece.entry setting) }
        ensures none { result ≡ None → (2 < length (words_in self.entry.positional ++ plain_words piece.entry))
            ⊎ ((setting : SettingValue) × (1 < length (numbers_said self.entry setting ++ numbers_by piece.entry setting))) }
    {
        match piece {
            Piece::Word(word) => self.with_word(word),
            Piece::Number(setting, number) => self.with_number(setting, number),
        }
    }

    /// The number of a setting: that of its option, or its default.
    fn number(&self, setting: Setting) -> u64
        requires { AreAllowed self.now }
        ensures value { result ≡ slice_index_or (numbers_said self.now setting) 0 (row_of setting).default }
        ensures in_range { IsInRange setting result }
    {
        match self.numbers[setting.place()] {
            Some(number) => number,
            None => setting.range().default,
        }
    }

    /// What the options set, where the least degree isn't above the greatest.
    pub fn settings(&self) -> Option<Settings>
        requires { AreAllowed self.now }
        ensures found { IfSome result (AreSettings (numbers_said self.now)) }
        ensures none { result ≡ None → (settings : SettingsValue) → AreSettings (numbers_said self.now) settings → ⊥ }
    {
        let settings = Settings {
            width: self.number(Setting::Width) as u32,
            min_degree: self.number(Setting::MinDegree) as u32,
            max_degree: self.number(Setting::MaxDegree) as u32,
            max_cycles: self.number(Setting::MaxCycles),
            register: self.number(Setting::Register) as u32,
        };
        if settings.max_degree < settings.min_degree {
            return None;
        }
        Some(settings)
    }

    /// Whether the option of a setting gives a number.
    fn gives(&self, setting: Setting) -> bool
        ensures yes { IsTrue result → numbers_said self.now setting ≢ [] }
        ensures no { result ≡ false → numbers_said self.now setting ≡ [] }
    {
        let number = self.numbers[setting.place()];
        number.is_some()
    }

    /// Whether no option gives a number.
    pub fn is_plain(&self) -> bool
        ensures yes { IsTrue result → (setting : SettingValue) → numbers_said self.now setting ≡ [] }
        ensures no { result ≡ false → ((setting : SettingValue) → numbers_said self.now setting ≡ []) → ⊥ }
    {
        if self.gives(Setting::Width)
            || self.gives(Setting::MinDegree)
            || self.gives(Setting::MaxDegree)
            || self.gives(Setting::MaxCycles)
            || self.gives(Setting::Register)
        {
            return false;
        }
        true
    }
}

/// What the words behind a command's first word say, where they are pieces that a command may have.
pub fn said_in(words: &[String]) -> Option<Said<'_>>
    ensures said { IfSome result (λ said. HasSaid (map (λ w. string_bytes w) words.now) said []) }
    ensures none { result ≡ None → (pieces : List PieceValue) → AllByRecursion IsPiece pieces
        → map (λ w. string_bytes w) words.now ≡ flat_map writing pieces → AreFew pieces → ⊥ }
{
    let mut said = Said {
        positional: Positional::Nothing,
        numbers: [None; 5],
    };
    let mut rest = words;
    'pieces: while !rest.is_empty() {
        let (piece, behind) = piece_in(rest)?;
        said = said.with(piece)?;
        rest = behind;
    }
    Some(said)
}
