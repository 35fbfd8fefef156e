// The pieces of a call, one after the other.

ghost use Rattle.std.specs.Prelude.{◌≡◌, ◌≢◌, ◌++◌, ◌∷◌, ℕ, List, map, string_bytes, IfSome, None, MatchOption, IsTrue, ◌↔◌, decimal};
ghost use Rattle.bb_words.specs.Calls.{PieceValue, IsPiece, IsPositional, writing};
ghost use Rattle.bb_words.specs.Options.{IsInRange, row_of};
ghost use Rattle.bb_words.specs.Parts.{IsFirstPiece};
ghost use Rattle.bb_words.specs.declared.setting.Setting.{Setting as SettingValue};

use crate::number::number_in;
use crate::setting::Setting;

/// A piece of a call.
#[derive(Clone, Copy)]
pub enum Piece<'a> {
    /// A positional word.
    Word(&'a str),
    /// The number that an option gives.
    Number(Setting, u64),
}

/// Whether a word is no option: it isn't empty, and doesn't begin with `-`.
fn is_positional(word: &str) -> bool
    ensures { IsTrue result ↔ IsPositional word.now }
{
    match word.as_bytes() {
        [] => false,
        [first, ..] => *first != b'-',
    }
}

/// A word behind its two dashes.
fn behind_dashes(word: &str) -> Option<&str>
    ensures { MatchOption result ((rest : List ℕ) → word.now ≢ 45 ∷ 45 ∷ rest) (λ rest. word.now ≡ 45 ∷ 45 ∷ rest.now) }
{
    word.strip_prefix("--")
}

/// The number in its range that a text writes for a setting.
fn number_for(setting: Setting, text: &str) -> Option<u64>
    ensures found { IfSome result (λ number. IsInRange setting number × (text.now ≡ decimal number)) }
    ensures none { result ≡ None → (number : ℕ) → IsInRange setting number → text.now ≢ decimal number }
{
    let number = number_in(text)?;
    let range = setting.range();
    if number < range.least || range.most < number {
        return None;
    }
    Some(number)
}

/// The option of a name and a text.
fn option_of(name: &str, text: &str) -> Option<(Setting, u64)>
    ensures found { IfSome result (λ x. (name.now ≡ (row_of x.0).name) × IsInRange x.0 x.1 × (text.now ≡ decimal x.1)) }
    ensures none { result ≡ None → (setting : SettingValue) (number : ℕ) → IsInRange setting number → name.now ≡ (row_of setting).name
        → text.now ≢ decimal number }
{
    let setting = Setting::named(name)?;
    let number = number_for(setting, text)?;
    Some((setting, number))
}

/// The first piece of words, and the words behind it.
pub fn piece_in(words: &[String]) -> Option<(Piece<'_>, &[String])>
    ensures found { IfSome result (λ x. IsFirstPiece (map (λ w. string_bytes w) words.now) x.0 (map (λ w. string_bytes w) x.1.now)) }
    ensures none { result ≡ None → (value : PieceValue) (rest : List (List ℕ)) → IsPiece value
        → map (λ w. string_bytes w) words.now ≢ writing value ++ rest }
{
    let (first, rest) = words.split_first()?;
    let word = first.as_str();
    if is_positional(word) {
        return Some((Piece::Word(word), rest));
    }
    let option = behind_dashes(word)?;
    if let Some((name, text)) = option.split_once('=') {
        let (setting, number) = option_of(name, text)?;
        return Some((Piece::Number(setting, number), rest));
    }
    let (text, behind) = rest.split_first()?;
    let (setting, number) = option_of(option, text.as_str())?;
    Some((Piece::Number(setting, number), behind))
}
