ghost use Rattle.std.specs.Prelude.{◌≡◌, ◌≤◌, ◌<◌, ◌^◌, Option, Some, None, length, IsTrue, IfOk, min};
ghost use Rattle.std.specs.List.{prefix_len, list_all};
ghost use Rattle.std.specs.Char.{is_ascii_digit};
ghost use Rattle.bb_base.specs.Variables.{IsRange};
ghost use Rattle.bb_base.specs.Name.{IsName, is_name_byte};
ghost use Rattle.bb_base.specs.Words.{is_word_byte};
ghost use Rattle.bb_spell.specs.Front.{IsRead, begins_with, after_mark, word_of, after_word, graphic_of, after_graphic, is_name, plain_at, escaped_at, front_name, value_after, digits_of, after_digits, is_numeral, number_below, front_index, front_bit, front_range, index_limit};
ghost use Rattle.bb_spell.specs.declared.scan.LineFault.TheVariants.{NoMemory};

use crate::spell::stands_plain;
use bb_base::{Name, may_follow};
use std::alloc::{AllocError, AllocFailed, Global};
use std::marker::Model;

/// Why a line isn't read.
#[derive(Clone, Copy, Debug, PartialEq, Eq)]
pub enum LineFault {
    NotCanonical,
    NoMemory,
}

impl From<AllocError> for LineFault {
    ghost from_gives = { λ _ e. e ≡ NoMemory };

    fn from(_: AllocError) -> Self {
        LineFault::NoMemory
    }
}

impl<T: Drop> From<AllocFailed<T>> for LineFault {
    ghost from_gives = { λ _ e. e ≡ NoMemory };

    fn from(_: AllocFailed<T>) -> Self {
        LineFault::NoMemory
    }
}

/// A bit as it is written: its variable's name, and the index where the variable is a vector.
#[derive(Drop)]
pub struct BitText {
    pub name: Name,
    pub index: Option<u32>,
}

impl Model for BitText {
    ghost use Rattle.bb_base.specs.Variables.{Bit};

    ghost Value = { Bit };

    ghost view = { λ b. record { name = b.name; index = b.index } };
}

/// Indices are below this.
const INDEX_LIMIT: u128 = 2_147_483_648;

/// Whether the bytes begin with this mark.
pub fn begins_with(mark: &[u8], bytes: &[u8]) -> bool
    ensures { result ≡ begins_with mark.now bytes.now }
{
    bytes.strip_prefix(mark).is_some()
}

/// What follows a mark at the front.
pub fn after<'a>(mark: &[u8], bytes: &'a [u8]) -> Result<&'a [u8], LineFault>
    ensures { IsRead (λ rest. rest.now) result (after_mark mark.now bytes.now) }
{
    match bytes.strip_prefix(mark) {
        Some(rest) => Ok(rest),
        None => Err(LineFault::NotCanonical),
    }
}

#[tactic(auto, using(crate::proofs::Words::word_lemmas))]
fn word_len(bytes: &[u8]) -> usize
    ensures len { result ≡ prefix_len is_word_byte bytes.now }
    ensures within { result ≤ length bytes.now }
{
    bytes.iter().take_while(|byte| may_follow(**byte)).count()
}

/// The word at the front, and what follows it.
pub fn word_at(bytes: &[u8]) -> (&[u8], &[u8])
    ensures word { result.0.now ≡ word_of bytes.now }
    ensures rest { result.1.now ≡ after_word bytes.now }
{
    bytes.split_at(word_len(bytes))
}

fn may_stand(byte: u8) -> bool
    ensures { result ≡ is_name_byte byte }
{
    33 <= byte && byte <= 126
}

#[tactic(auto, using(crate::proofs::Words::word_lemmas))]
fn text_len(bytes: &[u8]) -> usize
    ensures len { result ≡ prefix_len is_name_byte bytes.now }
    ensures within { result ≤ length bytes.now }
{
    bytes.iter().take_while(|byte| may_stand(**byte)).count()
}

fn text_at(bytes: &[u8]) -> (&[u8], &[u8])
    ensures text { result.0.now ≡ graphic_of bytes.now }
    ensures rest { result.1.now ≡ after_graphic bytes.now }
{
    bytes.split_at(text_len(bytes))
}

fn all_stand(word: &[u8]) -> bool
    ensures { result ≡ list_all is_name_byte word.now }
{
    word.iter().all(|byte| may_stand(*byte))
}

/// Whether the bytes may be a name.
fn may_name(word: &[u8]) -> bool
    ensures test { result ≡ is_name word.now }
    ensures name { IsTrue result → IsName word.now }
{
    if word.is_empty() || word.len() > 1024 {
        return false;
    }
    all_stand(word)
}

fn plain_name(alloc: Global, bytes: &[u8]) -> Result<(Name, &[u8]), LineFault>
    ensures { IsRead (λ r. (r.0, r.1.now)) result (plain_at bytes.now) }
{
    let (word, rest) = word_at(bytes);
    if !may_name(word) {
        return Err(LineFault::NotCanonical);
    }
    if !stands_plain(word) {
        return Err(LineFault::NotCanonical);
    }
    Ok((Name::new(alloc, word)?, rest))
}

fn escaped_name(alloc: Global, bytes: &[u8]) -> Result<(Name, &[u8]), LineFault>
    ensures { IsRead (λ r. (r.0, r.1.now)) result (escaped_at bytes.now) }
{
    let (text, rest) = text_at(bytes);
    if !may_name(text) {
        return Err(LineFault::NotCanonical);
    }
    if stands_plain(text) {
        return Err(LineFault::NotCanonical);
    }
    let rest = after(b" ", rest)?;
    Ok((Name::new(alloc, text)?, rest))
}

/// The name at the front, and what follows it.
#[tactic(auto, unfolding(crate::specs::Front::front_name))]
pub fn read_name(alloc: Global, bytes: &[u8]) -> Result<(Name, &[u8]), LineFault>
    ensures { IsRead (λ r. (r.0, r.1.now)) result (front_name bytes.now) }
{
    if begins_with(b"\\", bytes) {
        let (_, after) = bytes.split_at(1);
        return escaped_name(alloc, after);
    }
    plain_name(alloc, bytes)
}

fn is_digit(byte: u8) -> bool
    ensures { result ≡ is_ascii_digit byte }
{
    byte.is_ascii_digit()
}

#[tactic(auto, using(crate::proofs::Words::word_lemmas))]
fn digit_count(bytes: &[u8]) -> usize
    ensures len { result ≡ prefix_len is_ascii_digit bytes.now }
    ensures within { result ≤ length bytes.now }
{
    bytes.iter().take_while(|byte| is_digit(**byte)).count()
}

fn digits_at(bytes: &[u8]) -> (&[u8], &[u8])
    ensures digits { result.0.now ≡ digits_of bytes.now }
    ensures rest { result.1.now ≡ after_digits bytes.now }
{
    bytes.split_at(digit_count(bytes))
}

/// The number that digits mean, or the cap where they mean more.
fn value_of(cap: u128, digits: &[u8]) -> u128
    requires { cap ≤ 2 ^ 64 }
    ensures { result ≡ min (value_after 0 digits.now) cap }
{
    let mut value = 0;
    'digits: for digit in digits {
        value = (10 * value + u128::from(digit.saturating_sub(b'0'))).min(cap);
    }
    value.min(cap)
}

fn may_number(digits: &[u8]) -> bool
    ensures { result ≡ is_numeral digits.now }
{
    if digits.is_empty() {
        return false;
    }
    digits.len() == 1 || digits[0] != b'0'
}

/// The number at the front, where it is below a cap, and what follows it.
#[tactic(auto, unfolding(crate::specs::Front::number_below))]
pub fn read_number(cap: u128, bytes: &[u8]) -> Result<(u64, &[u8]), LineFault>
    requires { cap ≤ 2 ^ 64 }
    ensures value { IsRead (λ r. (r.0, r.1.now)) result (number_below cap bytes.now) }
    ensures small { IfOk result (λ r. r.0 < cap) }
{
    let (digits, rest) = digits_at(bytes);
    if !may_number(digits) {
        return Err(LineFault::NotCanonical);
    }
    let value = value_of(cap, digits);
    if value < cap {
        Ok((value as u64, rest))
    } else {
        Err(LineFault::NotCanonical)
    }
}

/// The number at the front, where an index may be as great, and what follows it.
pub fn read_small(bytes: &[u8]) -> Result<(u32, &[u8]), LineFault>
    ensures value { IsRead (λ r. (r.0, r.1.now)) result (number_below index_limit bytes.now) }
    ensures small { IfOk result (λ r. r.0 < 2 ^ 31) }
{
    let (number, rest) = read_number(INDEX_LIMIT, bytes)?;
    Ok((number as u32, rest))
}

/// The index at the front, where there is one, and what follows it.
#[tactic(auto, unfolding(crate::specs::Front::front_index))]
fn read_index(bytes: &[u8]) -> Result<(Option<u32>, &[u8]), LineFault>
    ensures { IsRead (λ r. (r.0, r.1.now)) result (front_index bytes.now) }
{
    if !begins_with(b"[", bytes) {
        return Ok((None, bytes));
    }
    let (_, number) = bytes.split_at(1);
    let (index, rest) = read_small(number)?;
    let rest = after(b"]", rest)?;
    Ok((Some(index), rest))
}

/// The bit at the front, and what follows it.
#[tactic(auto, unfolding(crate::specs::Front::front_bit))]
pub fn read_bit(alloc: Global, bytes: &[u8]) -> Result<(BitText, &[u8]), LineFault>
    ensures { IsRead (λ r. (r.0, r.1.now)) result (front_bit bytes.now) }
{
    let (name, rest) = read_name(alloc, bytes)?;
    let (index, rest) = read_index(rest)?;
    Ok((BitText { name, index }, rest))
}

/// The range at the front, where there is one, and what follows it.
#[tactic(auto, unfolding(crate::specs::Front::front_range))]
pub fn read_range(bytes: &[u8]) -> Result<(Option<(u32, u32)>, &[u8]), LineFault>
    ensures value { IsRead (λ r. (r.0, r.1.now)) result (front_range bytes.now) }
    ensures small { IfOk result (λ r. IsRange r.0) }
{
    if !begins_with(b" [", bytes) {
        return Ok((None, bytes));
    }
    let (_, number) = bytes.split_at(2);
    let (left, rest) = read_small(number)?;
    let rest = after(b":", rest)?;
    let (right, rest) = read_small(rest)?;
    let rest = after(b"]", rest)?;
    Ok((Some((left, right)), rest))
}
