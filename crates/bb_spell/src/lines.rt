//! A text line by line.

ghost use Rattle.std.specs.Prelude.{◌≡◌, ◌<◌, ◌≤◌, length, IfSome};
ghost use Rattle.std.specs.List.{prefix_len};
ghost use Rattle.std.specs.Option.{option_map};
ghost use Rattle.bb_spell.specs.TextLines.{is_line_byte, first_line};

/// How long the first line is.
#[tactic(auto, using(crate::proofs::Words::word_lemmas))]
fn line_len(text: &[u8]) -> usize
    ensures len { result ≡ prefix_len is_line_byte text.now }
    ensures within { result ≤ length text.now }
{
    text.iter().take_while(|byte| is_inner(**byte)).count()
}

fn is_inner(byte: u8) -> bool
    ensures { result ≡ is_line_byte byte }
{
    byte != b'\n'
}

/// The first line, and what follows its line feed, where it has one.
#[tactic(auto, unfolding(crate::specs::TextLines::first_line))]
pub fn next_line(text: &[u8]) -> Option<(&[u8], &[u8])>
    ensures value { option_map (λ r. (r.0.now, r.1.now)) result ≡ first_line text.now }
    ensures shorter { IfSome result (λ r. length r.1.now < length text.now) }
{
    let (line, tail) = text.split_at(line_len(text));
    if tail.is_empty() {
        return None;
    }
    let (_, after) = tail.split_at(1);
    Some((line, after))
}
