ghost use Rattle.std.specs.Prelude.{◌≡◌, ◌≢◌, ◌<◌, ◌^◌, ◌↔◌, ℕ, IfSome, IsTrue, None, decimal, slice_index};

/// Whether the first byte is a digit other than 0.
fn begins_a_number(text: &str) -> bool
    ensures { IsTrue result ↔ ((48 < slice_index text.now 0) × (slice_index text.now 0 < 58)) }
{
    match text.as_bytes() {
        [] => false,
        [first, ..] => b'0' < *first && *first <= b'9',
    }
}

/// The positive number that a text writes in decimal digits, where it is below 2^64.
pub fn number_in(text: &str) -> Option<u64>
    ensures found { IfSome result (λ number. (0 < number) × (number < 2 ^ 64) × (text.now ≡ decimal number)) }
    ensures none { result ≡ None → (number : ℕ) → 0 < number → number < 2 ^ 64 → text.now ≢ decimal number }
{
    if !begins_a_number(text) {
        return None;
    }
    text.parse::<u64>().ok()
}
