//! The bytes of simple names.

ghost use Rattle.std.specs.Prelude.{◌≡◌};
ghost use Rattle.bb_base.specs.Words.{starts_word, is_word_byte};

/// Whether a byte may begin a simple name.
pub fn may_start(byte: u8) -> bool
    ensures { result ≡ starts_word byte }
{
    byte.is_ascii_alphabetic() || byte == b'_'
}

/// Whether a byte may follow in one.
pub fn may_follow(byte: u8) -> bool
    ensures { result ≡ is_word_byte byte }
{
    byte.is_ascii_alphanumeric() || byte == b'_' || byte == b'$'
}
