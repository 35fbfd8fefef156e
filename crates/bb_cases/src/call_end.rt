/// How a call ended: its status, and what it put.
#[derive(Drop)]
pub struct CallEnd {
    pub status: u8,
    pub line: Vec<u8>,
}

impl CallEnd {
    /// Whether it ended with this status and put this line, without its line feed.
    pub fn says(&self, status: u8, line: &str) -> bool {
        match self.line.split_last() {
            Some((last, front)) => {
                self.status == status && *last == b'\n' && front == line.as_bytes()
            }
            None => false,
        }
    }

    /// What is behind the first word of a refusal, without its line feed.
    fn refused(&self) -> Option<&[u8]> {
        self.line
            .strip_prefix(b"refused ".as_slice())?
            .strip_suffix(b"\n".as_slice())
    }

    /// Whether it refused its input in these words, which follow the first.
    pub fn refuses(&self, words: &str) -> bool {
        self.status == 1 && self.refused() == Some(words.as_bytes())
    }

    /// Whether it ended with this status and put nothing.
    pub fn is_silent(&self, status: u8) -> bool {
        self.status == status && self.line.is_empty()
    }
}
