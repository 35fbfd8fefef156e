ghost use Rattle.std.specs.Prelude.{◌≡◌};
ghost use Rattle.bb_base.specs.Keywords.{keyword_of};

/// A word that no simple name can be.
#[derive(Clone, Copy, Debug, PartialEq, Eq)]
pub enum Keyword {
    Module,
    Endmodule,
    Input,
    Output,
    Wire,
    Assign,
    And,
    Nand,
    Or,
    Nor,
    Xor,
    Xnor,
    Not,
    Buf,
}

/// The keyword that a word spells.
#[tactic(auto, unfolding(crate::specs::Keywords::keyword_of))]
pub fn keyword_of(word: &[u8]) -> Option<Keyword>
    ensures { result ≡ keyword_of word.now }
{
    if word == b"module".as_slice() {
        return Some(Keyword::Module);
    }
    if word == b"endmodule".as_slice() {
        return Some(Keyword::Endmodule);
    }
    if word == b"input".as_slice() {
        return Some(Keyword::Input);
    }
    if word == b"output".as_slice() {
        return Some(Keyword::Output);
    }
    if word == b"wire".as_slice() {
        return Some(Keyword::Wire);
    }
    if word == b"assign".as_slice() {
        return Some(Keyword::Assign);
    }
    if word == b"and".as_slice() {
        return Some(Keyword::And);
    }
    if word == b"nand".as_slice() {
        return Some(Keyword::Nand);
    }
    if word == b"or".as_slice() {
        return Some(Keyword::Or);
    }
    if word == b"nor".as_slice() {
        return Some(Keyword::Nor);
    }
    if word == b"xor".as_slice() {
        return Some(Keyword::Xor);
    }
    if word == b"xnor".as_slice() {
        return Some(Keyword::Xnor);
    }
    if word == b"not".as_slice() {
        return Some(Keyword::Not);
    }
    if word == b"buf".as_slice() {
        return Some(Keyword::Buf);
    }
    None
}
