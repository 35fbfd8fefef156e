/// The signature of a register in a session: the register's number, and what its cells hold behind the session's run cycles, its first cell as the lowest bit.
#[derive(Clone, Copy, Debug, PartialEq, Eq)]
pub struct Signature {
    pub register: u32,
    pub value: u32,
}
