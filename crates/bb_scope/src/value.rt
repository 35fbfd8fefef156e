/// A bit of a value: a net, or a constant that has no net yet.
#[derive(Clone, Copy, Debug, PartialEq, Eq)]
pub enum Bit {
    Net(u32),
    Fixed(bool),
}
