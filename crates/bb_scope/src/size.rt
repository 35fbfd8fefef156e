/// A value by its number of bits: those that are nets, and the constants, which have no net yet.
#[derive(Clone, Copy, Debug)]
pub struct Size {
    pub nets: u32,
    pub constants: u32,
}
