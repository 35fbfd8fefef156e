ghost use Rattle.std.specs.Prelude.{◌≡◌, ◌<◌, ◌^◌, Some};
ghost use Rattle.bb_base.specs.Variables.{range_width, index_at, is_port, IsRange};

/// What a variable is to the outside of its module.
#[derive(Clone, Copy, Debug, PartialEq, Eq)]
pub enum Role {
    Input,
    Output,
    Wire,
}

/// What a name stands for: one bit, or the bits of a range `[left:right]` in either direction.
#[derive(Clone, Copy, Debug, PartialEq, Eq)]
pub struct Variable {
    pub range: Option<(u32, u32)>,
    pub role: Role,
}

/// A bit of a variable: the variable's number, and the bit's place from the left.
#[derive(Clone, Copy, Debug, PartialEq, Eq, Hash)]
pub struct BitName {
    pub variable: u32,
    pub place: u32,
}

/// How many bits a range has; a variable without one is a single bit.
pub fn width_of(range: Option<(u32, u32)>) -> u32
    requires { IsRange range }
    ensures width { result ≡ range_width range }
    ensures fits { result < 2 ^ 32 }
{
    match range {
        None => 1,
        Some((left, right)) => left.max(right) - left.min(right) + 1,
    }
}

/// Whether a variable of this role is a port.
pub fn is_port_role(role: Role) -> bool
    ensures { result ≡ is_port role }
{
    match role {
        Role::Input | Role::Output => true,
        Role::Wire => false,
    }
}

/// The index that is written for a place from the left.
pub fn index_of(range: (u32, u32), place: u32) -> u32
    requires range { IsRange (Some range) }
    requires place { place < range_width (Some range) }
    ensures { result ≡ index_at range place }
{
    let (left, right) = range;
    if left <= right {
        left + place
    } else {
        left - place
    }
}
