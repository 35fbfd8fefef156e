use bb_base::NetId;

/// Where a walk back starts: at a net, or at the inputs of the gate of this number.
#[derive(Clone, Copy, Debug, PartialEq, Eq)]
pub enum Start {
    Net(NetId),
    Gate(u32),
}
