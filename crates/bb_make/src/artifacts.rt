use std::marker::Model;

/// What a job counts: the original's gates and flip-flops, the plan's cells, registers and sessions, the degree of its complete register,
/// and the cycles of its test.
#[derive(Clone, Copy, Debug, PartialEq, Eq)]
pub struct Summary {
    pub gates: u32,
    pub flops: u32,
    pub cells: u32,
    pub registers: u32,
    pub sessions: u32,
    pub degree: u32,
    pub cycles: u64,
}

/// What is made of a netlist: the texts of the netlist with its self-test, of the plan, of the signatures and of the certificate, and
/// what is counted.
#[derive(Drop)]
pub struct Artifacts {
    pub netlist: Vec<u8>,
    pub schedule: Vec<u8>,
    pub signatures: Vec<u8>,
    pub certificate: Vec<u8>,
    pub summary: Summary,
}

impl Model for Artifacts {
    ghost use Rattle.bb_make.specs.Artifacts.{ArtifactsValue};

    ghost Value = { ArtifactsValue };

    ghost view = { λ m. record { netlist = m.netlist.items; schedule = m.schedule.items; signatures = m.signatures.items; certificate = m.certificate.items; summary = m.summary } };
}
