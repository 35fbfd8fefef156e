use arrayvec::ArrayVec;
use std::marker::Model;

/// The segment of an observer: its cell's number, and for each leaf the number of the source cell with the dual of its column.
#[derive(Drop)]
pub struct CertificateSegment {
    pub cell: u32,
    pub pairs: ArrayVec<(u32, u32), 16>,
}

impl Model for CertificateSegment {
    ghost use Rattle.bb_forms.specs.CertificateText.{CertificateSegmentValue};

    ghost Value = { CertificateSegmentValue };

    ghost view = { λ s. record { cell = s.cell; pairs = s.pairs.items } };
}

/// What shows that a plan tests its netlist: the states in the walk of the complete register, and a segment for each observer.
#[derive(Drop)]
pub struct Certificate {
    pub period: u32,
    pub segments: Vec<CertificateSegment>,
}

impl Model for Certificate {
    ghost use Rattle.bb_forms.specs.CertificateText.{CertificateValue};

    ghost Value = { CertificateValue };

    ghost view = { λ c. record { period = c.period; segments = c.segments.items } };
}
