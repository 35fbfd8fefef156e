//! The three files of a plan as texts: its schedule, its signatures and its certificate. Each is written and read.
//!
//! - A text is a function of its value, and each value has one text of its own: `one_plan`, `one_list`, `one_certificate`.
//! - A printer appends the text, or leaves the bytes as they were.
//! - A reader answers the value of which the bytes are the text, or the first line with which they are the beginning of no text of
//!   the form, or that is missing.
//! - So a reader accepts exactly the texts of its printer.
//!
//! That a plan, its signatures and its certificate fit a netlist or each other isn't asked here. `specs/ScheduleText.antt`,
//! `specs/SignatureText.antt` and `specs/CertificateText.antt` say what the texts are, and `specs/Forms.antt` which line is the first
//! bad one.
#![tactic(auto)]

mod certificate;
mod certificate_printer;
mod certificate_reader;
mod fault;
mod fields;
mod laws;
mod schedule_printer;
mod schedule_reader;
mod signature;
mod signature_printer;
mod signature_reader;

pub use certificate::{Certificate, CertificateSegment};
pub use certificate_printer::certificate_text;
pub use certificate_reader::read_certificate;
pub use fault::FormFault;
pub use laws::{one_certificate, one_list, one_plan};
pub use schedule_printer::schedule_text;
pub use schedule_reader::read_schedule;
pub use signature::Signature;
pub use signature_printer::signature_text;
pub use signature_reader::read_signatures;
