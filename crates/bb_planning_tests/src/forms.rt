// The three files of the half adder's plan, both ways, and texts that are of no form.

use arrayvec::ArrayVec;
use bb_base::NetId;
use bb_forms::{
    Certificate, CertificateSegment, FormFault, Signature, certificate_text, read_certificate,
    read_schedule, read_signatures, schedule_text, signature_text,
};
use bb_terms::{Cell, Kind, Plan, Register, Session};
use std::alloc::{AllocError, Global};

const SCHEDULE: &str =
    "bilbo-schedule 1\nwidth 2\ndegree 2\nmask 00000003\nregister 00000003\ncell input 0 00000001\ncell input 1 00000002\nregister 00000003\ncell output 2 00000000\ncell output 3 00000000\nsession 1\ncycles 9\nend\n";

const SIGNATURES: &str = "bilbo-signatures 1\nsession 0\nregister 1 00000002\nend\n";

const CERTIFICATE: &str =
    "bilbo-certificate 1\nperiod 4\nsegment 2 0 00000001 1 00000002\nsegment 3 0 00000001 1 00000002\nend\n";

/// The number of a text's first bad line, 0 for want of memory.
fn line_of(fault: FormFault) -> u32 {
    match fault {
        FormFault::BadLine { line } => line,
        FormFault::NoMemory => 0,
    }
}

/// A register of two cells.
fn register(alloc: Global, kind: Kind, cells: [(u32, u32); 2]) -> Result<Register, AllocError> {
    let mut register = Register {
        mask: 3,
        cells: Vec::new(alloc),
    };
    for (net, column) in cells {
        let net = NetId(net);
        register.cells.push(Cell { kind, net, column })?;
    }
    Ok(register)
}

/// The text of the half adder's plan.
fn written_schedule(alloc: Global) -> Result<Vec<u8>, AllocError> {
    let mut registers = Vec::new(alloc);
    registers.push(register(alloc, Kind::Input, [(0, 1), (1, 2)])?)?;
    registers.push(register(alloc, Kind::Output, [(2, 0), (3, 0)])?)?;
    let mut sessions = Vec::new(alloc);
    let compact = Vec::from_slice(alloc, &[1])?;
    sessions.push(Session { compact })?;
    let plan = Plan {
        width: 2,
        degree: 2,
        mask: 3,
        registers,
        sessions,
    };
    let mut text = Vec::new(alloc);
    schedule_text(alloc, &plan, &mut text)?;
    Ok(text)
}

/// The text of the half adder's signature.
fn written_signatures(alloc: Global) -> Result<Vec<u8>, AllocError> {
    let signature = Signature {
        register: 1,
        value: 2,
    };
    let mut sessions = Vec::new(alloc);
    sessions.push(Vec::from_slice(alloc, &[signature])?)?;
    let mut text = Vec::new(alloc);
    signature_text(alloc, &sessions, &mut text)?;
    Ok(text)
}

/// The text of the half adder's certificate.
fn written_certificate(alloc: Global) -> Result<Vec<u8>, AllocError> {
    let mut segments = Vec::new(alloc);
    for cell in [2, 3] {
        let mut pairs = ArrayVec::new();
        pairs.push((0, 1));
        pairs.push((1, 2));
        segments.push(CertificateSegment { cell, pairs })?;
    }
    let certificate = Certificate {
        period: 4,
        segments,
    };
    let mut text = Vec::new(alloc);
    certificate_text(alloc, &certificate, &mut text)?;
    Ok(text)
}

/// Whether a text is read, or the number of its first bad line: by the form of its first line.
fn judged(alloc: Global, text: &[u8]) -> Result<(), u32> {
    if text.starts_with(b"bilbo-sc") {
        return match read_schedule(alloc, text) {
            Ok(_plan) => Ok(()),
            Err(fault) => Err(line_of(fault)),
        };
    }
    if text.starts_with(b"bilbo-si") {
        return match read_signatures(alloc, text) {
            Ok(_sessions) => Ok(()),
            Err(fault) => Err(line_of(fault)),
        };
    }
    match read_certificate(alloc, text) {
        Ok(_certificate) => Ok(()),
        Err(fault) => Err(line_of(fault)),
    }
}

#[test]
fn the_files_of_the_half_adder_are_written(rt: HostRuntime) {
    let texts = [
        (written_schedule(rt.alloc()), SCHEDULE),
        (written_signatures(rt.alloc()), SIGNATURES),
        (written_certificate(rt.alloc()), CERTIFICATE),
    ];
    for (text, wanted) in texts {
        match text {
            Ok(text) => assert!(rt; text.as_slice() == wanted.as_bytes()),
            Err(_) => panic!(rt; "no memory"),
        }
    }
}

#[test]
fn a_schedule_is_read(rt: HostRuntime) {
    match read_schedule(rt.alloc(), SCHEDULE.as_bytes()) {
        Ok(plan) => {
            assert_eq!(rt; (plan.width, plan.degree, plan.mask), (2, 2, 3));
            assert_eq!(rt; plan.registers.len(), 2);
            assert_eq!(rt; plan.sessions.len(), 1);
        }
        Err(_) => panic!(rt; "no plan"),
    }
}

#[test]
fn the_files_of_the_half_adder_are_read_and_no_beginning_of_them_is(rt: HostRuntime) {
    for text in [SCHEDULE, SIGNATURES, CERTIFICATE] {
        let bytes = text.as_bytes();
        assert_eq!(rt; judged(rt.alloc(), bytes), Ok(()));
        for end in 0..bytes.len() {
            assert!(rt; judged(rt.alloc(), &bytes[..end]).is_err());
        }
    }
}

#[test]
fn the_first_bad_line_is_told(rt: HostRuntime) {
    let rows = [
        (
            "bilbo-certificate 1\nperiod 4\nsegment 2 0 00000001 1 00000002\nsegment 3 0 00000001 1 00000002\n",
            5,
        ),
        ("bilbo-certificate 1\nperiod 04\nend\n", 2),
        ("bilbo-certificate 1\nperiod 4\nend\n\n", 4),
        (
            "bilbo-certificate 1\nperiod 4\nsegment 2 0 0000000A\nend\n",
            3,
        ),
        (
            "bilbo-schedule 1\nwidth 2\ndegree 99\nmask 00000003\ncycles 1\nend\n",
            3,
        ),
        (
            "bilbo-schedule 1\nwidth 2\ndegree 2\nmask 00000003\ncell cut 1 00000001\ncycles 1\nend\n",
            5,
        ),
        (
            "bilbo-schedule 1\nwidth 2\ndegree 2\nmask 00000003\nsession\nregister 00000001\ncycles 9\nend\n",
            6,
        ),
        (
            "bilbo-schedule 1\nwidth 2\ndegree 2\nmask 00000003\nsession\ncycles 1\nend\n",
            6,
        ),
        ("bilbo-signatures 1\nsession 1\nend\n", 2),
        ("bilbo-signatures 1\nregister 1 00000002\nend\n", 2),
    ];
    for (text, line) in rows {
        assert_eq!(rt; judged(rt.alloc(), text.as_bytes()), Err(line));
    }
}

#[test]
fn an_empty_register_and_an_empty_session_are_read(rt: HostRuntime) {
    for text in [
        "bilbo-schedule 1\nwidth 2\ndegree 2\nmask 00000003\nregister 00000000\nsession\ncycles 9\nend\n",
        "bilbo-schedule 1\nwidth 0\ndegree 20\nmask ffffffff\ncycles 1\nend\n",
        "bilbo-signatures 1\nsession 0\nsession 1\nend\n",
        "bilbo-signatures 1\nend\n",
        "bilbo-certificate 1\nperiod 0\nsegment 7\nend\n",
    ] {
        assert_eq!(rt; judged(rt.alloc(), text.as_bytes()), Ok(()));
    }
}
