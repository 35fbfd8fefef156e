ghost use Rattle.std.specs.Prelude.{◌≡◌, ◌++◌, map, OnOk, OnErr, IfOk};
ghost use Rattle.std.specs.List.{flat_map};
ghost use Rattle.bb_spell.specs.Canonical.{with_feed};
ghost use Rattle.bb_forms.specs.CertificateText.{pair_words, segment_line, certificate_text as text_of};

use crate::fields::{write_field, write_hex, write_number_line};
use crate::{Certificate, CertificateSegment};
use std::alloc::{AllocError, Global};

fn write_pairs(text: &mut Vec<u8>, pairs: &[(u32, u32)]) -> Result<(), AllocError>
    ensures { OnOk result (text.new.items ≡ text.old.items ++ flat_map pair_words pairs.now) }
{
    'pairs: for pair in pairs {
        write_field(text, u64::from(pair.0))?;
        write_hex(text, pair.1)?;
    }
    Ok(())
}

fn write_segment(text: &mut Vec<u8>, segment: &CertificateSegment) -> Result<(), AllocError>
    ensures { OnOk result (text.new.items ≡ text.old.items ++ with_feed (segment_line segment.now)) }
{
    text.extend_from_slice(b"segment")?;
    write_field(text, u64::from(segment.cell))?;
    write_pairs(text, &segment.pairs)?;
    text.extend_from_slice(b"\n")
}

fn write_segments(text: &mut Vec<u8>, segments: &[CertificateSegment]) -> Result<(), AllocError>
    ensures { OnOk result (text.new.items ≡ text.old.items ++ flat_map with_feed (map segment_line segments.now)) }
{
    'segments: for segment in segments {
        write_segment(text, segment)?;
    }
    Ok(())
}

fn written(alloc: Global, certificate: &Certificate) -> Result<Vec<u8>, AllocError>
    ensures { IfOk result (λ text. text.items ≡ text_of certificate.now) }
{
    let mut text = Vec::from_slice(alloc, b"bilbo-certificate 1\n")?;
    write_number_line(&mut text, b"period", u64::from(certificate.period))?;
    write_segments(&mut text, &certificate.segments)?;
    text.extend_from_slice(b"end\n")?;
    Ok(text)
}

/// Appends the text of a certificate, or leaves the bytes as they were.
pub fn certificate_text(
    alloc: Global,
    certificate: &Certificate,
    out: &mut Vec<u8>,
) -> Result<(), AllocError>
    ensures ok { OnOk result (out.new.items ≡ out.old.items ++ text_of certificate.now) }
    ensures err { OnErr result (out.new.items ≡ out.old.items) }
{
    let text = written(alloc, certificate)?;
    out.extend_from_slice(&text)
}
