ghost use Rattle.std.specs.Prelude.{◌≡◌, ◌≢◌, ◌<◌, ℕ, [], None, IfOk, IfSome, IsSome, IsErrOf};
ghost use Rattle.bb_spell.specs.Front.{IsRead};
ghost use Rattle.bb_forms.specs.Forms.{IsUnformedLine};
ghost use Rattle.bb_forms.specs.CertificateText.{CertificateValue, IsFormedCertificate, AreCertificateLines, certificate_text as text_of};
ghost use Rattle.bb_forms.specs.Reading.{listed_items};
ghost use Rattle.bb_forms.specs.CertificateStages.{pair_at, segment_of, behind_segment, certificate_stage};

use crate::fault::{FormFault, bad_line};
use crate::fields::{read_field, read_field_line, read_hex};
use crate::{Certificate, CertificateSegment};
use arrayvec::ArrayVec;
use bb_spell::{LineFault, after, next_line};
use std::alloc::Global;

/// How far a text has come.
#[derive(Drop)]
enum CertificateStage {
    Head,
    Period,
    Segments(Certificate),
    End(Certificate),
}

#[tactic(auto, unfolding(crate::specs::CertificateStages::pair_at))]
fn read_pair(bytes: &[u8]) -> Result<((u32, u32), &[u8]), LineFault>
    ensures { IsRead (λ r. (r.0, r.1.now)) result (pair_at bytes.now) }
{
    let (cell, rest) = read_field(bytes)?;
    let (dual, rest) = read_hex(rest)?;
    Ok(((cell, dual), rest))
}

/// The leaves up to the end of a line.
fn read_pairs(bytes: &[u8]) -> Result<ArrayVec<(u32, u32), 16>, LineFault>
    ensures { IsRead (λ pairs. pairs.items) result (listed_items pair_at 16 bytes.now) }
{
    let mut pairs = ArrayVec::new();
    let mut rest = bytes;
    'pairs: while !rest.is_empty() {
        if pairs.is_full() {
            return Err(LineFault::NotCanonical);
        }
        let (pair, tail) = match read_pair(rest) {
            Ok(read) => read,
            Err(fault) => return Err(fault),
        };
        pairs.push(pair);
        rest = tail;
    }
    Ok(pairs)
}

#[tactic(auto, unfolding(crate::specs::CertificateStages::segment_of))]
fn read_segment(line: &[u8]) -> Result<CertificateSegment, LineFault>
    ensures { IsRead (λ s. s) result (segment_of line.now) }
{
    let from = after(b"segment", line)?;
    let (cell, rest) = read_field(from)?;
    let pairs = read_pairs(rest)?;
    Ok(CertificateSegment { cell, pairs })
}

#[tactic(auto, unfolding(crate::specs::CertificateStages::behind_segment))]
fn behind_segment(mut certificate: Certificate, line: &[u8]) -> Result<CertificateStage, LineFault>
    ensures { IsRead (λ s. s) result (behind_segment certificate line.now) }
{
    if line == b"end".as_slice() {
        return Ok(CertificateStage::End(certificate));
    }
    let segment = read_segment(line)?;
    certificate.segments.push(segment)?;
    Ok(CertificateStage::Segments(certificate))
}

/// The stage behind a line.
fn stage_behind(
    alloc: Global,
    stage: CertificateStage,
    line: &[u8],
) -> Result<CertificateStage, LineFault>
    ensures { IsRead (λ s. s) result (certificate_stage stage line.now) }
{
    match stage {
        CertificateStage::Head => {
            if line == b"bilbo-certificate 1".as_slice() {
                Ok(CertificateStage::Period)
            } else {
                Err(LineFault::NotCanonical)
            }
        }
        CertificateStage::Period => {
            let period = read_field_line(b"period", line)?;
            let segments = Vec::new(alloc);
            Ok(CertificateStage::Segments(Certificate { period, segments }))
        }
        CertificateStage::Segments(certificate) => behind_segment(certificate, line),
        CertificateStage::End(_certificate) => Err(LineFault::NotCanonical),
    }
}

/// The certificate, where the text has ended behind its last line.
fn finished(stage: CertificateStage, rest: &[u8]) -> Option<Certificate>
    ensures value { IfSome result (λ certificate. stage ≡ CertificateStage.End certificate) }
    ensures ended { IsSome result → rest.now ≡ [] }
    ensures unended { result ≡ None → (value : CertificateValue) → stage ≡ CertificateStage.End value → rest.now ≢ [] }
{
    match stage {
        CertificateStage::End(certificate) => {
            if rest.is_empty() {
                Some(certificate)
            } else {
                None
            }
        }
        _ => None,
    }
}

/// The certificate of which this is the text, or the first line that isn't of the form or is missing.
pub fn read_certificate(alloc: Global, text: &[u8]) -> Result<Certificate, FormFault>
    ensures formed { IfOk result IsFormedCertificate }
    ensures text { IfOk result (λ certificate. text.now ≡ text_of certificate) }
    ensures line { (told : ℕ) → IsErrOf result (FormFault.BadLine told) → IsUnformedLine AreCertificateLines told text.now }
    ensures only { (told : ℕ) → IsErrOf result (FormFault.BadLine told) → (certificate : CertificateValue) → IsFormedCertificate certificate → text.now ≢ text_of certificate }
{
    let mut rest = text;
    let mut stage = CertificateStage::Head;
    let mut lines = 0;
    'lines: while let Some((line, after)) = next_line(rest) {
        stage = match stage_behind(alloc, stage, line) {
            Ok(stage) => stage,
            Err(LineFault::NotCanonical) => return Err(bad_line(lines)),
            Err(LineFault::NoMemory) => return Err(FormFault::NoMemory),
        };
        lines += 1;
        rest = after;
    }
    match finished(stage, rest) {
        Some(certificate) => Ok(certificate),
        None => Err(bad_line(lines)),
    }
}
