//! The bits that references name.

ghost use Rattle.std.specs.Prelude.{◌≡◌};
ghost use Rattle.bb_scope.specs.References.{is_in_range, selected, width_of, span_fault};

use bb_fault::{ElabFault, range_width};

/// The most bits of a value.
pub const WIDTH_LIMIT: u64 = 65_536;

/// Bits of a variable that stand together: the first one's place from the left, and their number.
#[derive(Clone, Copy, Debug)]
pub struct Span {
    pub first: u32,
    pub width: u64,
}

/// Whether an index lies in a range.
fn is_inside(range: (u32, u32), index: u32) -> bool
    ensures { result ≡ is_in_range range index }
{
    (range.0 <= index && index <= range.1) || (range.1 <= index && index <= range.0)
}

/// The bits that a select names, none where it is bad.
pub(crate) fn selected(range: Option<(u32, u32)>, select: Option<(u32, u32)>) -> Option<Span>
    ensures { result ≡ selected range select }
{
    let Some((left, right)) = select else {
        return Some(Span {
            first: 0,
            width: range_width(range),
        });
    };
    let Some(range) = range else {
        return None;
    };
    let first = range.0.abs_diff(left);
    if is_inside(range, left) && is_inside(range, right) && first <= range.0.abs_diff(right) {
        return Some(Span {
            first,
            width: range_width(select),
        });
    }
    None
}

/// How many bits a reference names.
pub fn bits_of(span: Option<Span>) -> u64
    ensures { result ≡ width_of span }
{
    match span {
        None => 0,
        Some(span) => span.width,
    }
}

/// The fault of a reference by the bits that it names.
pub fn span_fault(line: u32, span: Option<Span>) -> Option<ElabFault>
    ensures { result ≡ span_fault line span }
{
    match span {
        None => Some(ElabFault::BadSelect { line }),
        Some(span) if span.width > WIDTH_LIMIT => Some(ElabFault::TooWide { line }),
        Some(_) => None,
    }
}
