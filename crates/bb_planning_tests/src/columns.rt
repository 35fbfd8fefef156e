// Worked values: small choices by hand, and a sequential circuit of seven sources, whose four lines
// have the supports of `SMALL`.

ghost use Rattle.std.specs.Prelude.{IfOk};
ghost use Rattle.std.specs.List.{AllByRecursion};
ghost use Rattle.bb_code.specs.Segments.{IsSegment, sources_of};

use arrayvec::ArrayVec;
use bb_code::{CodeFault, DegreeFault, Need, columns, degree};
use std::alloc::{AllocError, Global};
use std::process::Abort;

const HALF: &[&[u32]] = &[&[0, 1], &[0, 1]];

const SMALL: &[&[u32]] = &[
    &[0, 1, 3, 4, 5, 6],
    &[0, 1, 3, 4, 5, 6],
    &[1, 2, 6],
    &[0, 1, 3, 4, 5, 6],
];

// Segments as the calls want them: distinct sources below their count.
fn segments_of(
    rt: &impl Abort,
    alloc: Global,
    sources: u32,
    lists: &[&[u32]],
) -> Result<Vec<ArrayVec<u32, 16>>, AllocError>
    ensures { IfOk result (λ segments. AllByRecursion (IsSegment sources) (sources_of segments.items)) }
{
    let mut segments = Vec::new(alloc);
    for list in lists {
        segments.push(segment_of(rt, sources, list))?;
    }
    Ok(segments)
}

pub(crate) fn segment_of(rt: &impl Abort, sources: u32, list: &[u32]) -> ArrayVec<u32, 16>
    ensures { IsSegment sources result.items }
{
    let mut segment = ArrayVec::new();
    for source in list {
        if *source >= sources {
            panic!(rt; "no source {source}");
        }
        if segment.as_slice().contains(source) || segment.is_full() {
            panic!(rt; "no room for {source}");
        }
        segment.push(*source);
    }
    segment
}

#[test]
fn each_source_takes_the_least_free_column(rt: HostRuntime) {
    let rows: [(&[&[u32]], u32, &[u32]); 6] = [
        (&[], 1, &[1, 1]),
        (&[&[1], &[0]], 1, &[1, 1]),
        (HALF, 2, &[1, 2]),
        (&[&[2, 0, 1]], 3, &[1, 2, 4]),
        (&[&[0, 1], &[0, 2], &[1, 2]], 2, &[1, 2, 3]),
        (SMALL, 6, &[1, 2, 1, 4, 8, 16, 32]),
    ];
    for (lists, degree, expected) in rows {
        assert!(rt; 1 <= degree && degree <= 31);
        let sources = expected.len() as u32;
        match segments_of(&rt, rt.alloc(), sources, lists) {
            Ok(segments) => match columns(rt.alloc(), &segments, sources, degree) {
                Ok(columns) => assert_eq!(rt; columns.as_slice(), expected),
                Err(fault) => panic!(rt; "{fault:?}"),
            },
            Err(_) => panic!(rt; "no memory"),
        }
    }
}

#[test]
fn the_first_source_without_a_column_is_stuck(rt: HostRuntime) {
    let rows: [(&[&[u32]], u32, u32, u32); 3] = [
        (HALF, 2, 1, 1),
        (&[&[0, 1, 2]], 3, 2, 2),
        (SMALL, 7, 5, 6),
    ];
    for (lists, sources, degree, source) in rows {
        assert!(rt; 1 <= degree && degree <= 31);
        match segments_of(&rt, rt.alloc(), sources, lists) {
            Ok(segments) => match columns(rt.alloc(), &segments, sources, degree) {
                Ok(_) => panic!(rt; "no source is stuck"),
                Err(fault) => assert_eq!(rt; fault, CodeFault::Stuck { source }),
            },
            Err(_) => panic!(rt; "no memory"),
        }
    }
}

#[test]
fn the_degree_is_the_least_with_columns_and_states(rt: HostRuntime) {
    let rows: [(&[&[u32]], u32, u32, u32, &[u32]); 4] = [
        (&[], 1, 1, 1, &[1]),
        (HALF, 4, 1, 2, &[1, 2]),
        (HALF, 4, 3, 3, &[1, 2]),
        (SMALL, 11, 1, 6, &[1, 2, 1, 4, 8, 16, 32]),
    ];
    for (lists, cells, min, expected, columns) in rows {
        assert!(rt; 1 <= min && min <= 16);
        let sources = columns.len() as u32;
        match segments_of(&rt, rt.alloc(), sources, lists) {
            Ok(segments) => match degree(rt.alloc(), &segments, sources, cells, min, 16) {
                Ok(coded) => {
                    assert_eq!(rt; coded.degree, expected);
                    assert_eq!(rt; coded.columns.as_slice(), columns);
                }
                Err(fault) => panic!(rt; "{fault:?}"),
            },
            Err(_) => panic!(rt; "no memory"),
        }
    }
}

#[test]
fn the_highest_degree_needs_states_and_then_columns(rt: HostRuntime) {
    let rows: [(&[&[u32]], u32, u32, u32, Need); 3] = [
        (HALF, 2, 4, 1, Need::Cells { cells: 4 }),
        (SMALL, 7, 11, 5, Need::Source { source: 6 }),
        (SMALL, 7, 33, 5, Need::Cells { cells: 33 }),
    ];
    for (lists, sources, cells, max, need) in rows {
        assert!(rt; 1 <= max && max <= 31);
        match segments_of(&rt, rt.alloc(), sources, lists) {
            Ok(segments) => match degree(rt.alloc(), &segments, sources, cells, 1, max) {
                Ok(_) => panic!(rt; "no limit"),
                Err(fault) => assert_eq!(rt; fault, DegreeFault::DegreeLimit { max, need }),
            },
            Err(_) => panic!(rt; "no memory"),
        }
    }
}
