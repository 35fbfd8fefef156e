//! Times the least degree and its columns on random segments, whose number, size and sources are the words of the call.
#![tactic(auto)]

ghost use Rattle.std.specs.Prelude.{◌<◌, ◌≤◌, IfOk};
ghost use Rattle.std.specs.List.{AllByRecursion};
ghost use Rattle.bb_code.specs.Segments.{IsSegment, sources_of};

use arrayvec::ArrayVec;
use bb_code::degree;
use std::alloc::{AllocError, Global};
use std::env;
use std::rt::Env;
use std::time::Instant;

/// A number below another, and the next state.
fn draw(state: &mut u32, below: u32) -> u32
    requires { 0 < below }
    ensures { result < below }
{
    *state = state.wrapping_mul(1103515245).wrapping_add(12345);
    (*state >> 8) % below
}

/// One source more, where it isn't there and there is room.
fn with_source(
    mut segment: ArrayVec<u32, 16>,
    size: usize,
    sources: u32,
    source: u32,
) -> ArrayVec<u32, 16>
    requires segment { IsSegment sources segment.items }
    requires size { size ≤ 16 }
    requires source { source < sources }
    ensures { IsSegment sources result.items }
{
    if segment.len() >= size {
        return segment;
    }
    if segment.as_slice().contains(&source) {
        return segment;
    }
    segment.push(source);
    segment
}

/// A segment of at most so many sources.
fn segment_of(state: &mut u32, size: usize, sources: u32) -> ArrayVec<u32, 16>
    requires size { size ≤ 16 }
    requires sources { 0 < sources }
    ensures { IsSegment sources result.items }
{
    let mut segment = ArrayVec::new();
    for _ in 0..64u32 {
        let source = draw(state, sources);
        segment = with_source(segment, size, sources, source);
    }
    segment
}

/// So many segments.
fn segments_of(
    alloc: Global,
    count: u32,
    size: usize,
    sources: u32,
) -> Result<Vec<ArrayVec<u32, 16>>, AllocError>
    requires size { size ≤ 16 }
    requires sources { 0 < sources }
    ensures { IfOk result (λ segments. AllByRecursion (IsSegment sources) (sources_of segments.items)) }
{
    let mut state = 1;
    let mut segments = Vec::new(alloc);
    for _ in 0..count {
        segments.push(segment_of(&mut state, size, sources))?;
    }
    Ok(segments)
}

/// The numbers that the words behind the program's name are.
fn numbers_of(rt: &(impl Env + AllocGlobal)) -> anyhow::Result<Vec<u32>> {
    let mut numbers = Vec::new(rt.alloc());
    for word in env::args(rt)?.skip(1) {
        numbers.push(word.as_str().parse::<u32>()?)?;
    }
    Ok(numbers)
}

fn main(rt: HostRuntime) -> anyhow::Result<()> {
    let numbers = numbers_of(&rt)?;
    let [count, size, sources] = *numbers.as_slice() else {
        println!(rt; "usage: columns_bench SEGMENTS SIZE SOURCES")?;
        return Ok(());
    };
    if size > 16 || sources == 0 {
        println!(rt; "a segment has at most 16 sources, of one or more")?;
        return Ok(());
    }
    let segments = segments_of(rt.alloc(), count, size as usize, sources)?;
    let start = Instant::now(&rt)?;
    let coded = degree(rt.alloc(), &segments, sources, 1, 1, 31);
    let took = start.elapsed(&rt)?.as_micros();
    eprintln!(rt; "{took} microseconds")?;
    match coded {
        Ok(coded) => println!(rt;
            "{count} segments of {size} of {sources} sources: degree {}",
            coded.degree
        )?,
        Err(fault) => println!(rt; "{count} segments of {size} of {sources} sources: {fault:?}")?,
    }
    Ok(())
}
