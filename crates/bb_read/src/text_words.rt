//! The words of texts that denote no netlist.

ghost use Rattle.std.specs.Prelude.{◌≡◌, ◌++◌, OnOk, decimal, codes};
ghost use Rattle.bb_read.specs.Lines.{said, lex_words, parse_words, elab_words, text_words};

use crate::refusal::TextRefusal;
use crate::spelled::{put_at_line, put_counted, put_said};
use bb_base::{LexFault, Name};
use bb_fault::ElabFault;
use bb_parse::ParseFault;
use std::alloc::{AllocError, Global};

/// Appends the count of bits and its limit.
fn put_counts(alloc: Global, line: &mut Vec<u8>, count: u64, limit: u64) -> Result<(), AllocError>
    ensures { OnOk result (line.new.items ≡ line.old.items ++ (codes "too many bits " ++ (decimal count ++ (codes " over " ++ decimal limit)))) }
{
    put_counted(alloc, line, b"too many bits ", count)?;
    put_counted(alloc, line, b" over ", limit)
}

/// Appends the names of two clocks.
fn put_clocks(
    alloc: Global,
    line: &mut Vec<u8>,
    first: &(Name, Option<u32>),
    second: &(Name, Option<u32>),
) -> Result<(), AllocError>
    ensures { OnOk result (line.new.items ≡ line.old.items ++ (codes "two clocks " ++ (said first.now.0 first.now.1 ++ (codes " and " ++ said second.now.0 second.now.1)))) }
{
    put_said(alloc, line, b"two clocks ", &first.0, first.1)?;
    put_said(alloc, line, b" and ", &second.0, second.1)
}

/// Appends how many nets a loop has.
fn put_length(alloc: Global, line: &mut Vec<u8>, count: u32) -> Result<(), AllocError>
    ensures { OnOk result (line.new.items ≡ line.old.items ++ (codes ", " ++ (decimal count ++ codes " nets"))) }
{
    put_counted(alloc, line, b", ", u64::from(count))?;
    line.extend_from_slice(b" nets")
}

/// Appends the first net of a loop and its length.
fn put_loop(
    alloc: Global,
    line: &mut Vec<u8>,
    name: &Name,
    select: Option<u32>,
    count: u32,
) -> Result<(), AllocError>
    ensures { OnOk result (line.new.items ≡ line.old.items ++ (codes "loop through " ++ (said name.now select ++ (codes ", " ++ (decimal count ++ codes " nets"))))) }
{
    put_said(alloc, line, b"loop through ", name, select)?;
    put_length(alloc, line, count)
}

/// Appends the words of a fault of elaboration.
fn put_fault(alloc: Global, line: &mut Vec<u8>, fault: &ElabFault) -> Result<(), AllocError>
    ensures { OnOk result (line.new.items ≡ line.old.items ++ elab_words fault.now) }
{
    match fault {
        ElabFault::Reserved { name, select } => put_said(alloc, line, b"reserved ", name, *select),
        ElabFault::Redeclared { name, select } => {
            put_said(alloc, line, b"redeclared ", name, *select)
        }
        ElabFault::BadPort { name, select } => put_said(alloc, line, b"bad port ", name, *select),
        ElabFault::TooMany { count, limit } => put_counts(alloc, line, *count, *limit),
        ElabFault::UnknownCell { name, select } => {
            put_said(alloc, line, b"unknown cell ", name, *select)
        }
        ElabFault::BadPins { line: number } => put_at_line(alloc, line, *number, b"bad pins"),
        ElabFault::BadSelect { line: number } => put_at_line(alloc, line, *number, b"bad select"),
        ElabFault::WidthDiffers { line: number } => {
            put_at_line(alloc, line, *number, b"width differs")
        }
        ElabFault::TooWide { line: number } => put_at_line(alloc, line, *number, b"too wide"),
        ElabFault::TwoDrivers { name, select } => {
            put_said(alloc, line, b"two drivers ", name, *select)
        }
        ElabFault::Undriven { name, select } => put_said(alloc, line, b"undriven ", name, *select),
        ElabFault::ClockNotInput { name, select } => {
            put_said(alloc, line, b"clock not input ", name, *select)
        }
        ElabFault::TwoClocks { first, second } => put_clocks(alloc, line, first, second),
        ElabFault::ClockAsData { name, select } => {
            put_said(alloc, line, b"clock as data ", name, *select)
        }
        ElabFault::Loop {
            name,
            select,
            count,
        } => put_loop(alloc, line, name, *select, *count),
        ElabFault::NoMemory => Err(AllocError),
    }
}

/// Appends the words of a lexical fault.
fn put_lex_fault(alloc: Global, line: &mut Vec<u8>, fault: LexFault) -> Result<(), AllocError>
    ensures { OnOk result (line.new.items ≡ line.old.items ++ lex_words fault) }
{
    match fault {
        LexFault::BadByte { line: number } => put_at_line(alloc, line, number, b"bad byte"),
        LexFault::BadNumber { line: number } => put_at_line(alloc, line, number, b"bad number"),
        LexFault::LongName { line: number } => put_at_line(alloc, line, number, b"long name"),
        LexFault::OpenComment { line: number } => put_at_line(alloc, line, number, b"open comment"),
        LexFault::NoMemory => Err(AllocError),
    }
}

/// Appends the words of a fault of the grammar.
fn put_parse_fault(alloc: Global, line: &mut Vec<u8>, fault: ParseFault) -> Result<(), AllocError>
    ensures { OnOk result (line.new.items ≡ line.old.items ++ parse_words fault) }
{
    match fault {
        ParseFault::Unreadable { line: number } => put_at_line(alloc, line, number, b"unreadable"),
        ParseFault::NoMemory => Err(AllocError),
    }
}

/// Appends the words of a text that denotes no netlist.
pub(crate) fn put_text_words(
    alloc: Global,
    line: &mut Vec<u8>,
    refusal: &TextRefusal,
) -> Result<(), AllocError>
    ensures { OnOk result (line.new.items ≡ line.old.items ++ text_words refusal.now) }
{
    match refusal {
        TextRefusal::TooLong => line.extend_from_slice(b"too long"),
        TextRefusal::Lex(fault) => put_lex_fault(alloc, line, *fault),
        TextRefusal::Parse(fault) => put_parse_fault(alloc, line, *fault),
        TextRefusal::Elab(fault) => put_fault(alloc, line, fault),
    }
}
