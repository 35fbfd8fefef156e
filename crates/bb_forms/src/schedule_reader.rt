ghost use Rattle.std.specs.Prelude.{◌≡◌, ◌≢◌, ◌<◌, ◌≤◌, ◌^◌, ℕ, length, [], None, IfOk, IfSome, IsSome, IsErrOf};
ghost use Rattle.bb_terms.specs.Plan.{PlanValue};
ghost use Rattle.bb_spell.specs.Front.{IsRead};
ghost use Rattle.bb_forms.specs.Fields.{field_limit};
ghost use Rattle.bb_forms.specs.Forms.{IsUnformedLine};
ghost use Rattle.bb_forms.specs.ScheduleText.{IsFormedPlan, AreScheduleLines, schedule_text as text_of};
ghost use Rattle.bb_forms.specs.Reading.{listed_items, front_number};
ghost use Rattle.bb_forms.specs.ScheduleStages.{worded_kind, cell_of, session_of, with_session, if_few, behind_session, behind_register, behind_cell, schedule_stage, IsShort};

use crate::fault::{FormFault, bad_line};
use crate::fields::{read_field, read_field_line, read_hex, read_hex_line, read_number_line};
use crate::schedule_printer::test_cycles;
use bb_base::NetId;
use bb_spell::{LineFault, after, begins_with, next_line, word_at};
use bb_terms::{Cell, Kind, Plan, Register, Session};
use std::alloc::Global;

/// How far a text has come.
#[derive(Drop)]
enum ScheduleStage {
    Head,
    Width,
    Degree { width: u32 },
    Mask { width: u32, degree: u32 },
    Registers(Plan),
    Cells { plan: Plan, register: Register },
    Sessions(Plan),
    Cycles(Plan),
    End(Plan),
}

#[tactic(auto, unfolding(crate::specs::ScheduleStages::worded_kind))]
fn worded_kind(word: &[u8]) -> Option<Kind>
    ensures { result ≡ worded_kind word.now }
{
    if word == b"output".as_slice() {
        return Some(Kind::Output);
    }
    match word {
        b"input" => Some(Kind::Input),
        b"state" => Some(Kind::State),
        b"split" => Some(Kind::Split),
        b"watch" => Some(Kind::Watch),
        b"cut" => Some(Kind::Cut),
        _ => None,
    }
}

#[tactic(auto, unfolding(crate::specs::ScheduleStages::cell_of))]
fn read_cell(line: &[u8]) -> Result<Cell, LineFault>
    ensures { IsRead (λ c. c) result (cell_of line.now) }
{
    let from = after(b"cell ", line)?;
    let (word, rest) = word_at(from);
    let Some(kind) = worded_kind(word) else {
        return Err(LineFault::NotCanonical);
    };
    let (net, rest) = read_field(rest)?;
    let (column, rest) = read_hex(rest)?;
    if rest.is_empty() {
        let net = NetId(net);
        Ok(Cell { kind, net, column })
    } else {
        Err(LineFault::NotCanonical)
    }
}

/// The numbers up to the end of a line.
fn read_numbers(alloc: Global, bytes: &[u8]) -> Result<Vec<u32>, LineFault>
    ensures { IsRead (λ numbers. numbers.items) result (listed_items (front_number field_limit) (length bytes.now) bytes.now) }
{
    let mut numbers = Vec::new(alloc);
    let mut rest = bytes;
    'numbers: while !rest.is_empty() {
        let (number, tail) = match read_field(rest) {
            Ok(read) => read,
            Err(fault) => return Err(fault),
        };
        numbers.push(number)?;
        rest = tail;
    }
    Ok(numbers)
}

#[tactic(auto, unfolding(crate::specs::ScheduleStages::session_of))]
fn read_session(alloc: Global, line: &[u8]) -> Result<Session, LineFault>
    ensures { IsRead (λ s. s) result (session_of line.now) }
{
    let from = after(b"session", line)?;
    let compact = read_numbers(alloc, from)?;
    Ok(Session { compact })
}

/// The stage behind a session, where the cycles of the test run are few enough to be told.
fn if_few(plan: Plan) -> Result<ScheduleStage, LineFault>
    requires { plan.degree ≤ 20 }
    ensures { IsRead (λ s. s) result (if_few plan) }
{
    if test_cycles(&plan) <= u128::from(u64::MAX) {
        Ok(ScheduleStage::Sessions(plan))
    } else {
        Err(LineFault::NotCanonical)
    }
}

#[tactic(auto, unfolding(crate::specs::ScheduleStages::behind_session))]
fn behind_session(alloc: Global, mut plan: Plan, line: &[u8]) -> Result<ScheduleStage, LineFault>
    requires { plan.degree ≤ 20 }
    ensures { IsRead (λ s. s) result (behind_session plan line.now) }
{
    if begins_with(b"session", line) {
        let session = read_session(alloc, line)?;
        plan.sessions.push(session)?;
        return if_few(plan);
    }
    let cycles = read_number_line(b"cycles", 1 << 64, line)?;
    if u128::from(cycles) == test_cycles(&plan) {
        Ok(ScheduleStage::Cycles(plan))
    } else {
        Err(LineFault::NotCanonical)
    }
}

#[tactic(auto, unfolding(crate::specs::ScheduleStages::behind_register))]
fn behind_register(alloc: Global, plan: Plan, line: &[u8]) -> Result<ScheduleStage, LineFault>
    requires { plan.degree ≤ 20 }
    ensures { IsRead (λ s. s) result (behind_register plan line.now) }
{
    if begins_with(b"register", line) {
        let mask = read_hex_line(b"register", line)?;
        let cells = Vec::new(alloc);
        let register = Register { mask, cells };
        return Ok(ScheduleStage::Cells { plan, register });
    }
    behind_session(alloc, plan, line)
}

#[tactic(auto, unfolding(crate::specs::ScheduleStages::behind_cell))]
fn behind_cell(
    alloc: Global,
    mut plan: Plan,
    mut register: Register,
    line: &[u8],
) -> Result<ScheduleStage, LineFault>
    requires { plan.degree ≤ 20 }
    ensures { IsRead (λ s. s) result (behind_cell plan register line.now) }
{
    if begins_with(b"cell", line) {
        let cell = read_cell(line)?;
        register.cells.push(cell)?;
        return Ok(ScheduleStage::Cells { plan, register });
    }
    plan.registers.push(register)?;
    behind_register(alloc, plan, line)
}

fn behind_width(width: u32, line: &[u8]) -> Result<ScheduleStage, LineFault>
    ensures { IsRead (λ s. s) result (schedule_stage (ScheduleStage.Degree width) line.now) }
{
    let degree = read_number_line(b"degree", 21, line)?;
    if degree == 0 {
        Err(LineFault::NotCanonical)
    } else {
        let degree = degree as u32;
        Ok(ScheduleStage::Mask { width, degree })
    }
}

fn behind_degree(
    alloc: Global,
    width: u32,
    degree: u32,
    line: &[u8],
) -> Result<ScheduleStage, LineFault>
    ensures { IsRead (λ s. s) result (schedule_stage (ScheduleStage.Mask width degree) line.now) }
{
    let mask = read_hex_line(b"mask", line)?;
    let registers = Vec::new(alloc);
    let sessions = Vec::new(alloc);
    Ok(ScheduleStage::Registers(Plan {
        width,
        degree,
        mask,
        registers,
        sessions,
    }))
}

/// The stage behind a line.
fn stage_behind(
    alloc: Global,
    stage: ScheduleStage,
    line: &[u8],
) -> Result<ScheduleStage, LineFault>
    requires { IsShort stage }
    ensures { IsRead (λ s. s) result (schedule_stage stage line.now) }
{
    match stage {
        ScheduleStage::Head => {
            if line == b"bilbo-schedule 1".as_slice() {
                Ok(ScheduleStage::Width)
            } else {
                Err(LineFault::NotCanonical)
            }
        }
        ScheduleStage::Width => {
            let width = read_field_line(b"width", line)?;
            Ok(ScheduleStage::Degree { width })
        }
        ScheduleStage::Degree { width } => behind_width(width, line),
        ScheduleStage::Mask { width, degree } => behind_degree(alloc, width, degree, line),
        ScheduleStage::Registers(plan) => behind_register(alloc, plan, line),
        ScheduleStage::Cells { plan, register } => behind_cell(alloc, plan, register, line),
        ScheduleStage::Sessions(plan) => behind_session(alloc, plan, line),
        ScheduleStage::Cycles(plan) => {
            if line == b"end".as_slice() {
                Ok(ScheduleStage::End(plan))
            } else {
                Err(LineFault::NotCanonical)
            }
        }
        ScheduleStage::End(_plan) => Err(LineFault::NotCanonical),
    }
}

/// The plan, where the text has ended behind its last line.
fn finished(stage: ScheduleStage, rest: &[u8]) -> Option<Plan>
    ensures value { IfSome result (λ plan. stage ≡ ScheduleStage.End plan) }
    ensures ended { IsSome result → rest.now ≡ [] }
    ensures unended { result ≡ None → (value : PlanValue) → stage ≡ ScheduleStage.End value → rest.now ≢ [] }
{
    match stage {
        ScheduleStage::End(plan) => { if rest.is_empty() { Some(plan) } else { None } }
        _ => None,
    }
}

/// The plan of which this is the text, or the first line that isn't of the form or is missing.
pub fn read_schedule(alloc: Global, text: &[u8]) -> Result<Plan, FormFault>
    ensures formed { IfOk result IsFormedPlan }
    ensures text { IfOk result (λ plan. text.now ≡ text_of plan) }
    ensures line { (told : ℕ) → IsErrOf result (FormFault.BadLine told) → IsUnformedLine AreScheduleLines told text.now }
    ensures only { (told : ℕ) → IsErrOf result (FormFault.BadLine told) → (plan : PlanValue) → IsFormedPlan plan → text.now ≢ text_of plan }
{
    let mut rest = text;
    let mut stage = ScheduleStage::Head;
    let mut lines = 0;
    'lines: while let Some((line, after)) = next_line(rest) {
        stage = match stage_behind(alloc, stage, line) {
            Ok(stage) => stage,
            Err(LineFault::NotCanonical) => return Err(bad_line(lines)),
            Err(LineFault::NoMemory) => return Err(FormFault::NoMemory),
        };
        lines += 1;
        rest = after;
    }
    match finished(stage, rest) {
        Some(plan) => Ok(plan),
        None => Err(bad_line(lines)),
    }
}
