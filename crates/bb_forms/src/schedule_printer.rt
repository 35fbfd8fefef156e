ghost use Rattle.std.specs.Prelude.{◌≡◌, ◌++◌, ◌≤◌, ◌<◌, ◌^◌, map, OnOk, OnErr, IfOk};
ghost use Rattle.std.specs.List.{flat_map};
ghost use Rattle.bb_spell.specs.Canonical.{with_feed};
ghost use Rattle.bb_forms.specs.Fields.{number_word};
ghost use Rattle.bb_forms.specs.ScheduleText.{kind_word, cell_line, register_lines, session_line, test_cycles, frame_lines, schedule_text as text_of};

use crate::fields::{write_field, write_hex, write_hex_line, write_number_line};
use bb_terms::{Cell, Kind, Plan, Register, Session};
use std::alloc::{AllocError, Global};

/// The cycles of the whole test run: one that clears the control, and run and unload cycles for each session.
pub(crate) fn test_cycles(plan: &Plan) -> u128
    requires { plan.now.degree ≤ 20 }
    ensures { result ≡ test_cycles plan.now }
{
    1 + 2 * (plan.sessions.len() as u128) * (1u128 << plan.degree)
}

fn kind_word(kind: Kind) -> &'static [u8]
    ensures { result.now ≡ kind_word kind }
{
    match kind {
        Kind::Input => b"input",
        Kind::State => b"state",
        Kind::Split => b"split",
        Kind::Cut => b"cut",
        Kind::Watch => b"watch",
        Kind::Output => b"output",
    }
}

fn write_cell(text: &mut Vec<u8>, cell: Cell) -> Result<(), AllocError>
    ensures { OnOk result (text.new.items ≡ text.old.items ++ with_feed (cell_line cell)) }
{
    text.extend_from_slice(b"cell ")?;
    text.extend_from_slice(kind_word(cell.kind))?;
    write_field(text, u64::from(cell.net.0))?;
    write_hex(text, cell.column)?;
    text.extend_from_slice(b"\n")
}

fn write_cells(text: &mut Vec<u8>, cells: &[Cell]) -> Result<(), AllocError>
    ensures { OnOk result (text.new.items ≡ text.old.items ++ flat_map with_feed (map cell_line cells.now)) }
{
    'cells: for cell in cells {
        write_cell(text, *cell)?;
    }
    Ok(())
}

fn write_registers(text: &mut Vec<u8>, registers: &[Register]) -> Result<(), AllocError>
    ensures { OnOk result (text.new.items ≡ text.old.items ++ flat_map with_feed (flat_map register_lines registers.now)) }
{
    'registers: for register in registers {
        write_hex_line(text, b"register", register.mask)?;
        write_cells(text, &register.cells)?;
    }
    Ok(())
}

fn write_numbers(text: &mut Vec<u8>, numbers: &[u32]) -> Result<(), AllocError>
    ensures { OnOk result (text.new.items ≡ text.old.items ++ flat_map number_word numbers.now) }
{
    'numbers: for number in numbers {
        write_field(text, u64::from(*number))?;
    }
    Ok(())
}

fn write_session(text: &mut Vec<u8>, session: &Session) -> Result<(), AllocError>
    ensures { OnOk result (text.new.items ≡ text.old.items ++ with_feed (session_line session.now)) }
{
    text.extend_from_slice(b"session")?;
    write_numbers(text, &session.compact)?;
    text.extend_from_slice(b"\n")
}

fn write_sessions(text: &mut Vec<u8>, sessions: &[Session]) -> Result<(), AllocError>
    ensures { OnOk result (text.new.items ≡ text.old.items ++ flat_map with_feed (map session_line sessions.now)) }
{
    'sessions: for session in sessions {
        write_session(text, session)?;
    }
    Ok(())
}

fn write_frame(text: &mut Vec<u8>, plan: &Plan) -> Result<(), AllocError>
    ensures { OnOk result (text.new.items ≡ text.old.items ++ flat_map with_feed (frame_lines plan.now)) }
{
    text.extend_from_slice(b"bilbo-schedule 1\n")?;
    write_number_line(text, b"width", u64::from(plan.width))?;
    write_number_line(text, b"degree", u64::from(plan.degree))?;
    write_hex_line(text, b"mask", plan.mask)?;
    Ok(())
}

fn written(alloc: Global, plan: &Plan) -> Result<Vec<u8>, AllocError>
    requires degree { plan.now.degree ≤ 20 }
    requires cycles { test_cycles plan.now < 2 ^ 64 }
    ensures { IfOk result (λ text. text.items ≡ text_of plan.now) }
{
    let mut text = Vec::new(alloc);
    write_frame(&mut text, plan)?;
    write_registers(&mut text, &plan.registers)?;
    write_sessions(&mut text, &plan.sessions)?;
    write_number_line(&mut text, b"cycles", test_cycles(plan) as u64)?;
    text.extend_from_slice(b"end\n")?;
    Ok(text)
}

/// Appends the text of a plan, or leaves the bytes as they were.
pub fn schedule_text(alloc: Global, plan: &Plan, out: &mut Vec<u8>) -> Result<(), AllocError>
    requires least { 1 ≤ plan.now.degree }
    requires most { plan.now.degree ≤ 20 }
    requires cycles { test_cycles plan.now < 2 ^ 64 }
    ensures ok { OnOk result (out.new.items ≡ out.old.items ++ text_of plan.now) }
    ensures err { OnErr result (out.new.items ≡ out.old.items) }
{
    let text = written(alloc, plan)?;
    out.extend_from_slice(&text)
}
