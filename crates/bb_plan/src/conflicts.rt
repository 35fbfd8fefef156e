//! Sessions in which a register would compact that holds a leaf of a line compacting there.

ghost use Rattle.std.specs.Prelude.{◌≡◌, ◌<◌, ◌≤◌, ◌^◌, ◌++◌, ◌==◌, ℕ, [], false, length, map, All, IfOk, OnOk, None, Some, slice_index, if◌then◌else◌};
ghost use Rattle.std.specs.List.{list_any};
ghost use Rattle.bb_base.specs.Places.{EachAt, IsFirstWrong};
ghost use Rattle.bb_terms.specs.Plan.{lists_register};
ghost use Rattle.bb_plan.specs.Chain.{register_of_cell};
ghost use Rattle.bb_plan.specs.Clashes.{feeders_in, feeders_at, session_clashes};

use crate::chain::Link;
use crate::lines::Line;
use bb_terms::{Register, Session};
use std::alloc::{AllocError, Global};
use std::marker::Model;

/// The registers that hold leaves of a register's lines.
#[derive(Drop)]
pub(crate) struct Feeders {
    registers: Vec<u32>,
}

impl Model for Feeders {
    ghost use Rattle.std.specs.Prelude.{ℕ, List};

    ghost Value = { List ℕ };

    ghost view = { λ f. f.registers.items };
}

impl Feeders {
    fn as_slice(&self) -> &[u32]
        ensures { result.now ≡ self.now }
    {
        &self.registers
    }

    /// Notes the registers of some source cells.
    fn note(&mut self, links: &[Link], sources: &[u32]) -> Result<(), AllocError>
        requires { All (λ i. i < length links.now) sources.now }
        ensures { OnOk result (self.new ≡ self.old ++ map (register_of_cell links.now) sources.now) }
    {
        'sources: for source in sources {
            self.registers.push(links[*source as usize].register)?;
        }
        Ok(())
    }
}

/// No feeders of any register.
fn no_feeders(alloc: Global, registers: usize) -> Result<Vec<Feeders>, AllocError>
    ensures long { IfOk result (λ feeders. length feeders.items ≡ registers) }
    ensures none { IfOk result (λ feeders. (r : ℕ) → feeders_at feeders.items r ≡ []) }
{
    let mut feeders = Vec::new(alloc);
    'registers: for _ in 0..registers {
        feeders.push(Feeders {
            registers: Vec::new(alloc),
        })?;
    }
    Ok(feeders)
}

/// For each register those that hold leaves of its lines.
pub(crate) fn feeders_of(
    alloc: Global,
    registers: &[Register],
    links: &[Link],
    lines: &[Line],
) -> Result<Vec<Feeders>, AllocError>
    requires registers { All (λ l. l.register < length registers.now) links.now }
    requires cells { All (λ line. line.cell < length links.now) lines.now }
    requires sources { All (λ line. All (λ i. i < length links.now) line.sources) lines.now }
    ensures long { IfOk result (λ feeders. length feeders.items ≡ length registers.now) }
    ensures each { IfOk result (λ feeders. (r : ℕ) → r < length registers.now → feeders_at feeders.items r ≡ feeders_in links.now lines.now r) }
{
    let mut feeders = no_feeders(alloc, registers.len())?;
    'lines: for line in lines {
        let register = links[line.cell as usize].register as usize;
        feeders[register].note(links, &line.sources)?;
    }
    Ok(feeders)
}

/// Stamps the registers of a session with its number.
fn stamp(stamps: &mut [u32], session: &[u32], number: u32)
    requires { All (λ r. r < length stamps.old) session.now }
    ensures long { length stamps.new ≡ length stamps.old }
    ensures each { (r : ℕ) → r < length stamps.old → slice_index stamps.new r ≡ (if lists_register r session.now then number else slice_index stamps.old r) }
{
    'registers: for register in session {
        stamps[*register as usize] = number;
    }
}

/// Whether some of these registers has the stamp.
fn any_stamped(stamps: &[u32], number: u32, registers: &[u32]) -> bool
    requires { All (λ r. r < length stamps.now) registers.now }
    ensures { result ≡ list_any (λ r. slice_index stamps.now r == number) registers.now }
{
    'registers: for register in registers {
        if stamps[*register as usize] == number {
            return true;
        }
    }
    false
}

/// Whether a register with the stamp feeds one of these.
fn any_fed(stamps: &[u32], number: u32, feeders: &[Feeders], session: &[u32]) -> bool
    requires session { All (λ r. r < length feeders.now) session.now }
    requires feeders { All (λ qs. All (λ q. q < length stamps.now) qs) feeders.now }
    ensures { result ≡ list_any (λ r. list_any (λ q. slice_index stamps.now q == number) (feeders_at feeders.now r)) session.now }
{
    'registers: for register in session {
        if any_stamped(stamps, number, feeders[*register as usize].as_slice()) {
            return true;
        }
    }
    false
}

/// Whether a session lists a register and one that feeds it.
fn is_clash(stamps: &mut [u32], number: u32, feeders: &[Feeders], session: &[u32]) -> bool
    requires long { length stamps.old ≡ length feeders.now }
    requires low { (r : ℕ) → slice_index stamps.old r < number }
    requires session { All (λ r. r < length feeders.now) session.now }
    requires feeders { All (λ qs. All (λ q. q < length feeders.now) qs) feeders.now }
    ensures clash { result ≡ session_clashes feeders.now session.now }
    ensures long { length stamps.new ≡ length stamps.old }
    ensures low { (r : ℕ) → slice_index stamps.new r ≤ number }
{
    stamp(stamps, session, number);
    any_fed(stamps, number, feeders, session)
}

/// The first session that lists a register and one that feeds it, where no register is stamped.
fn find_clash(stamps: &mut [u32], sessions: &[Session], feeders: &[Feeders]) -> Option<u32>
    requires few { length sessions.now ≤ 2 ^ 31 }
    requires long { length stamps.old ≡ length feeders.now }
    requires low { (r : ℕ) → slice_index stamps.old r ≡ 0 }
    requires sessions { All (λ session. All (λ r. r < length feeders.now) session) sessions.now }
    requires feeders { All (λ qs. All (λ q. q < length feeders.now) qs) feeders.now }
    ensures none { result ≡ None → EachAt sessions.now (λ s session. session_clashes feeders.now session ≡ false) }
    ensures first { (place : ℕ) → result ≡ Some place → IsFirstWrong sessions.now (λ s session. session_clashes feeders.now session ≡ false) place }
{
    'sessions: for (place, session) in sessions.iter().enumerate() {
        let place = place as u32;
        if is_clash(stamps, place + 1, feeders, &session.compact) {
            return Some(place);
        }
    }
    None
}

/// The first session that lists a register and one that feeds it.
pub(crate) fn first_clash(
    alloc: Global,
    sessions: &[Session],
    feeders: &[Feeders],
) -> Result<Option<u32>, AllocError>
    requires few { length sessions.now ≤ 2 ^ 31 }
    requires sessions { All (λ session. All (λ r. r < length feeders.now) session) sessions.now }
    requires feeders { All (λ qs. All (λ q. q < length feeders.now) qs) feeders.now }
    ensures none { IfOk result (λ place. place ≡ None → EachAt sessions.now (λ s session. session_clashes feeders.now session ≡ false)) }
    ensures first { IfOk result (λ place. (s : ℕ) → place ≡ Some s → IsFirstWrong sessions.now (λ s session. session_clashes feeders.now session ≡ false) s) }
{
    let mut stamps = vec![in alloc; 0u32; feeders.len()]?;
    Ok(find_clash(&mut stamps, sessions, feeders))
}
