//! The sessions in which each register compacts.

ghost use Rattle.std.specs.Prelude.{◌≡◌, ◌<◌, ◌^◌, ℕ, [], OnOk, IfOk, length};
ghost use Rattle.std.specs.List.{AllByRecursion};
ghost use Rattle.bb_ctl.specs.Turns.{ends_with, turn_noted, turns_at, with_turn, AreSessionsOf};

use bb_terms::Plan;
use std::alloc::{AllocError, Global};
use std::marker::Model;

/// The sessions of one register, ascending.
#[derive(Drop)]
pub(crate) struct Turns {
    sessions: Vec<u32>,
}

impl Model for Turns {
    ghost use Rattle.std.specs.Prelude.{ℕ, List};

    ghost Value = { List ℕ };

    ghost view = { λ t. t.sessions.items };
}

/// Whether the last session is this one.
fn ends_with(sessions: &[u32], s: u32) -> bool
    ensures { result ≡ ends_with s sessions.now }
{
    match sessions.last() {
        Some(last) => *last == s,
        None => false,
    }
}

impl Turns {
    /// Notes a session behind the others, once.
    fn note(&mut self, s: u32) -> Result<(), AllocError>
        ensures { OnOk result (self.new ≡ turn_noted self.old s) }
    {
        if ends_with(&self.sessions, s) {
            return Ok(());
        }
        self.sessions.push(s)?;
        Ok(())
    }

    pub(crate) fn as_slice(&self) -> &[u32]
        ensures { result.now ≡ self.now }
    {
        &self.sessions
    }
}

/// Notes a session at each register that it lists.
fn note_session(turns: &mut [Turns], s: u32, session: &[u32]) -> Result<(), AllocError>
    requires { (r : ℕ) → AllByRecursion (λ t. t < s) (turns_at turns.old r) }
    ensures long { length turns.new ≡ length turns.old }
    ensures each { OnOk result ((r : ℕ) → r < length turns.old → turns_at turns.new r ≡ with_turn s session.now r (turns_at turns.old r)) }
{
    'registers: for r in session {
        let r = *r as usize;
        if r < turns.len() {
            turns[r].note(s)?;
        }
    }
    Ok(())
}

/// No sessions of any register.
fn no_turns(alloc: Global, registers: usize) -> Result<Vec<Turns>, AllocError>
    ensures long { IfOk result (λ turns. length turns.items ≡ registers) }
    ensures none { IfOk result (λ turns. (r : ℕ) → turns_at turns.items r ≡ []) }
{
    let mut turns = Vec::new(alloc);
    'registers: for _ in 0..registers {
        turns.push(Turns {
            sessions: Vec::new(alloc),
        })?;
    }
    Ok(turns)
}

/// Notes all sessions.
fn note_sessions(turns: &mut [Turns], plan: &Plan) -> Result<(), AllocError>
    requires few { length plan.now.sessions < 2 ^ 32 }
    requires long { length turns.old ≡ length plan.now.registers }
    requires none { (r : ℕ) → turns_at turns.old r ≡ [] }
    ensures { OnOk result (AreSessionsOf plan.now turns.new) }
{
    'sessions: for (s, session) in plan.sessions.iter().enumerate() {
        note_session(turns, s as u32, &session.compact)?;
    }
    Ok(())
}

/// The sessions of each register.
pub(crate) fn turns_of(alloc: Global, plan: &Plan) -> Result<Vec<Turns>, AllocError>
    requires { length plan.now.sessions < 2 ^ 32 }
    ensures { IfOk result (λ turns. AreSessionsOf plan.now turns.items) }
{
    let mut turns = no_turns(alloc, plan.registers.len())?;
    note_sessions(&mut turns, plan)?;
    Ok(turns)
}
