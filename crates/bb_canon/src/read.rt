ghost use Rattle.std.specs.Prelude.{◌++◌, List, ℕ, Option, Some, IsSome, IsOk, IfErr, IsErrOf, None, codes, ◌≡◌, ◌≢◌, ◌<◌, length, IfOk, OnOk, false, [], ◌∷◌, ◌-◌, ◌^◌};
ghost use Rattle.bb_base.specs.Named.{Named as NamedValue, design_of};
ghost use Rattle.std.specs.List.{flat_map};
ghost use Rattle.bb_spell.specs.Canonical.{canonical_text, with_feed};
ghost use Rattle.bb_canon.specs.Faults.{NamesNoLine, IsMemory, IsWant};
ghost use Rattle.bb_spell.specs.Limits.{IsBuildable, IsNumbered};
ghost use Rattle.bb_canon.specs.Toward.{IsDrawn, IsDeclared, IsGateOf, IsFlopOf};
ghost use Rattle.bb_canon.specs.Along.{SaysVariable, SaysGate, SaysFlop, VariablesLeft, GatesLeft, FlopsLeft, ClockLeft, clock_text};
ghost use Rattle.bb_base.specs.Net.{Gate, Flop};
ghost use Rattle.bb_base.specs.Variables.{Entry};
ghost use Rattle.bb_spell.specs.Front.{begins_with};
ghost use Rattle.bb_spell.specs.TextLines.{first_line};
ghost use Rattle.bb_canon.specs.Sections.{declares, clocks, states_gate, IsSection};
ghost use Rattle.bb_spell.specs.Lines.{head_name};
ghost use Rattle.bb_spell.specs.Places.{bad_line};
ghost use Rattle.bb_spell.specs.Forms.{IsBadLine, IsAllRight};

use crate::draft::{CanonFault, Draft};
use bb_base::Name;
use bb_net::Named;
use bb_spell::{
    BitText, Instance, LineFault, append_text, bad_line, begins_with, next_line, read_declaration,
    read_flop, read_module, read_statement, word_at, word_role,
};
use std::alloc::Global;

/// A line's fault, where it isn't asked yet which line.
fn without_line(fault: LineFault) -> CanonFault
    ensures only { NamesNoLine result }
    ensures want { IsMemory fault → IsWant result }
{
    match fault {
        LineFault::NotCanonical => CanonFault::Unfit,
        LineFault::NoMemory => CanonFault::NoMemory,
    }
}

/// The clock's bit, as the first flip-flop has it.
fn find_clock(alloc: Global, text: &[u8]) -> Result<Option<BitText>, CanonFault>
    ensures only { IfErr result NamesNoLine }
    ensures want { IfErr result IsWant }
    ensures clock { (a : NamedValue) → ClockLeft (clock_text a) text.now → IfOk result (λ clock. clock ≡ clock_text a) }
{
    let mut rest = text;
    'lines: while let Some((line, after)) = next_line(rest) {
        if is_flop(line) {
            return match read_flop(alloc, line) {
                Ok(instance) => {
                    let Instance {
                        number: _,
                        clock,
                        q: _q,
                        d: _d,
                    } = instance;
                    Ok(Some(clock))
                }
                Err(LineFault::NotCanonical) => Ok(None),
                Err(LineFault::NoMemory) => Err(CanonFault::NoMemory),
            };
        }
        rest = after;
    }
    Ok(None)
}

fn read_variable(
    alloc: Global,
    draft: &mut Draft,
    clock: &Option<BitText>,
    line: &[u8],
) -> Result<(), CanonFault>
    ensures only { IfErr result NamesNoLine }
    ensures declared { (a : NamedValue) (v : Entry) (left : List Entry) → IsBuildable a → IsDeclared a draft.old (v ∷ left) → clock.now ≡ clock_text a → SaysVariable v line.now → OnOk result (IsDeclared a draft.new left) }
    ensures want { (a : NamedValue) (v : Entry) (left : List Entry) → IsBuildable a → IsDeclared a draft.old (v ∷ left) → clock.now ≡ clock_text a → SaysVariable v line.now → IfErr result IsWant }
{
    match read_declaration(alloc, line) {
        Ok((name, variable)) => draft.declare(name, variable, clock),
        Err(fault) => Err(without_line(fault)),
    }
}

#[tactic(auto, unfolding(crate::specs::Sections::declares))]
fn is_declaration(line: &[u8]) -> bool
    ensures { result ≡ declares line.now }
{
    let (word, _) = word_at(line);
    word_role(word).is_some()
}

/// Reads the declarations at the front, and what follows them.
fn read_declarations<'a>(
    alloc: Global,
    draft: &mut Draft,
    clock: &Option<BitText>,
    text: &'a [u8],
) -> Result<&'a [u8], CanonFault>
    ensures only { IfErr result NamesNoLine }
    ensures rest { (others : List (List ℕ)) → IsSection declares text.now others → IfOk result (λ rest. rest.now ≡ flat_map with_feed others) }
    ensures declared { (a : NamedValue) (others : List (List ℕ)) → IsBuildable a → clock.now ≡ clock_text a → VariablesLeft a draft.old text.now others → OnOk result (IsDeclared a draft.new []) }
    ensures want { (a : NamedValue) (others : List (List ℕ)) → IsBuildable a → clock.now ≡ clock_text a → VariablesLeft a draft.old text.now others → IfErr result IsWant }
{
    let mut rest = text;
    'lines: loop {
        let Some((line, after)) = next_line(rest) else {
            return Ok(rest);
        };
        if !is_declaration(line) {
            return Ok(rest);
        }
        read_variable(alloc, draft, clock, line)?;
        rest = after;
    }
}

fn read_gate(alloc: Global, draft: &mut Draft, line: &[u8]) -> Result<(), CanonFault>
    ensures only { IfErr result NamesNoLine }
    ensures drawn { (a : NamedValue) (gates : List (Gate ℕ)) (g : Gate ℕ) → IsBuildable a → IsDrawn a draft.old gates [] → IsGateOf a g → length gates < 2 ^ 32 - 1 → SaysGate a g line.now → OnOk result (IsDrawn a draft.new (gates ++ g ∷ []) []) }
    ensures want { (a : NamedValue) (gates : List (Gate ℕ)) (g : Gate ℕ) → IsBuildable a → IsDrawn a draft.old gates [] → IsGateOf a g → length gates < 2 ^ 32 - 1 → SaysGate a g line.now → IfErr result IsWant }
{
    match read_statement(alloc, line) {
        Ok(statement) => draft.state(alloc, &statement),
        Err(fault) => Err(without_line(fault)),
    }
}

#[tactic(auto, unfolding(crate::specs::Sections::states_gate))]
fn is_statement(line: &[u8]) -> bool
    ensures { result ≡ states_gate line.now }
{
    if is_flop(line) {
        return false;
    }
    line != b"endmodule".as_slice()
}

#[tactic(auto, unfolding(crate::specs::Sections::clocks))]
fn is_flop(line: &[u8]) -> bool
    ensures value { result ≡ clocks line.now }
    ensures mark { result ≡ begins_with (codes "dff ") line.now }
{
    begins_with(b"dff ", line)
}

/// Reads the gates at the front, and what follows them.
fn read_gates<'a>(alloc: Global, draft: &mut Draft, text: &'a [u8]) -> Result<&'a [u8], CanonFault>
    ensures only { IfErr result NamesNoLine }
    ensures rest { (others : List (List ℕ)) → IsSection states_gate text.now others → IfOk result (λ rest. rest.now ≡ flat_map with_feed others) }
    ensures drawn { (a : NamedValue) (others : List (List ℕ)) → IsBuildable a → GatesLeft a draft.old text.now others → OnOk result (IsDrawn a draft.new a.netlist.gates []) }
    ensures want { (a : NamedValue) (others : List (List ℕ)) → IsBuildable a → GatesLeft a draft.old text.now others → IfErr result IsWant }
{
    let mut rest = text;
    'lines: loop {
        let Some((line, after)) = next_line(rest) else {
            return Ok(rest);
        };
        if !is_statement(line) {
            return Ok(rest);
        }
        read_gate(alloc, draft, line)?;
        rest = after;
    }
}

fn read_instance(alloc: Global, draft: &mut Draft, line: &[u8]) -> Result<(), CanonFault>
    ensures only { IfErr result NamesNoLine }
    ensures drawn { (a : NamedValue) (flops : List (Flop ℕ)) (f : Flop ℕ) → IsBuildable a → IsDrawn a draft.old a.netlist.gates flops → IsFlopOf a f → length flops < 2 ^ 32 - 1 → SaysFlop a f line.now → OnOk result (IsDrawn a draft.new a.netlist.gates (flops ++ f ∷ [])) }
    ensures want { (a : NamedValue) (flops : List (Flop ℕ)) (f : Flop ℕ) → IsBuildable a → IsDrawn a draft.old a.netlist.gates flops → IsFlopOf a f → length flops < 2 ^ 32 - 1 → SaysFlop a f line.now → IfErr result IsWant }
{
    match read_flop(alloc, line) {
        Ok(instance) => draft.clocked(&instance),
        Err(fault) => Err(without_line(fault)),
    }
}

/// Reads the flip-flops at the front, and what follows them.
fn read_flops<'a>(alloc: Global, draft: &mut Draft, text: &'a [u8]) -> Result<&'a [u8], CanonFault>
    ensures only { IfErr result NamesNoLine }
    ensures rest { (others : List (List ℕ)) → IsSection clocks text.now others → IfOk result (λ rest. rest.now ≡ flat_map with_feed others) }
    ensures drawn { (a : NamedValue) (others : List (List ℕ)) → IsBuildable a → FlopsLeft a draft.old text.now others → OnOk result (IsDrawn a draft.new a.netlist.gates a.netlist.flops) }
    ensures want { (a : NamedValue) (others : List (List ℕ)) → IsBuildable a → FlopsLeft a draft.old text.now others → IfErr result IsWant }
{
    let mut rest = text;
    'lines: loop {
        let Some((line, after)) = next_line(rest) else {
            return Ok(rest);
        };
        if !is_flop(line) {
            return Ok(rest);
        }
        read_instance(alloc, draft, line)?;
        rest = after;
    }
}

/// Refuses what isn't the last line alone.
fn read_end(text: &[u8]) -> Result<(), CanonFault>
    ensures end { text.now ≡ codes "endmodule\n" → IsOk result }
    ensures only { IfErr result NamesNoLine }
{
    if text == b"endmodule\n".as_slice() {
        Ok(())
    } else {
        Err(CanonFault::Unfit)
    }
}

/// The name of the module, and what follows the first line.
fn read_head(alloc: Global, text: &[u8]) -> Result<(Name, &[u8]), CanonFault>
    ensures only { IfErr result NamesNoLine }
    ensures rest { (line after : List ℕ) → first_line text.now ≡ Some (line, after) → IfOk result (λ r. r.1.now ≡ after) }
    ensures name { (line after : List ℕ) → first_line text.now ≡ Some (line, after) → IfOk result (λ r. head_name line ≡ Some r.0) }
    ensures want { (line after : List ℕ) → first_line text.now ≡ Some (line, after) → IsSome (head_name line) → IfErr result IsWant }
{
    let Some((line, after)) = next_line(text) else {
        return Err(CanonFault::Unfit);
    };
    match read_module(alloc, line) {
        Ok(name) => Ok((name, after)),
        Err(fault) => Err(without_line(fault)),
    }
}

/// The netlist that the lines say, where they are read one by one.
fn read_text(alloc: Global, text: &[u8]) -> Result<Named, CanonFault>
    ensures only { IfErr result NamesNoLine }
    ensures drawn { (a : NamedValue) → IsBuildable a → IsNumbered a → text.now ≡ canonical_text (design_of a) → IfOk result (λ named. IsDrawn a named a.netlist.gates a.netlist.flops) }
    ensures want { (a : NamedValue) → IsBuildable a → IsNumbered a → text.now ≡ canonical_text (design_of a) → IfErr result IsWant }
{
    let clock = find_clock(alloc, text)?;
    let (name, rest) = read_head(alloc, text)?;
    let mut draft = Draft::new(alloc, name)?;
    let rest = read_declarations(alloc, &mut draft, &clock, rest)?;
    let rest = read_gates(alloc, &mut draft, rest)?;
    let rest = read_flops(alloc, &mut draft, rest)?;
    read_end(rest)?;
    let named = draft.finish()?;
    Ok(named)
}

/// The netlist that has this canonical text, or a fault that names no line.
fn read_whole(alloc: Global, text: &[u8]) -> Result<Named, CanonFault>
    ensures accepts { IfOk result (λ named. canonical_text (design_of named) ≡ text.now) }
    ensures buildable { IfOk result IsBuildable }
    ensures only { IfErr result NamesNoLine }
    ensures complete { (a : NamedValue) → IsBuildable a → IsNumbered a → text.now ≡ canonical_text (design_of a) → IfErr result IsWant }
{
    let named = read_text(alloc, text)?;
    // A named netlist's variables and nets are few: these calls ensure it.
    let _variables = named.variables();
    let _netlist = named.netlist();
    let mut again = Vec::new(alloc);
    append_text(alloc, &named, &mut again)?;
    if again.as_slice() == text {
        Ok(named)
    } else {
        Err(CanonFault::Unfit)
    }
}

/// Why a text isn't read that nothing else refuses: its first line that may not stand in its place, where there is one.
fn refusal(alloc: Global, text: &[u8]) -> CanonFault
    ensures line { (n : ℕ) → result ≡ CanonFault.Line n → bad_line text.now ≡ Some n }
    ensures unfit { result ≡ CanonFault.Unfit → bad_line text.now ≡ None }
{
    match bad_line(alloc, text) {
        Ok(Some(line)) => CanonFault::Line { line },
        Ok(None) => CanonFault::Unfit,
        Err(_) => CanonFault::NoMemory,
    }
}

/// The netlist that has this canonical text.
///
/// A fault is that of the first line that may not stand in its place, where there is one; a last line without a line
/// feed is missing. Where all lines may stand, no netlist within a builder's limits has this text.
pub fn read_canonical(alloc: Global, text: &[u8]) -> Result<Named, CanonFault>
    ensures accepts { IfOk result (λ named. canonical_text (design_of named) ≡ text.now) }
    ensures known { (a : NamedValue) → IsNumbered a → text.now ≡ canonical_text (design_of a) → IfErr result NamesNoLine }
    ensures complete { (a : NamedValue) → IsBuildable a → IsNumbered a → text.now ≡ canonical_text (design_of a) → IfErr result IsWant }
    ensures same { (a : NamedValue) → IsNumbered a → canonical_text (design_of a) ≡ text.now → IfOk result (λ named. design_of named ≡ design_of a) }
    ensures buildable { IfOk result IsBuildable }
    ensures line { (line : ℕ) → IsErrOf result (CanonFault.Line line) → IsBadLine line text.now }
    ensures right { IsOk result → IsAllRight text.now }
    ensures unfit { IsErrOf result CanonFault.Unfit → IsAllRight text.now }
    ensures nobody { IsErrOf result CanonFault.Unfit → (a : NamedValue) → IsBuildable a → canonical_text (design_of a) ≢ text.now }
{
    match read_whole(alloc, text) {
        Ok(named) => Ok(named),
        Err(CanonFault::Unfit) => Err(refusal(alloc, text)),
        Err(fault) => Err(fault),
    }
}
