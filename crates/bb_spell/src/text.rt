ghost use Rattle.std.specs.Prelude.{◌≡◌, ◌++◌, ◌<◌, [], Some, None, map, OnOk, OnErr};
ghost use Rattle.std.specs.List.{flat_map};
ghost use Rattle.bb_base.specs.Variables.{IsBit, bit_of};
ghost use Rattle.bb_base.specs.Net.{renamed_gate, renamed_flop};
ghost use Rattle.bb_base.specs.Named.{IsNamed, net_text, design_of};
ghost use Rattle.bb_spell.specs.Spelling.{declaration, gate_line};
ghost use Rattle.bb_spell.specs.Canonical.{with_feed, flop_lines, canonical_text, GrowsFrom};

use crate::line::{write_declaration, write_flop, write_module, write_statement};
use bb_base::BitName;
use bb_net::Named;
use std::alloc::{AllocError, Global};

/// Ends the line and appends it to the text. The line is then empty.
fn end_line(out: &mut Vec<u8>, line: &mut Vec<u8>) -> Result<(), AllocError>
    ensures ok { OnOk result (out.new.items ≡ out.old.items ++ with_feed line.old.items) }
    ensures cleared { OnOk result (line.new.items ≡ []) }
    ensures kept { OnErr result (out.new.items ≡ out.old.items) }
{
    line.extend_from_slice(b"\n")?;
    out.extend_from_slice(line)?;
    line.clear();
    Ok(())
}

#[tactic(auto, using(crate::proofs::Keeps::keeps_more))]
fn put_declarations(out: &mut Vec<u8>, line: &mut Vec<u8>, named: &Named) -> Result<(), AllocError>
    requires empty { line.old.items ≡ [] }
    ensures ok { OnOk result (out.new.items ≡ out.old.items ++ flat_map with_feed (map declaration named.now.variables)) }
    ensures cleared { OnOk result (line.new.items ≡ []) }
    ensures kept { GrowsFrom out.old.items out.new.items }
{
    'variables: for number in 0..named.variables() {
        let (name, variable) = named.variable(number);
        write_declaration(line, name, variable)?;
        end_line(out, line)?;
    }
    Ok(())
}

#[tactic(auto, using(crate::proofs::Keeps::keeps_more))]
fn put_statements(out: &mut Vec<u8>, line: &mut Vec<u8>, named: &Named) -> Result<(), AllocError>
    requires empty { line.old.items ≡ [] }
    ensures ok { OnOk result (out.new.items ≡ out.old.items ++ flat_map with_feed (map gate_line (map (renamed_gate (net_text named.now)) named.now.netlist.gates))) }
    ensures cleared { OnOk result (line.new.items ≡ []) }
    ensures kept { GrowsFrom out.old.items out.new.items }
{
    'gates: for gate in named.netlist().gates() {
        write_statement(line, named, gate)?;
        end_line(out, line)?;
    }
    Ok(())
}

#[tactic(auto, using(crate::proofs::Keeps::keeps_more))]
fn put_clocked(
    out: &mut Vec<u8>,
    line: &mut Vec<u8>,
    named: &Named,
    clock: BitName,
) -> Result<(), AllocError>
    requires empty { line.old.items ≡ [] }
    requires clock { IsBit named.now.variables clock }
    ensures ok { OnOk result (out.new.items ≡ out.old.items ++ flat_map with_feed (flop_lines (Some (bit_of named.now.variables clock)) 0 (map (renamed_flop (net_text named.now)) named.now.netlist.flops))) }
    ensures cleared { OnOk result (line.new.items ≡ []) }
    ensures kept { GrowsFrom out.old.items out.new.items }
{
    'flops: for (number, flop) in named.netlist().flops().iter().enumerate() {
        write_flop(line, named, clock, number as u64, *flop)?;
        end_line(out, line)?;
    }
    Ok(())
}

fn put_flops(out: &mut Vec<u8>, line: &mut Vec<u8>, named: &Named) -> Result<(), AllocError>
    requires empty { line.old.items ≡ [] }
    ensures ok { OnOk result (out.new.items ≡ out.old.items ++ flat_map with_feed (flop_lines (design_of named.now).clock 0 (design_of named.now).netlist.flops)) }
    ensures named { IsNamed named.now }
    ensures cleared { OnOk result (line.new.items ≡ []) }
    ensures kept { GrowsFrom out.old.items out.new.items }
{
    match named.clock() {
        None => Ok(()),
        Some(clock) => put_clocked(out, line, named, clock),
    }
}

fn put_lines(alloc: Global, out: &mut Vec<u8>, named: &Named) -> Result<(), AllocError>
    ensures ok { OnOk result (out.new.items ≡ out.old.items ++ canonical_text (design_of named.now)) }
    ensures named { OnOk result (IsNamed named.now) }
    ensures kept { GrowsFrom out.old.items out.new.items }
{
    let mut line = Vec::new(alloc);
    write_module(&mut line, named)?;
    end_line(out, &mut line)?;
    put_declarations(out, &mut line, named)?;
    put_statements(out, &mut line, named)?;
    put_flops(out, &mut line, named)?;
    line.extend_from_slice(b"endmodule")?;
    end_line(out, &mut line)
}

/// Appends the canonical text of a netlist, or leaves the bytes as they were.
pub fn append_text(alloc: Global, named: &Named, out: &mut Vec<u8>) -> Result<(), AllocError>
    ensures ok { OnOk result (out.new.items ≡ out.old.items ++ canonical_text (design_of named.now)) }
    ensures named { OnOk result (IsNamed named.now) }
    ensures err { OnErr result (out.new.items ≡ out.old.items) }
{
    let start = out.len();
    match put_lines(alloc, out, named) {
        Ok(()) => Ok(()),
        Err(error) => {
            out.truncate(start);
            Err(error)
        }
    }
}
