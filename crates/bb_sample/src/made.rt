//! The whole sample.

ghost use Rattle.std.specs.Prelude.{◌≡◌, ◌≤◌, IfOk, OnOk};
ghost use Rattle.bb_sample.specs.Sample.{is_clocked, sample_of};
ghost use Rattle.bb_sample.specs.Laying.{laid};

use crate::draws::Draws;
use crate::gates::{add_buffers, add_flops, add_gates};
use crate::ports::{lay, out_of_memory};
use bb_net::{Builder, Named};
use std::alloc::{AllocError, Global};

/// Adds all gates, and then all flip-flops.
///
/// After an error some of them may stand.
fn fill(builder: &mut Builder, number: u32) -> Result<(), AllocError>
    requires some { 1 ≤ number }
    requires few { number ≤ 65536 }
    requires laid { builder.old ≡ laid (is_clocked number) number }
    ensures { OnOk result (builder.new ≡ sample_of number) }
{
    let mut draws = Draws::new(number);
    add_gates(builder, &mut draws, number)?;
    add_buffers(builder, number)?;
    add_flops(builder, &mut draws, number)?;
    Ok(())
}

/// The netlist of a builder that holds a sample.
fn finished(builder: Builder, number: u32) -> Result<Named, AllocError>
    requires some { 1 ≤ number }
    requires few { number ≤ 65536 }
    requires filled { builder ≡ sample_of number }
    ensures { IfOk result (λ named. named ≡ builder) }
{
    match builder.finish() {
        Ok(named) => Ok(named),
        // Each net has one driver.
        Err(fault) => Err(out_of_memory(fault)),
    }
}

/// The sample netlist of a number.
pub fn sample(alloc: Global, number: u32) -> Result<Named, AllocError>
    requires some { 1 ≤ number }
    requires few { number ≤ 65536 }
    ensures { IfOk result (λ named. named ≡ sample_of number) }
{
    let mut builder = lay(alloc, number)?;
    fill(&mut builder, number)?;
    finished(builder, number)
}
