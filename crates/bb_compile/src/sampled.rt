//! What `sample` writes and says.

ghost use Rattle.std.specs.Prelude.{◌≡◌, ◌≤◌, ◌++◌, ◌∷◌, [], codes, IfOk, IsErrOf};
ghost use Rattle.bb_base.specs.Order.{HasOrder, IsOrder};
ghost use Rattle.bb_base.specs.Named.{design_of};
ghost use Rattle.bb_spell.specs.Canonical.{canonical_text};
ghost use Rattle.bb_sample.specs.Sample.{sample_of};
ghost use Rattle.bb_choose.specs.Arranged.{AreInRange};
ghost use Rattle.bb_read.specs.declared.refusal.Refusal.{Refusal as RefusalValue};
ghost use Rattle.bb_compile.specs.Made.{IsMadeSample};
ghost use Rattle.bb_compile.specs.Causes.{IsSampleRefused};
ghost use Rattle.bb_compile.specs.Prepared.{IsPreparedSample};

use crate::laws::{sample_texts_denote, samples_are_ready};
use crate::plan::made_of;
use crate::prepared::{Prepared, file, prepared_behind};
use bb_make::{Artifacts, Settings};
use bb_net::Named;
use bb_netlist::{Order, OrderFault, find_order};
use bb_print::print;
use bb_read::{File, Stop};
use bb_sample::sample;
use std::alloc::{AllocError, Global};

/// The order of the gates of a netlist that has one.
fn order_of(alloc: Global, named: &Named) -> Result<Order, AllocError>
    requires { HasOrder named.now.netlist.gates }
    ensures { IfOk result (λ order. IsOrder named.now.netlist.gates order) }
{
    match find_order(alloc, named.netlist()) {
        Ok(order) => Ok(order),
        // The gates have an order.
        Err(OrderFault::Loop { .. }) => unreachable!(),
        Err(OrderFault::NoMemory) => Err(AllocError),
    }
}

/// The file of a netlist's own text, before any others.
fn input_files(alloc: Global, prefix: &str, named: &Named) -> Result<Vec<File>, AllocError>
    ensures { IfOk result (λ files. files.items ≡ (prefix.now ++ codes ".in.v", canonical_text (design_of named.now)) ∷ []) }
{
    let mut text = Vec::new(alloc);
    print(alloc, named, &mut text)?;
    let mut files = Vec::new(alloc);
    files.push(file(alloc, prefix, ".in.v", text)?)?;
    Ok(files)
}

/// What is made of a sample.
fn artifacts_of(
    alloc: Global,
    number: u32,
    named: &Named,
    settings: &Settings,
) -> Result<Artifacts, Stop>
    requires some { 1 ≤ number }
    requires few { number ≤ 65536 }
    requires sample { named.now ≡ sample_of number }
    requires settings { AreInRange settings.now }
    ensures made { IfOk result (IsMadeSample settings.now number) }
    ensures refused { (refusal : RefusalValue) → IsErrOf result (Stop.Refused refusal) → IsSampleRefused settings.now number refusal }
    ensures no_read { IsErrOf result Stop.Read → ⊥ }
{
    samples_are_ready();
    sample_texts_denote();
    let order = order_of(alloc, named)?;
    made_of(alloc, named, &order, settings)
}

/// Makes all that is to be written and said of a sample: its own text, and what `compile` makes of that netlist.
pub fn prepare_sample(
    alloc: Global,
    number: u32,
    prefix: &str,
    settings: &Settings,
) -> Result<Prepared, Stop>
    requires some { 1 ≤ number }
    requires few { number ≤ 65536 }
    requires settings { AreInRange settings.now }
    ensures prepared { IfOk result (IsPreparedSample number prefix.now settings.now) }
    ensures refused { (refusal : RefusalValue) → IsErrOf result (Stop.Refused refusal) → IsSampleRefused settings.now number refusal }
    ensures no_read { IsErrOf result Stop.Read → ⊥ }
{
    let named = sample(alloc, number)?;
    let made = artifacts_of(alloc, number, &named, settings)?;
    let files = input_files(alloc, prefix, &named)?;
    let prepared = prepared_behind(alloc, files, prefix, made)?;
    Ok(prepared)
}
