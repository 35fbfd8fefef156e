ghost use Rattle.std.specs.Prelude.{◌≡◌, ◌<◌, ◌≤◌, ◌^◌, ◌-◌, ◌++◌, ℕ, length, map, All, OnOk, IfOk, IsErrOf, IfErr, slice_index, slice_get, Some, min};
ghost use Rattle.bb_base.specs.Net.{times};
ghost use Rattle.bb_base.specs.Firsts.{IsFirst};
ghost use Rattle.bb_base.specs.Drivers.{driven_by};
ghost use Rattle.bb_base.specs.Faults.{IsFinishFault, IsDriverFault};

use crate::{Flop, Gate, NetFault, NetId};
use std::alloc::{AllocError, Global};

/// For each net the place of its driver in the list of what is driven, or the first net with two drivers, or else the first
/// without one.
pub(crate) fn place_drivers(
    alloc: Global,
    driven: &[NetId],
    nets: u32,
) -> Result<Vec<u32>, NetFault>
    requires { All (λ net. net < nets) driven.now }
    ensures once { OnOk result ((m : ℕ) → m < nets → times m driven.now ≡ 1) }
    ensures long { IfOk result (λ places. length places.items ≡ nets) }
    ensures each { IfOk result (λ places. (m : ℕ) → m < nets → slice_get driven.now (slice_index places.items m) ≡ Some m) }
    ensures two { (net : ℕ) → IsErrOf result (NetFault.TwoDrivers net) → IsFirst (λ m. 2 ≤ times m driven.now) nets net }
    ensures none { (net : ℕ) → IsErrOf result (NetFault.Undriven net) → IsFirst (λ m. times m driven.now ≡ 0) nets net }
    ensures order { (net : ℕ) → IsErrOf result (NetFault.Undriven net) → (m : ℕ) → m < nets → times m driven.now ≤ 1 }
    ensures only { IfErr result IsFinishFault }
{
    match check_drivers(alloc, driven, nets) {
        Ok(()) => Ok(driver_places(alloc, driven, nets)?),
        Err(fault) => Err(fault),
    }
}

/// Refuses the first net with two drivers, or else the first without one.
fn check_drivers(alloc: Global, driven: &[NetId], nets: u32) -> Result<(), NetFault>
    requires { All (λ net. net < nets) driven.now }
    ensures once { OnOk result ((m : ℕ) → m < nets → times m driven.now ≡ 1) }
    ensures two { (net : ℕ) → IsErrOf result (NetFault.TwoDrivers net) → IsFirst (λ m. 2 ≤ times m driven.now) nets net }
    ensures none { (net : ℕ) → IsErrOf result (NetFault.Undriven net) → IsFirst (λ m. times m driven.now ≡ 0) nets net }
    ensures order { (net : ℕ) → IsErrOf result (NetFault.Undriven net) → (m : ℕ) → m < nets → times m driven.now ≤ 1 }
    ensures only { IfErr result IsFinishFault }
{
    let counts = driver_counts(alloc, driven, nets)?;
    match judge(&counts) {
        Ok(()) => Ok(()),
        Err(fault) => Err(fault),
    }
}

/// The nets that have a driver, one entry a driver.
pub(crate) fn driven_nets(
    alloc: Global,
    inputs: &[NetId],
    gates: &[Gate],
    flops: &[Flop],
) -> Result<Vec<NetId>, AllocError>
    ensures { IfOk result (λ nets. nets.items ≡ driven_by inputs.now gates.now flops.now) }
{
    let mut nets = Vec::from_slice(alloc, inputs)?;
    push_outs(&mut nets, gates)?;
    push_states(&mut nets, flops)?;
    Ok(nets)
}

fn push_outs(nets: &mut Vec<NetId>, gates: &[Gate]) -> Result<(), AllocError>
    ensures { OnOk result (nets.new.items ≡ nets.old.items ++ map (λ g. g.out) gates.now) }
{
    for gate in gates {
        nets.push(gate.out)?;
    }
    Ok(())
}

fn push_states(nets: &mut Vec<NetId>, flops: &[Flop]) -> Result<(), AllocError>
    ensures { OnOk result (nets.new.items ≡ nets.old.items ++ map (λ f. f.q) flops.now) }
{
    for flop in flops {
        nets.push(flop.q)?;
    }
    Ok(())
}

/// How many drivers each net has, where 2 stands for more.
fn driver_counts(alloc: Global, driven: &[NetId], nets: u32) -> Result<Vec<u8>, AllocError>
    requires { All (λ net. net < nets) driven.now }
    ensures long { IfOk result (λ counts. length counts.items ≡ nets) }
    ensures each { IfOk result (λ counts. (m : ℕ) → m < nets → slice_index counts.items m ≡ min 2 (times m driven.now)) }
{
    let mut counts = vec![in alloc; 0u8; nets as usize]?;
    for net in driven {
        let place = net.0 as usize;
        counts[place] = counts[place].saturating_add(1).min(2);
    }
    Ok(counts)
}

/// Refuses the first count that is 2, or else the first that is 0.
fn judge(counts: &[u8]) -> Result<(), NetFault>
    requires { length counts.now < 2 ^ 32 }
    ensures ok { OnOk result ((m : ℕ) → m < length counts.now → slice_index counts.now m ≡ 1) }
    ensures two { (net : ℕ) → IsErrOf result (NetFault.TwoDrivers net) → IsFirst (λ m. 2 ≤ slice_index counts.now m) (length counts.now) net }
    ensures none { (net : ℕ) → IsErrOf result (NetFault.Undriven net) → IsFirst (λ m. slice_index counts.now m ≡ 0) (length counts.now) net }
    ensures order { (net : ℕ) → IsErrOf result (NetFault.Undriven net) → (m : ℕ) → m < length counts.now → slice_index counts.now m ≤ 1 }
    ensures only { IfErr result IsDriverFault }
{
    for (net, count) in counts.iter().enumerate() {
        if *count >= 2 {
            return Err(NetFault::TwoDrivers {
                net: NetId(net as u32),
            });
        }
    }
    for (net, count) in counts.iter().enumerate() {
        if *count == 0 {
            return Err(NetFault::Undriven {
                net: NetId(net as u32),
            });
        }
    }
    Ok(())
}

/// For each net the place of a driver of it.
fn driver_places(alloc: Global, driven: &[NetId], nets: u32) -> Result<Vec<u32>, AllocError>
    requires within { All (λ net. net < nets) driven.now }
    requires few { length driven.now < 2 ^ 32 }
    ensures long { IfOk result (λ places. length places.items ≡ nets) }
    ensures each { IfOk result (λ places. (m : ℕ) → m < nets → 0 < times m driven.now → slice_get driven.now (slice_index places.items m) ≡ Some m) }
{
    let mut places = vec![in alloc; 0u32; nets as usize]?;
    for (place, net) in driven.iter().enumerate() {
        places[net.0 as usize] = place as u32;
    }
    Ok(places)
}
