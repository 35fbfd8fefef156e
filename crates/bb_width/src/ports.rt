//! The ports of a module: each name of the header once and with a direction, and no direction of another name.

ghost use Rattle.std.specs.Prelude.{◌≡◌, ◌++◌, ◌∷◌, [], OnOk, IfOk, None, false, map, fold, flat_map};
ghost use Rattle.bb_fault.specs.declared.fault.ElabFault.TheVariants.{BadPort};
ghost use Rattle.bb_scope.specs.Answers.{IsAnswer};
ghost use Rattle.bb_scope.specs.Names.{header_names};
ghost use Rattle.bb_scope.specs.Declarations.{declarations, item_decls, is_stray, bad_port};
ghost use Rattle.bb_scope.specs.Said.{is_directed, is_odd_said, odd_fault, stray_fault, with_decl};

use bb_base::{Name, is_port_role};
use bb_fault::ElabFault;
use bb_parse::{Decl, Header, Item, Module};
use bb_scope::Said;
use indexmap::{IndexMap, IndexSet};
use std::alloc::{AllocError, Global};

fn bad_port(alloc: Global, name: &Name) -> Result<ElabFault, AllocError>
    ensures { IfOk result (λ fault. fault ≡ BadPort name.now None) }
{
    Ok(ElabFault::BadPort {
        name: name.copy(alloc)?,
        select: None,
    })
}

/// Whether a direction is said.
fn is_directed(said: Option<Said>) -> bool
    ensures { result ≡ is_directed said }
{
    match said {
        None => false,
        Some(said) => said.port,
    }
}

/// Adds a name of the header to those before it, and answers whether it stands there or has no direction.
fn is_odd(
    alloc: Global,
    said: &IndexMap<Name, Said>,
    before: &mut IndexSet<Name>,
    name: &Name,
) -> Result<bool, AllocError>
    ensures odd { IfOk result (λ odd. odd ≡ is_odd_said said.now.entries before.old.keys name.now) }
    ensures before { IfOk result (λ odd. odd ≡ false → before.new.keys ≡ before.old.keys ++ name.now ∷ []) }
{
    if before.contains(name) {
        return Ok(true);
    }
    before.insert(name.copy(alloc)?)?;
    Ok(!is_directed(said.get(name).copied()))
}

/// The fault of the first odd name, and the names before it.
fn odd_name(
    alloc: Global,
    said: &IndexMap<Name, Said>,
    before: &mut IndexSet<Name>,
    names: &[Name],
) -> Result<(), ElabFault>
    ensures fault { IsAnswer (odd_fault said.now.entries before.old.keys names.now) result }
    ensures before { OnOk result (before.new.keys ≡ before.old.keys ++ names.now) }
{
    for name in names {
        if is_odd(alloc, said, before, name)? {
            return Err(bad_port(alloc, name)?);
        }
    }
    Ok(())
}

/// The same of declarations.
fn odd_decl(
    alloc: Global,
    said: &IndexMap<Name, Said>,
    before: &mut IndexSet<Name>,
    decls: &[Decl],
) -> Result<(), ElabFault>
    ensures fault { IsAnswer (odd_fault said.now.entries before.old.keys (map (λ d. d.name) decls.now)) result }
    ensures before { OnOk result (before.new.keys ≡ before.old.keys ++ map (λ d. d.name) decls.now) }
{
    for decl in decls {
        if is_odd(alloc, said, before, &decl.name)? {
            return Err(bad_port(alloc, &decl.name)?);
        }
    }
    Ok(())
}

/// The fault of the first odd name of a header, and its names.
fn odd_port(
    alloc: Global,
    said: &IndexMap<Name, Said>,
    before: &mut IndexSet<Name>,
    header: &Header,
) -> Result<(), ElabFault>
    ensures fault { IsAnswer (odd_fault said.now.entries before.old.keys (header_names header.now)) result }
    ensures before { OnOk result (before.new.keys ≡ before.old.keys ++ header_names header.now) }
{
    match header {
        Header::Plain(names) => odd_name(alloc, said, before, names.as_slice()),
        Header::Ansi(decls) => odd_decl(alloc, said, before, decls.as_slice()),
    }
}

/// Whether a declaration gives a direction to a name that the header lacks.
fn is_stray(header: &IndexSet<Name>, decl: &Decl) -> bool
    ensures { result ≡ is_stray header.now.keys decl.now }
{
    is_port_role(decl.role) && !header.contains(&decl.name)
}

/// The fault of the first such declaration among items.
fn stray_port(alloc: Global, header: &IndexSet<Name>, items: &[Item]) -> Result<(), ElabFault>
    ensures { IsAnswer (stray_fault header.now.keys (flat_map item_decls items.now)) result }
{
    for item in items {
        if let Item::Decl(decl) = item {
            if is_stray(header, decl) {
                return Err(bad_port(alloc, &decl.name)?);
            }
        }
    }
    Ok(())
}

/// The fault of a module's ports, where `said` is what its declarations say.
pub fn port_fault(
    alloc: Global,
    said: &IndexMap<Name, Said>,
    module: &Module,
) -> Result<(), ElabFault>
    requires { said.now.entries ≡ fold with_decl [] (declarations «module».now) }
    ensures { IsAnswer (bad_port «module».now) result }
{
    let mut header = IndexSet::new(alloc);
    odd_port(alloc, said, &mut header, &module.header)?;
    // The declarations of the header name its own names.
    stray_port(alloc, &header, module.items.as_slice())
}
