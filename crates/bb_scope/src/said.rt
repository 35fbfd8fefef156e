//! What the declarations of a module say of each name.

ghost use Rattle.std.specs.Prelude.{◌≡◌, [], OnOk, IfOk, None, fold, flat_map};
ghost use Rattle.std.specs.Option.{option_or};
ghost use Rattle.bb_fault.specs.declared.fault.ElabFault.TheVariants.{Redeclared};
ghost use Rattle.bb_scope.specs.Declarations.{range_eq, declarations, header_decls, item_decls, redeclared};
ghost use Rattle.bb_scope.specs.Said.{clashes_with, said_with, with_decl, clash_of, first_clash};

use bb_base::{Name, Role, is_port_role};
use bb_fault::ElabFault;
use bb_parse::{Decl, Header, Item, Module};
use indexmap::IndexMap;
use std::alloc::{AllocError, Global};

/// What is said of a name: its direction or else that it is a wire, how it was declared, and its range.
#[derive(Clone, Copy, Debug)]
pub struct Said {
    pub role: Role,
    pub port: bool,
    pub wire: bool,
    pub range: Option<(u32, u32)>,
}

/// Whether two ranges are written alike.
fn range_eq(a: Option<(u32, u32)>, b: Option<(u32, u32)>) -> bool
    ensures { result ≡ range_eq a b }
{
    match (a, b) {
        (None, None) => true,
        (Some(a), Some(b)) => a.0 == b.0 && a.1 == b.1,
        _ => false,
    }
}

/// Whether a declaration clashes with what is said of its name.
fn clashes_with(said: Option<Said>, decl: &Decl) -> bool
    ensures { result ≡ clashes_with said decl.now }
{
    let Some(said) = said else {
        return false;
    };
    let same = if is_port_role(decl.role) {
        said.port
    } else {
        said.wire
    };
    same || !range_eq(decl.range, said.range)
}

/// What is said once a declaration of the name is added.
fn said_with(said: Option<Said>, decl: &Decl) -> Said
    ensures { result ≡ said_with said decl.now }
{
    let port = is_port_role(decl.role);
    match said {
        None => Said {
            role: decl.role,
            port,
            wire: !port,
            range: decl.range,
        },
        Some(said) => Said {
            role: if said.port { said.role } else { decl.role },
            port: said.port || port,
            wire: said.wire || !port,
            range: said.range,
        },
    }
}

/// What the declarations so far say, and the fault of the first that clashes with one before it.
#[derive(Drop)]
struct Declarations {
    said: IndexMap<Name, Said>,
    clash: Option<ElabFault>,
}

/// The fault of a name that is declared again.
fn redeclared(alloc: Global, name: &Name) -> Result<ElabFault, AllocError>
    ensures { IfOk result (λ fault. fault ≡ Redeclared name.now None) }
{
    Ok(ElabFault::Redeclared {
        name: name.copy(alloc)?,
        select: None,
    })
}

impl Declarations {
    /// Adds a declaration.
    fn declare(&mut self, alloc: Global, decl: &Decl) -> Result<(), AllocError>
        ensures said { OnOk result (self.new.said.entries ≡ with_decl self.old.said.entries decl.now) }
        ensures clash { OnOk result (self.new.clash ≡ option_or self.old.clash (clash_of self.old.said.entries decl.now)) }
    {
        let before = self.said.get(&decl.name).copied();
        self.said
            .insert(decl.name.copy(alloc)?, said_with(before, decl))?;
        if self.clash.is_some() || !clashes_with(before, decl) {
            return Ok(());
        }
        self.clash = Some(redeclared(alloc, &decl.name)?);
        Ok(())
    }

    /// Adds declarations.
    fn declare_all(&mut self, alloc: Global, decls: &[Decl]) -> Result<(), AllocError>
        ensures said { OnOk result (self.new.said.entries ≡ fold with_decl self.old.said.entries decls.now) }
        ensures clash { OnOk result (self.new.clash ≡ option_or self.old.clash (first_clash self.old.said.entries decls.now)) }
    {
        for decl in decls {
            self.declare(alloc, decl)?;
        }
        Ok(())
    }

    /// Adds the declarations among items.
    fn declare_items(&mut self, alloc: Global, items: &[Item]) -> Result<(), AllocError>
        ensures said { OnOk result (self.new.said.entries ≡ fold with_decl self.old.said.entries (flat_map item_decls items.now)) }
        ensures clash { OnOk result (self.new.clash ≡ option_or self.old.clash (first_clash self.old.said.entries (flat_map item_decls items.now))) }
    {
        for item in items {
            if let Item::Decl(decl) = item {
                self.declare(alloc, decl)?;
            }
        }
        Ok(())
    }

    /// Adds the declarations of a header.
    fn declare_header(&mut self, alloc: Global, header: &Header) -> Result<(), AllocError>
        ensures said { OnOk result (self.new.said.entries ≡ fold with_decl self.old.said.entries (header_decls header.now)) }
        ensures clash { OnOk result (self.new.clash ≡ option_or self.old.clash (first_clash self.old.said.entries (header_decls header.now))) }
    {
        match header {
            Header::Plain(_) => Ok(()),
            Header::Ansi(decls) => self.declare_all(alloc, decls.as_slice()),
        }
    }
}

/// What the declarations of a module say, and the fault of the first that clashes with one before it. A reserved name has its fault
/// before that one's, so the fault is no error here.
pub fn declared(
    alloc: Global,
    module: &Module,
) -> Result<(IndexMap<Name, Said>, Option<ElabFault>), AllocError>
    ensures said { IfOk result (λ r. r.0.entries ≡ fold with_decl [] (declarations «module».now)) }
    ensures fault { IfOk result (λ r. r.1 ≡ redeclared «module».now) }
{
    let mut all = Declarations {
        said: IndexMap::new(alloc),
        clash: None,
    };
    all.declare_header(alloc, &module.header)?;
    all.declare_items(alloc, module.items.as_slice())?;
    let Declarations { said, clash } = all;
    Ok((said, clash))
}
