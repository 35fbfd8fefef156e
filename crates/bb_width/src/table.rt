//! The variables of a module, and which of them each use of a name is.

ghost use Rattle.std.specs.Prelude.{◌≡◌, ◌∷◌, [], OnOk, IfOk, fold, map, flat_map, find};
ghost use Rattle.std.specs.Option.{option_copied};
ghost use Rattle.indexmap.specs.IndexMap.{keys};
ghost use Rattle.bb_base.specs.OwnNames.{is_reserved};
ghost use Rattle.bb_scope.specs.Answers.{IsAnswer};
ghost use Rattle.bb_scope.specs.Names.{steps_names, pin_names, item_names, header_names, mentioned, reserved};
ghost use Rattle.bb_scope.specs.Declarations.{declarations};
ghost use Rattle.bb_scope.specs.Variables.{variables};
ghost use Rattle.bb_scope.specs.Said.{variable_said, with_said, with_decl};
ghost use Rattle.bb_scope.specs.Uses.{index_in, uses_of, with_use};

use bb_base::{Name, Role, Variable, is_reserved};
use bb_fault::ElabFault;
use bb_parse::{Conns, Decl, Expr, Header, Item, Module, Ref, Step};
use bb_scope::Said;
use indexmap::IndexMap;
use std::alloc::{AllocError, Global};
use std::marker::Model;

/// The variables so far, and the index of the variable of each use so far.
#[derive(Drop)]
pub struct Used {
    pub table: IndexMap<Name, Variable>,
    pub uses: Vec<usize>,
}

impl Model for Used {
    ghost use Rattle.bb_scope.specs.Uses.{Used as UsedValue};

    ghost Value = { UsedValue };

    ghost view = { λ u. record { vars = u.table.entries; uses = u.uses.items } };
}

/// The variable that is said.
fn variable_said(said: Option<Said>) -> Variable
    ensures { result ≡ variable_said said }
{
    match said {
        None => Variable {
            range: None,
            role: Role::Wire,
        },
        Some(said) => Variable {
            range: said.range,
            role: said.role,
        },
    }
}

/// The index of the variable of a name, which is added unless it stands.
fn index_of(
    alloc: Global,
    said: &IndexMap<Name, Said>,
    table: &mut IndexMap<Name, Variable>,
    name: &Name,
) -> Result<usize, AllocError>
    ensures table { OnOk result (table.new.entries ≡ with_said said.now.entries table.old.entries name.now) }
    ensures index { IfOk result (λ index. index ≡ index_in table.old.entries name.now) }
{
    if let Some(index) = table.get_index_of(name) {
        return Ok(index);
    }
    let index = table.len();
    let variable = variable_said(said.get(name).copied());
    table.insert(name.copy(alloc)?, variable)?;
    Ok(index)
}

/// Adds a use of a name.
fn add_name(
    alloc: Global,
    said: &IndexMap<Name, Said>,
    used: &mut Used,
    name: &Name,
) -> Result<(), AllocError>
    ensures { OnOk result (used.new ≡ with_use said.now.entries used.old name.now) }
{
    let index = index_of(alloc, said, &mut used.table, name)?;
    used.uses.push(index)?;
    Ok(())
}

/// Adds the names of an expression.
fn add_steps(
    alloc: Global,
    said: &IndexMap<Name, Said>,
    used: &mut Used,
    steps: &[Step],
) -> Result<(), AllocError>
    ensures { OnOk result (used.new ≡ fold (with_use said.now.entries) used.old (steps_names steps.now)) }
{
    for step in steps {
        if let Step::Ref(reference) = step {
            add_name(alloc, said, used, &reference.name)?;
        }
    }
    Ok(())
}

/// Adds the names of expressions.
fn add_terms(
    alloc: Global,
    said: &IndexMap<Name, Said>,
    used: &mut Used,
    terms: &[Expr],
) -> Result<(), AllocError>
    ensures { OnOk result (used.new ≡ fold (with_use said.now.entries) used.old (flat_map steps_names terms.now)) }
{
    for term in terms {
        add_steps(alloc, said, used, term.as_slice())?;
    }
    Ok(())
}

/// Adds the names in what pins are connected to.
fn add_pins(
    alloc: Global,
    said: &IndexMap<Name, Said>,
    used: &mut Used,
    pins: &[(Name, Option<Expr>)],
) -> Result<(), AllocError>
    ensures { OnOk result (used.new ≡ fold (with_use said.now.entries) used.old (flat_map (λ p. pin_names p.1) pins.now)) }
{
    for (_, expr) in pins {
        if let Some(expr) = expr {
            add_steps(alloc, said, used, expr.as_slice())?;
        }
    }
    Ok(())
}

/// Adds the names of references.
fn add_refs(
    alloc: Global,
    said: &IndexMap<Name, Said>,
    used: &mut Used,
    refs: &[Ref],
) -> Result<(), AllocError>
    ensures { OnOk result (used.new ≡ fold (with_use said.now.entries) used.old (map (λ r. r.name) refs.now)) }
{
    for reference in refs {
        add_name(alloc, said, used, &reference.name)?;
    }
    Ok(())
}

/// Adds the names of an item.
fn add_item(
    alloc: Global,
    said: &IndexMap<Name, Said>,
    used: &mut Used,
    item: &Item,
) -> Result<(), AllocError>
    ensures { OnOk result (used.new ≡ fold (with_use said.now.entries) used.old (item_names item.now)) }
{
    match item {
        Item::Decl(decl) => add_name(alloc, said, used, &decl.name),
        Item::Assign {
            line: _,
            left,
            right,
        } => {
            add_refs(alloc, said, used, left.as_slice())?;
            add_steps(alloc, said, used, right.as_slice())
        }
        Item::Prim {
            line: _,
            op: _,
            terms,
        } => add_terms(alloc, said, used, terms.as_slice()),
        Item::Cell {
            line: _,
            cell: _,
            conns,
        } => match conns {
            Conns::Places(terms) => add_terms(alloc, said, used, terms.as_slice()),
            Conns::Pins(pins) => add_pins(alloc, said, used, pins.as_slice()),
        },
    }
}

/// Adds the names of items.
fn add_items(
    alloc: Global,
    said: &IndexMap<Name, Said>,
    used: &mut Used,
    items: &[Item],
) -> Result<(), AllocError>
    ensures { OnOk result (used.new ≡ fold (with_use said.now.entries) used.old (flat_map item_names items.now)) }
{
    for item in items {
        add_item(alloc, said, used, item)?;
    }
    Ok(())
}

/// Adds names.
fn add_names(
    alloc: Global,
    said: &IndexMap<Name, Said>,
    used: &mut Used,
    names: &[Name],
) -> Result<(), AllocError>
    ensures { OnOk result (used.new ≡ fold (with_use said.now.entries) used.old names.now) }
{
    for name in names {
        add_name(alloc, said, used, name)?;
    }
    Ok(())
}

/// Adds the names of declarations.
fn add_decls(
    alloc: Global,
    said: &IndexMap<Name, Said>,
    used: &mut Used,
    decls: &[Decl],
) -> Result<(), AllocError>
    ensures { OnOk result (used.new ≡ fold (with_use said.now.entries) used.old (map (λ d. d.name) decls.now)) }
{
    for decl in decls {
        add_name(alloc, said, used, &decl.name)?;
    }
    Ok(())
}

/// Adds the names of a header.
fn add_header(
    alloc: Global,
    said: &IndexMap<Name, Said>,
    used: &mut Used,
    header: &Header,
) -> Result<(), AllocError>
    ensures { OnOk result (used.new ≡ fold (with_use said.now.entries) used.old (header_names header.now)) }
{
    match header {
        Header::Plain(names) => add_names(alloc, said, used, names.as_slice()),
        Header::Ansi(decls) => add_decls(alloc, said, used, decls.as_slice()),
    }
}

/// The variables of a module, in the order of their first uses, and the variable of each use in its items.
pub fn table_of(
    alloc: Global,
    said: &IndexMap<Name, Said>,
    module: &Module,
) -> Result<Used, AllocError>
    requires { said.now.entries ≡ fold with_decl [] (declarations «module».now) }
    ensures vars { IfOk result (λ used. used.vars ≡ variables «module».now) }
    ensures uses { IfOk result (λ used. used.uses ≡ uses_of (variables «module».now) (flat_map item_names «module».now.items)) }
{
    let mut used = Used {
        table: IndexMap::new(alloc),
        uses: Vec::new(alloc),
    };
    add_header(alloc, said, &mut used, &module.header)?;
    used.uses.clear();
    add_items(alloc, said, &mut used, module.items.as_slice())?;
    Ok(used)
}

/// The first variable with a reserved name.
fn reserved_variable(table: &IndexMap<Name, Variable>) -> Option<&Name>
    ensures { option_copied result ≡ find is_reserved (keys table.now) }
{
    table.keys().find(|name| is_reserved(name))
}

/// The first reserved name, the module's before those of its variables.
fn first_reserved<'a>(module: &'a Module, table: &'a IndexMap<Name, Variable>) -> Option<&'a Name>
    requires { table.now.entries ≡ variables «module».now }
    ensures { option_copied result ≡ find is_reserved («module».now.name ∷ mentioned «module».now) }
{
    if is_reserved(&module.name) {
        return Some(&module.name);
    }
    reserved_variable(table)
}

/// The fault of a reserved name, where `table` has the variables of the module.
pub fn reserved_fault(
    alloc: Global,
    own: bool,
    module: &Module,
    table: &IndexMap<Name, Variable>,
) -> Result<(), ElabFault>
    requires { table.now.entries ≡ variables «module».now }
    ensures { IsAnswer (reserved own «module».now) result }
{
    if own {
        return Ok(());
    }
    match first_reserved(module, table) {
        None => Ok(()),
        Some(name) => Err(ElabFault::Reserved {
            name: name.copy(alloc)?,
            select: None,
        }),
    }
}
