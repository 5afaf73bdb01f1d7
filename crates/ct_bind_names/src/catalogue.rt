ghost use Rattle.std.specs.Prelude.{◌≡◌, ◌+◌, IfOk};
ghost use Rattle.std.specs.Option.{option_copied};
ghost use Rattle.ct_types.specs.Answers.{Gives, Lends};
ghost use Rattle.ct_bind_names.specs.Catalogue as spec;

use crate::names::{same_name, table_name};
use ct_types::{Catalogued, ColType, Copies, Memory, ObjectName, Refusal, Text, Variable};
use std::alloc::Global;

/// A system table of change tracking.
#[derive(Clone, Copy, Debug, PartialEq, Eq)]
pub enum SystemTable {
    /// `sys.dm_tran_commit_table`
    Commits,
    /// `sys.change_tracking_tables`
    Tracking,
}

/// The table of that name.
#[tactic(auto, unfolding(crate::specs::Catalogue::table_named))]
pub fn table_named<'a>(tables: &'a [Catalogued], name: &Text) -> Option<&'a Catalogued>
    ensures { option_copied result ≡ spec.table_named tables.now name.now }
{
    tables.iter().find(|table| same_name(table.schema.name.as_str(), name.as_str()))
}

/// The table of that name: 208 where there is none. A system table is none.
#[tactic(auto, unfolding(crate::specs::Catalogue::existing_table))]
pub fn existing_table<'a>(
    alloc: Global,
    tables: &'a [Catalogued],
    name: &ObjectName,
) -> Result<&'a Catalogued, Refusal>
    ensures { Lends (spec.existing_table tables.now name.now) result }
{
    let name = table_name(alloc, name)?;
    match table_named(tables, &name) {
        Some(table) => Ok(table),
        None => Err(Refusal::NoObject { name }),
    }
}

/// The tracked table of that name: 208 where there is none, NotTracked where it is not tracked.
#[tactic(auto, unfolding(crate::specs::Catalogue::tracked_table))]
pub fn tracked_table<'a>(
    alloc: Global,
    tables: &'a [Catalogued],
    name: &ObjectName,
) -> Result<&'a Catalogued, Refusal>
    ensures { Lends (spec.tracked_table tables.now name.now) result }
{
    let table = existing_table(alloc, tables, name)?;
    if table.tracked.is_some() {
        Ok(table)
    } else {
        Err(Refusal::NotTracked {
            name: table_name(alloc, name)?,
        })
    }
}

/// The system table of that name, of which there are two.
#[tactic(auto, unfolding(crate::specs::Catalogue::system_table))]
pub fn system_table(name: &Text) -> Option<SystemTable>
    ensures { result ≡ spec.system_table name.now }
{
    let name = name.as_str();
    if same_name(name, "sys.dm_tran_commit_table") {
        Some(SystemTable::Commits)
    } else if same_name(name, "sys.change_tracking_tables") {
        Some(SystemTable::Tracking)
    } else {
        None
    }
}

/// Whether a variable of that name is declared.
#[tactic(auto, unfolding(crate::specs::Catalogue::is_declared))]
pub fn is_declared(variables: &[Variable], name: &Text) -> bool
    ensures { result ≡ spec.is_declared variables.now name.now }
{
    variables.iter().any(|variable| same_name(variable.name.as_str(), name.as_str()))
}

/// A place that is so many behind another. A list that is longer than its places can be counted is more than memory holds.
pub fn place_after(at: u32, more: usize) -> Result<u32, Memory>
    ensures { IfOk result (λ place. place ≡ at + more) }
{
    match u32::try_from(more) {
        Ok(more) => at.checked_add(more).ok_or(Memory),
        Err(_) => Err(Memory),
    }
}

#[tactic(auto, unfolding(crate::specs::Catalogue::variable_from))]
fn find_variable(variables: &[Variable], name: &Text) -> Result<Option<(u32, ColType)>, Memory>
    ensures { IfOk result (λ found. found ≡ spec.variable_from name.now 0 variables.now) }
{
    let mut at = 0;
    for variable in variables {
        if same_name(variable.name.as_str(), name.as_str()) {
            return Ok(Some((at, variable.kind)));
        }
        at = place_after(at, 1)?;
    }
    Ok(None)
}

/// The place of the variable of that name, counted from 0, and its type: NoVariable where it is not declared.
#[tactic(auto, unfolding(crate::specs::Catalogue::declared_variable))]
pub fn declared_variable(
    alloc: Global,
    variables: &[Variable],
    name: &Text,
) -> Result<(u32, ColType), Refusal>
    ensures { Gives (spec.declared_variable variables.now name.now) result }
{
    match find_variable(variables, name)? {
        Some(found) => Ok(found),
        None => Err(Refusal::NoVariable {
            name: name.copy(alloc)?,
        }),
    }
}
