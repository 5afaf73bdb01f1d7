ghost use Rattle.std.specs.Prelude.{◌≡◌, ℕ, ◌<◌, ◌++◌, ◌∷◌, [], IfOk, OnOk, filter};
ghost use Rattle.std.specs.List.{AllByRecursion};
ghost use Rattle.ct_model.specs.Apply.{change_stays, trim, trim_one};
ghost use Rattle.ct_model.specs.Valid.{AreNumbered};
ghost use Rattle.ct_source.specs.Plain.{IsKeyed};
ghost use Rattle.ct_source.specs.Rows.{lent};
ghost use Rattle.ct_database.specs.Steps.{AreBehind, AreNewest, AreWithin, Rise};

use crate::commits::Commits;
use crate::needed::{is_change_needed, is_needed};
use crate::tables::Tables;
use ct_model::Table;
use ct_source::Stored;
use ct_types::{Change, Copies, Kept, List, Memory, push};
use std::alloc::Global;
use std::sync::Arc;

// ---- of plain lists

/// The tables of plain ones.
fn stored(alloc: Global, tables: List<Table>) -> Result<Vec<Stored>, Memory>
    requires { AllByRecursion IsKeyed tables }
    ensures { IfOk result (λ made. made.items ≡ tables) }
{
    let mut made = Vec::new(alloc);
    for table in tables.into_vec() {
        made.push(Stored::of(alloc, table)?)?;
    }
    Ok(made)
}

/// The tables of plain ones, whose ids count from 1, and their catalogue.
pub(crate) fn tables_of(alloc: Global, tables: List<Table>) -> Result<Tables, Memory>
    requires keyed { AllByRecursion IsKeyed tables }
    requires numbered { AreNumbered 1 tables }
    ensures { IfOk result (λ made. made ≡ tables) }
{
    let mut made = Tables::new(alloc);
    made.replace(stored(alloc, tables)?)?;
    Ok(made)
}

/// Adds a commit above all others. Some that no table needs may go.
fn add_commit(
    alloc: Global,
    tables: &[Stored],
    commits: &mut Commits,
    one: Kept,
) -> Result<(), Memory>
    requires counts { 0 < one.version }
    requires above { AreNewest commits.old.commits (one ∷ []) }
    ensures counted { OnOk result (trim tables.now commits.new.commits ≡ trim tables.now (commits.old.commits ++ one ∷ [])) }
    ensures within { OnOk result ((version : ℕ) → AreWithin version (commits.old.commits ++ one ∷ []) → AreWithin version commits.new.commits) }
{
    commits.make_room(tables)?;
    let one = Arc::new(alloc, one)?;
    commits.push(Some(one));
    Ok(())
}

/// The commits of a list, by strictly rising version, but for some that no table needs.
pub(crate) fn commits_of(
    alloc: Global,
    tables: &[Stored],
    kept: List<Kept>,
) -> Result<Commits, Memory>
    requires count { AreBehind 0 kept }
    requires rising { Rise kept }
    ensures counted { IfOk result (λ made. trim tables.now made.commits ≡ trim tables.now kept) }
    ensures within { IfOk result (λ made. (version : ℕ) → AreWithin version kept → AreWithin version made.commits) }
{
    let mut made = Commits::new(alloc);
    for one in kept.into_vec() {
        add_commit(alloc, tables, &mut made, one)?;
    }
    Ok(made)
}

// ---- plain lists

/// The plain tables, copied.
pub(crate) fn plain_tables(alloc: Global, tables: &[Stored]) -> Result<List<Table>, Memory>
    ensures { IfOk result (λ made. made ≡ tables.now) }
{
    let mut made = List::new(alloc);
    for table in tables {
        push(&mut made, table.to_table(alloc)?)?;
    }
    Ok(made)
}

/// The changes of a commit with this version that a table needs, copied.
fn needed_changes(
    alloc: Global,
    tables: &[Stored],
    version: u64,
    changes: &[Change],
) -> Result<List<Change>, Memory>
    ensures { IfOk result (λ made. made ≡ filter (change_stays tables.now version) changes.now) }
{
    let mut made = List::new(alloc);
    for change in changes {
        if is_change_needed(tables, version, change) {
            push(&mut made, change.copy(alloc)?)?;
        }
    }
    Ok(made)
}

/// A commit with the changes that a table needs, copied.
fn needed_commit(alloc: Global, tables: &[Stored], one: &Kept) -> Result<Kept, Memory>
    ensures { IfOk result (λ made. made ≡ trim_one tables.now one.now) }
{
    Ok(Kept {
        version: one.version,
        xdes: one.xdes,
        time: one.time,
        changes: needed_changes(alloc, tables, one.version, one.changes.as_slice())?,
    })
}

/// The commits that a table needs, with the changes that one needs, copied.
fn needed_commits(alloc: Global, tables: &[Stored], kept: &[&Kept]) -> Result<List<Kept>, Memory>
    ensures { IfOk result (λ made. made ≡ trim tables.now (lent kept.now)) }
{
    let mut made = List::new(alloc);
    for one in kept {
        if is_needed(tables, one) {
            push(&mut made, needed_commit(alloc, tables, one)?)?;
        }
    }
    Ok(made)
}

/// What counts of the commits that are stored, copied.
pub(crate) fn plain_commits(
    alloc: Global,
    tables: &[Stored],
    commits: &Commits,
) -> Result<List<Kept>, Memory>
    ensures { IfOk result (λ made. made ≡ trim tables.now commits.now.commits) }
{
    let kept = commits.since(0)?;
    needed_commits(alloc, tables, kept.as_slice())
}
