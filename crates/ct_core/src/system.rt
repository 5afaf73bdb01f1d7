ghost use Rattle.std.specs.Prelude.{◌≡◌, ◌++◌, map, IfOk, OnOk};
ghost use Rattle.std.specs.Option.{option_to_list};
ghost use Rattle.std.specs.List.{filter_map};
ghost use Rattle.ct_machine.specs.Reads.{shown_commit, shown_tracking};
ghost use Rattle.ct_core.specs.Rows.{shown_committed};

use ct_database::{Committed, Database};
use ct_expr::{counted, one_or_zero};
use ct_types::{Catalogued, List, Memory, Row};
use std::alloc::Global;

/// The row that sys.dm_tran_commit_table shows of a commit.
fn show_commit(alloc: Global, one: &Committed) -> Result<Row, Memory>
    ensures { IfOk result (λ made. made ≡ shown_committed one.now) }
{
    let mut values = List::new(alloc);
    values.push(counted(one.version))?;
    values.push(counted(one.xdes))?;
    values.push(counted(one.time))?;
    Ok(Row(values))
}

/// The rows that sys.dm_tran_commit_table shows of commits.
fn show_commits(alloc: Global, kept: &[Committed]) -> Result<List<Row>, Memory>
    ensures { IfOk result (λ made. made ≡ map shown_committed kept.now) }
{
    let mut made = List::new(alloc);
    for one in kept {
        made.push(show_commit(alloc, one)?)?;
    }
    Ok(made)
}

/// The rows of sys.dm_tran_commit_table.
#[tactic(auto, using(crate::proofs::Rows::told_commits))]
pub(crate) fn commit_rows(alloc: Global, db: &Database) -> Result<List<Row>, Memory>
    ensures { IfOk result (λ made. made ≡ map shown_commit db.now.kept) }
{
    let kept = db.kept(alloc)?;
    show_commits(alloc, kept.as_slice())
}

/// The row that sys.change_tracking_tables shows of a table, if it is tracked.
fn show_tracking(alloc: Global, table: &Catalogued) -> Result<Option<Row>, Memory>
    ensures { IfOk result (λ made. made ≡ shown_tracking table.now) }
{
    let Some(tracked) = table.tracked else {
        return Ok(None);
    };
    let mut values = List::new(alloc);
    values.push(counted(u64::from(table.schema.id)))?;
    values.push(one_or_zero(tracked.masks))?;
    values.push(counted(tracked.min))?;
    Ok(Some(Row(values)))
}

/// Adds the row that sys.change_tracking_tables shows of a table, if it is tracked.
fn push_tracking(alloc: Global, made: &mut List<Row>, table: &Catalogued) -> Result<(), Memory>
    ensures { OnOk result (made.new ≡ made.old ++ option_to_list (shown_tracking table.now)) }
{
    if let Some(row) = show_tracking(alloc, table)? {
        made.push(row)?;
    }
    Ok(())
}

/// The rows of sys.change_tracking_tables.
pub(crate) fn tracking_rows(alloc: Global, tables: &[Catalogued]) -> Result<List<Row>, Memory>
    ensures { IfOk result (λ made. made ≡ filter_map shown_tracking tables.now) }
{
    let mut made = List::new(alloc);
    for table in tables {
        push_tracking(alloc, &mut made, table)?;
    }
    Ok(made)
}
