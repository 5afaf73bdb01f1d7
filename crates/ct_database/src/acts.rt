ghost use Rattle.std.specs.Prelude.{◌≡◌, IfOk, map, fold};
ghost use Rattle.ct_model.specs.Apply.{tracked_as, truncated, raised, with_min};
ghost use Rattle.ct_model.specs.Tables.{catalogued};

use ct_source::Stored;
use ct_types::{Catalogued, Copies, List, Memory, Min, Tracked, push};
use std::alloc::Global;

/// The tracking with another minimum, where there is one.
fn at_min(min: u64, tracked: Option<Tracked>) -> Option<Tracked>
    ensures { result ≡ with_min min tracked }
{
    tracked.map(|tracked| Tracked { min, ..tracked })
}

fn truncate_one(table: &mut Stored, id: u32, version: u64, draws: bool)
    ensures { table.new ≡ truncated id version draws table.old }
{
    if table.schema().id == id {
        table.clear();
        if draws {
            table.set_tracked(at_min(version, table.tracked()));
        }
    }
}

/// The tables, one of them without its rows and with this version as its minimum where the entry draws.
pub(crate) fn truncate(
    alloc: Global,
    tables: &[Stored],
    id: u32,
    version: u64,
    draws: bool,
) -> Result<Vec<Stored>, Memory>
    ensures { IfOk result (λ made. made.items ≡ map (truncated id version draws) tables.now) }
{
    let mut made = Vec::with_capacity(alloc, tables.len())?;
    for table in tables {
        let mut table = table.share()?;
        truncate_one(&mut table, id, version, draws);
        made.push(table)?;
    }
    Ok(made)
}

fn track_one(table: &mut Stored, id: u32, tracked: Option<Tracked>)
    ensures { table.new ≡ tracked_as id tracked table.old }
{
    if table.schema().id == id {
        table.set_tracked(tracked);
    }
}

/// The tables, one of them tracked in another way or no more.
pub(crate) fn track(
    alloc: Global,
    tables: &[Stored],
    id: u32,
    tracked: Option<Tracked>,
) -> Result<Vec<Stored>, Memory>
    ensures { IfOk result (λ made. made.items ≡ map (tracked_as id tracked) tables.now) }
{
    let mut made = Vec::with_capacity(alloc, tables.len())?;
    for table in tables {
        let mut table = table.share()?;
        track_one(&mut table, id, tracked);
        made.push(table)?;
    }
    Ok(made)
}

fn raise_one(table: &mut Stored, listed: Min)
    ensures { table.new ≡ raised listed table.old }
{
    if table.schema().id == listed.table {
        table.set_tracked(at_min(listed.min, table.tracked()));
    }
}

/// Gives a table the minima that are listed for it, in their order.
fn raise_each(table: &mut Stored, minima: &[Min])
    ensures { table.new ≡ fold (λ before listed. raised listed before) table.old minima.now }
{
    for listed in minima {
        raise_one(table, *listed);
    }
}

/// The tables with the listed minima.
pub(crate) fn raise(alloc: Global, tables: &[Stored], minima: &[Min]) -> Result<Vec<Stored>, Memory>
    ensures { IfOk result (λ made. made.items ≡ map (λ table. fold (λ before listed. raised listed before) table minima.now) tables.now) }
{
    let mut made = Vec::with_capacity(alloc, tables.len())?;
    for table in tables {
        let mut table = table.share()?;
        raise_each(&mut table, minima);
        made.push(table)?;
    }
    Ok(made)
}

/// The catalogue of tables.
pub(crate) fn list(alloc: Global, tables: &[Stored]) -> Result<List<Catalogued>, Memory>
    ensures { IfOk result (λ made. made ≡ map catalogued tables.now) }
{
    let mut made = List::new(alloc);
    for table in tables {
        let schema = table.schema().copy(alloc)?;
        push(
            &mut made,
            Catalogued {
                schema,
                tracked: table.tracked(),
            },
        )?;
    }
    Ok(made)
}
