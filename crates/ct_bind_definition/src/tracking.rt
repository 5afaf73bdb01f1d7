ghost use Rattle.std.specs.Prelude.{◌≡◌, length, filter, is_some};
ghost use Rattle.ct_types.specs.Answers.{Gives};
ghost use Rattle.ct_bind_definition.specs.Definitions as spec;

use ct_bind_names::{existing_table, place_after, retention_of, table_name, tracked_table};
use ct_types::{
    Bound, Catalogued, DatabaseOption, Keep, ObjectName, Refusal, Retention, Text, TrackingOptions,
};
use std::alloc::Global;

/// What ENABLE CHANGE_TRACKING comes to.
#[tactic(auto, unfolding(crate::specs::Definitions::enable))]
pub fn enable(
    alloc: Global,
    tables: &[Catalogued],
    keep: Option<Keep>,
    name: &ObjectName,
    masks: bool,
) -> Result<Bound, Refusal>
    ensures { Gives (spec.enable tables.now keep name.now masks) result }
{
    let table = existing_table(alloc, tables, name)?;
    if table.tracked.is_some() {
        return Err(Refusal::AlreadyTracked {
            name: table_name(alloc, name)?,
        });
    }
    if keep.is_none() {
        return Err(Refusal::TrackingOff);
    }
    Ok(Bound::EnableTracking {
        table: table.schema.id,
        masks,
    })
}

/// What DISABLE CHANGE_TRACKING comes to.
#[tactic(auto, unfolding(crate::specs::Definitions::disable))]
pub fn disable(alloc: Global, tables: &[Catalogued], name: &ObjectName) -> Result<Bound, Refusal>
    ensures { Gives (spec.disable tables.now name.now) result }
{
    let table = tracked_table(alloc, tables, name)?;
    Ok(Bound::DisableTracking {
        table: table.schema.id,
    })
}

fn retention_or(old: u64, retention: &Option<Retention>) -> Result<u64, Refusal>
    ensures { result ≡ spec.retention_or old retention.now }
{
    match retention {
        None => Ok(old),
        Some(retention) => retention_of(retention),
    }
}

fn cleanup_or(old: bool, cleanup: Option<bool>) -> bool
    ensures { result ≡ spec.cleanup_or old cleanup }
{
    match cleanup {
        None => old,
        Some(auto) => auto,
    }
}

/// The settings, where options that are not written stay as they are.
#[tactic(auto, unfolding(crate::specs::Definitions::settings))]
fn settings(old: Keep, options: &TrackingOptions) -> Result<Keep, Refusal>
    ensures { result ≡ spec.settings old options.now }
{
    let retention = retention_or(old.retention, &options.retention)?;
    Ok(Keep {
        retention,
        auto: cleanup_or(old.auto, options.cleanup),
    })
}

#[tactic(auto, unfolding(crate::specs::Definitions::tracked_count))]
fn tracked_count(tables: &[Catalogued]) -> usize
    ensures { result ≡ spec.tracked_count tables.now }
{
    tables
        .iter()
        .filter(|table| table.tracked.is_some())
        .count()
}

fn switch_on(alloc: Global, keep: Option<Keep>, options: &TrackingOptions) -> Result<Bound, Refusal>
    ensures { Gives (spec.switch_on keep options.now) result }
{
    match keep {
        Some(_) => Err(Refusal::AlreadyTracked {
            name: Text::of(alloc, "database")?,
        }),
        None => {
            let defaults = Keep {
                retention: 172_800,
                auto: true,
            };
            let keep = settings(defaults, options)?;
            Ok(Bound::AlterDatabase(Some(keep)))
        }
    }
}

fn switch_off(tables: &[Catalogued], keep: Option<Keep>) -> Result<Bound, Refusal>
    ensures { Gives (spec.switch_off tables.now keep) result }
{
    match keep {
        None => Err(Refusal::TrackingOff),
        Some(_) => {
            let count = tracked_count(tables);
            if count == 0 {
                Ok(Bound::AlterDatabase(None))
            } else {
                Err(Refusal::TablesTracked {
                    count: place_after(0, count)?,
                })
            }
        }
    }
}

fn change(keep: Option<Keep>, options: &TrackingOptions) -> Result<Bound, Refusal>
    ensures { result ≡ spec.change keep options.now }
{
    match keep {
        None => Err(Refusal::TrackingOff),
        Some(keep) => {
            let keep = settings(keep, options)?;
            Ok(Bound::AlterDatabase(Some(keep)))
        }
    }
}

/// What ALTER DATABASE comes to.
#[tactic(auto, unfolding(crate::specs::Definitions::alter_database))]
pub fn alter_database(
    alloc: Global,
    tables: &[Catalogued],
    keep: Option<Keep>,
    option: &DatabaseOption,
) -> Result<Bound, Refusal>
    ensures { Gives (spec.alter_database tables.now keep option.now) result }
{
    match option {
        DatabaseOption::TrackingOn(options) => switch_on(alloc, keep, options),
        DatabaseOption::TrackingOff => switch_off(tables, keep),
        DatabaseOption::Tracking(options) => change(keep, options),
        DatabaseOption::AllowSnapshotIsolation => Ok(Bound::AcceptOption),
        DatabaseOption::ReadCommittedSnapshot => Ok(Bound::AcceptOption),
    }
}
