//! ALTER DATABASE.

ghost use Rattle.std.specs.Prelude.{[], ◌∷◌};
ghost use Rattle.ct_parse_definition.specs.ReadDdl as spec;
ghost use Rattle.ct_grammar.specs.Reading.{Reads, option};
ghost use Rattle.ct_grammar.specs.declared.kind.Kind.TheVariants as k;

use crate::trees::{is_on, options_in, unit_of};
use ct_grammar::{Cursor, Fault, Kind};
use ct_types::{DatabaseOption, Retention, Stmt, TrackingOptions};
use std::alloc::Global;

const SWITCHES: &[Kind] = &[Kind::On, Kind::Off];

const UNITS: &[Kind] = &[Kind::Days, Kind::Hours, Kind::Minutes];

#[tactic(auto, unfolding(crate::specs::ReadDdl::retention))]
fn retention(alloc: Global, tokens: &mut Cursor<'_>) -> Result<Retention, Fault>
    ensures { Reads (spec.retention tokens.old) result tokens.new }
{
    tokens.skip(Kind::ChangeRetention)?;
    tokens.skip(Kind::Equal)?;
    let amount = tokens.number(alloc)?;
    let unit = tokens.kind(UNITS)?;
    Ok(Retention {
        amount,
        unit: unit_of(unit),
    })
}

#[tactic(auto, unfolding(crate::specs::ReadDdl::cleanup))]
fn cleanup(tokens: &mut Cursor<'_>) -> Result<bool, Fault>
    ensures { Reads (spec.cleanup tokens.old) result tokens.new }
{
    tokens.skip(Kind::AutoCleanup)?;
    tokens.skip(Kind::Equal)?;
    let switch = tokens.kind(SWITCHES)?;
    Ok(is_on(switch))
}

#[tactic(auto, unfolding(crate::specs::ReadDdl::next_cleanup))]
fn next_cleanup(tokens: &mut Cursor<'_>) -> Result<bool, Fault>
    ensures { Reads (spec.next_cleanup tokens.old) result tokens.new }
{
    tokens.skip(Kind::Comma)?;
    cleanup(tokens)
}

#[tactic(auto, unfolding(crate::specs::ReadDdl::next_retention))]
fn next_retention(alloc: Global, tokens: &mut Cursor<'_>) -> Result<Retention, Fault>
    ensures { Reads (spec.next_retention tokens.old) result tokens.new }
{
    tokens.skip(Kind::Comma)?;
    retention(alloc, tokens)
}

fn maybe_cleanup(tokens: &mut Cursor<'_>) -> Result<Option<bool>, Fault>
    ensures { Reads (option (k.Comma ∷ []) spec.next_cleanup tokens.old) result tokens.new }
{
    if tokens.sees(&[Kind::Comma]) {
        Ok(Some(next_cleanup(tokens)?))
    } else {
        Ok(None)
    }
}

fn maybe_retention(alloc: Global, tokens: &mut Cursor<'_>) -> Result<Option<Retention>, Fault>
    ensures { Reads (option (k.Comma ∷ []) spec.next_retention tokens.old) result tokens.new }
{
    if tokens.sees(&[Kind::Comma]) {
        Ok(Some(next_retention(alloc, tokens)?))
    } else {
        Ok(None)
    }
}

#[tactic(auto, unfolding(crate::specs::ReadDdl::retention_first))]
fn retention_first(alloc: Global, tokens: &mut Cursor<'_>) -> Result<TrackingOptions, Fault>
    ensures { Reads (spec.retention_first tokens.old) result tokens.new }
{
    let retention = retention(alloc, tokens)?;
    let cleanup = maybe_cleanup(tokens)?;
    Ok(TrackingOptions {
        retention: Some(retention),
        cleanup,
    })
}

#[tactic(auto, unfolding(crate::specs::ReadDdl::cleanup_first))]
fn cleanup_first(alloc: Global, tokens: &mut Cursor<'_>) -> Result<TrackingOptions, Fault>
    ensures { Reads (spec.cleanup_first tokens.old) result tokens.new }
{
    let cleanup = cleanup(tokens)?;
    let retention = maybe_retention(alloc, tokens)?;
    Ok(TrackingOptions {
        retention,
        cleanup: Some(cleanup),
    })
}

#[tactic(auto, unfolding(crate::specs::ReadDdl::listed_options))]
fn listed_options(alloc: Global, tokens: &mut Cursor<'_>) -> Result<TrackingOptions, Fault>
    ensures { Reads (spec.listed_options tokens.old) result tokens.new }
{
    if tokens.sees(&[Kind::ChangeRetention]) {
        retention_first(alloc, tokens)
    } else {
        cleanup_first(alloc, tokens)
    }
}

#[tactic(auto, unfolding(crate::specs::ReadDdl::options))]
fn options(alloc: Global, tokens: &mut Cursor<'_>) -> Result<TrackingOptions, Fault>
    ensures { Reads (spec.options tokens.old) result tokens.new }
{
    tokens.skip(Kind::Open)?;
    let options = listed_options(alloc, tokens)?;
    tokens.skip(Kind::Close)?;
    Ok(options)
}

fn maybe_options(alloc: Global, tokens: &mut Cursor<'_>) -> Result<Option<TrackingOptions>, Fault>
    ensures { Reads (option (k.Open ∷ []) spec.options tokens.old) result tokens.new }
{
    if tokens.sees(&[Kind::Open]) {
        Ok(Some(options(alloc, tokens)?))
    } else {
        Ok(None)
    }
}

#[tactic(auto, unfolding(crate::specs::ReadDdl::switched_on))]
fn switched_on(alloc: Global, tokens: &mut Cursor<'_>) -> Result<DatabaseOption, Fault>
    ensures { Reads (spec.switched_on tokens.old) result tokens.new }
{
    tokens.skip(Kind::On)?;
    let options = maybe_options(alloc, tokens)?;
    Ok(DatabaseOption::TrackingOn(options_in(options)))
}

#[tactic(auto, unfolding(crate::specs::ReadDdl::switched))]
fn switched(alloc: Global, tokens: &mut Cursor<'_>) -> Result<DatabaseOption, Fault>
    ensures { Reads (spec.switched tokens.old) result tokens.new }
{
    if tokens.sees(&[Kind::On]) {
        switched_on(alloc, tokens)
    } else {
        tokens.skip(Kind::Off)?;
        Ok(DatabaseOption::TrackingOff)
    }
}

#[tactic(auto, unfolding(crate::specs::ReadDdl::equal_switched))]
fn equal_switched(alloc: Global, tokens: &mut Cursor<'_>) -> Result<DatabaseOption, Fault>
    ensures { Reads (spec.equal_switched tokens.old) result tokens.new }
{
    tokens.skip(Kind::Equal)?;
    switched(alloc, tokens)
}

#[tactic(auto, unfolding(crate::specs::ReadDdl::tracking_tail))]
fn tracking_tail(alloc: Global, tokens: &mut Cursor<'_>) -> Result<DatabaseOption, Fault>
    ensures { Reads (spec.tracking_tail tokens.old) result tokens.new }
{
    if tokens.sees(&[Kind::Equal]) {
        equal_switched(alloc, tokens)
    } else {
        Ok(DatabaseOption::Tracking(options(alloc, tokens)?))
    }
}

#[tactic(auto, unfolding(crate::specs::ReadDdl::tracking_option))]
fn tracking_option(alloc: Global, tokens: &mut Cursor<'_>) -> Result<DatabaseOption, Fault>
    ensures { Reads (spec.tracking_option tokens.old) result tokens.new }
{
    tokens.skip(Kind::ChangeTracking)?;
    tracking_tail(alloc, tokens)
}

#[tactic(auto, unfolding(crate::specs::ReadDdl::snapshot_option))]
fn snapshot_option(tokens: &mut Cursor<'_>) -> Result<DatabaseOption, Fault>
    ensures { Reads (spec.snapshot_option tokens.old) result tokens.new }
{
    tokens.skip(Kind::AllowSnapshotIsolation)?;
    tokens.skip(Kind::On)?;
    Ok(DatabaseOption::AllowSnapshotIsolation)
}

#[tactic(auto, unfolding(crate::specs::ReadDdl::read_option))]
fn read_option(tokens: &mut Cursor<'_>) -> Result<DatabaseOption, Fault>
    ensures { Reads (spec.read_option tokens.old) result tokens.new }
{
    tokens.skip(Kind::ReadCommittedSnapshot)?;
    tokens.skip(Kind::On)?;
    Ok(DatabaseOption::ReadCommittedSnapshot)
}

#[tactic(auto, unfolding(crate::specs::ReadDdl::database_option))]
fn database_option(alloc: Global, tokens: &mut Cursor<'_>) -> Result<DatabaseOption, Fault>
    ensures { Reads (spec.database_option tokens.old) result tokens.new }
{
    if tokens.sees(&[Kind::ChangeTracking]) {
        tracking_option(alloc, tokens)
    } else if tokens.sees(&[Kind::AllowSnapshotIsolation]) {
        snapshot_option(tokens)
    } else {
        read_option(tokens)
    }
}

/// ALTER DATABASE, from its second word on.
#[tactic(auto, unfolding(crate::specs::ReadDdl::database))]
pub fn database(alloc: Global, tokens: &mut Cursor<'_>) -> Result<Stmt, Fault>
    ensures { Reads (spec.database tokens.old) result tokens.new }
{
    tokens.skip(Kind::Database)?;
    let name = tokens.name(alloc)?;
    tokens.skip(Kind::Set)?;
    let option = database_option(alloc, tokens)?;
    Ok(Stmt::AlterDatabase { name, option })
}
