//! ALTER TABLE, CREATE TABLE and TRUNCATE TABLE.

ghost use Rattle.std.specs.Prelude.{[], ◌∷◌};
ghost use Rattle.ct_parse_definition.specs.ReadDdl as spec;
ghost use Rattle.ct_grammar.specs.Reading.{Reads, option};
ghost use Rattle.ct_grammar.specs.declared.kind.Kind.TheVariants as k;

use crate::databases::database;
use crate::trees::{is_on, on_in, tracking_of};
use ct_grammar::{Cursor, Fault, Kind, NAMES, Turn, read_many, read_until, table_name};
use ct_parse_expr::{name_list, with_first};
use ct_types::{ColumnDef, ColumnRule, List, Stmt, Text, TypeName};
use std::alloc::Global;

const SWITCHES: &[Kind] = &[Kind::On, Kind::Off];

const RULES: &[Kind] = &[Kind::Null, Kind::Not, Kind::Constraint, Kind::Primary];

#[tactic(auto, unfolding(crate::specs::ReadDdl::columns_updated))]
fn columns_updated(tokens: &mut Cursor<'_>) -> Result<bool, Fault>
    ensures { Reads (spec.columns_updated tokens.old) result tokens.new }
{
    tokens.skip(Kind::With)?;
    tokens.skip(Kind::Open)?;
    tokens.skip(Kind::TrackColumnsUpdated)?;
    tokens.skip(Kind::Equal)?;
    let switch = tokens.kind(SWITCHES)?;
    tokens.skip(Kind::Close)?;
    Ok(is_on(switch))
}

fn maybe_columns_updated(tokens: &mut Cursor<'_>) -> Result<Option<bool>, Fault>
    ensures { Reads (option (k.With ∷ []) spec.columns_updated tokens.old) result tokens.new }
{
    if tokens.sees(&[Kind::With]) {
        Ok(Some(columns_updated(tokens)?))
    } else {
        Ok(None)
    }
}

#[tactic(auto, unfolding(crate::specs::ReadDdl::enabled))]
fn enabled(tokens: &mut Cursor<'_>) -> Result<Option<bool>, Fault>
    ensures { Reads (spec.enabled tokens.old) result tokens.new }
{
    tokens.skip(Kind::Enable)?;
    tokens.skip(Kind::ChangeTracking)?;
    let columns_updated = maybe_columns_updated(tokens)?;
    Ok(Some(on_in(columns_updated)))
}

#[tactic(auto, unfolding(crate::specs::ReadDdl::disabled))]
fn disabled(tokens: &mut Cursor<'_>) -> Result<Option<bool>, Fault>
    ensures { Reads (spec.disabled tokens.old) result tokens.new }
{
    tokens.skip(Kind::Disable)?;
    tokens.skip(Kind::ChangeTracking)?;
    Ok(None)
}

#[tactic(auto, unfolding(crate::specs::ReadDdl::enabled_or_not))]
fn enabled_or_not(tokens: &mut Cursor<'_>) -> Result<Option<bool>, Fault>
    ensures { Reads (spec.enabled_or_not tokens.old) result tokens.new }
{
    if tokens.sees(&[Kind::Enable]) {
        enabled(tokens)
    } else {
        disabled(tokens)
    }
}

#[tactic(auto, unfolding(crate::specs::ReadDdl::tracking))]
fn tracking(alloc: Global, tokens: &mut Cursor<'_>) -> Result<Stmt, Fault>
    ensures { Reads (spec.tracking tokens.old) result tokens.new }
{
    tokens.skip(Kind::Table)?;
    let table = table_name(alloc, tokens)?;
    let columns_updated = enabled_or_not(tokens)?;
    Ok(tracking_of(table, columns_updated))
}

#[tactic(auto, unfolding(crate::specs::ReadDdl::altered))]
fn altered(alloc: Global, tokens: &mut Cursor<'_>) -> Result<Stmt, Fault>
    ensures { Reads (spec.altered tokens.old) result tokens.new }
{
    if tokens.sees(&[Kind::Database]) {
        database(alloc, tokens)
    } else {
        tracking(alloc, tokens)
    }
}

/// ALTER DATABASE and ALTER TABLE.
#[tactic(auto, unfolding(crate::specs::ReadDdl::alter))]
pub fn alter(alloc: Global, tokens: &mut Cursor<'_>) -> Result<Stmt, Fault>
    ensures { Reads (spec.alter tokens.old) result tokens.new }
{
    tokens.skip(Kind::Alter)?;
    altered(alloc, tokens)
}

#[tactic(auto, unfolding(crate::specs::ReadDdl::size))]
fn size(alloc: Global, tokens: &mut Cursor<'_>) -> Result<Text, Fault>
    ensures { Reads (spec.size tokens.old) result tokens.new }
{
    tokens.skip(Kind::Open)?;
    let digits = tokens.number(alloc)?;
    tokens.skip(Kind::Close)?;
    Ok(digits)
}

#[tactic(auto, unfolding(crate::specs::ReadDdl::nvarchar))]
fn nvarchar(alloc: Global, tokens: &mut Cursor<'_>) -> Result<TypeName, Fault>
    ensures { Reads (spec.nvarchar tokens.old) result tokens.new }
{
    tokens.skip(Kind::NVarChar)?;
    Ok(TypeName::NVarChar(size(alloc, tokens)?))
}

#[tactic(auto, unfolding(crate::specs::ReadDdl::varbinary))]
fn varbinary(alloc: Global, tokens: &mut Cursor<'_>) -> Result<TypeName, Fault>
    ensures { Reads (spec.varbinary tokens.old) result tokens.new }
{
    tokens.skip(Kind::VarBinary)?;
    Ok(TypeName::VarBinary(size(alloc, tokens)?))
}

/// A type.
#[tactic(auto, unfolding(crate::specs::ReadDdl::type_name))]
pub fn type_name(alloc: Global, tokens: &mut Cursor<'_>) -> Result<TypeName, Fault>
    ensures { Reads (spec.type_name tokens.old) result tokens.new }
{
    if tokens.sees(&[Kind::Int]) {
        tokens.skip(Kind::Int)?;
        Ok(TypeName::Int)
    } else if tokens.sees(&[Kind::BigInt]) {
        tokens.skip(Kind::BigInt)?;
        Ok(TypeName::BigInt)
    } else if tokens.sees(&[Kind::NVarChar]) {
        nvarchar(alloc, tokens)
    } else {
        varbinary(alloc, tokens)
    }
}

#[tactic(auto, unfolding(crate::specs::ReadDdl::constraint))]
fn constraint(alloc: Global, tokens: &mut Cursor<'_>) -> Result<((), Text), Fault>
    ensures { Reads (spec.constraint tokens.old) result tokens.new }
{
    tokens.skip(Kind::Constraint)?;
    let name = tokens.name(alloc)?;
    Ok(((), name))
}

fn maybe_constraint(alloc: Global, tokens: &mut Cursor<'_>) -> Result<Option<((), Text)>, Fault>
    ensures { Reads (option (k.Constraint ∷ []) spec.constraint tokens.old) result tokens.new }
{
    if tokens.sees(&[Kind::Constraint]) {
        Ok(Some(constraint(alloc, tokens)?))
    } else {
        Ok(None)
    }
}

#[tactic(auto, unfolding(crate::specs::ReadDdl::primary_key))]
fn primary_key(alloc: Global, tokens: &mut Cursor<'_>) -> Result<(), Fault>
    ensures { Reads (spec.primary_key tokens.old) result tokens.new }
{
    maybe_constraint(alloc, tokens)?;
    tokens.skip(Kind::Primary)?;
    tokens.skip(Kind::Key)
}

#[tactic(auto, unfolding(crate::specs::ReadDdl::not_null))]
fn not_null(tokens: &mut Cursor<'_>) -> Result<ColumnRule, Fault>
    ensures { Reads (spec.not_null tokens.old) result tokens.new }
{
    tokens.skip(Kind::Not)?;
    tokens.skip(Kind::Null)?;
    Ok(ColumnRule::NotNull)
}

#[tactic(auto, unfolding(crate::specs::ReadDdl::column_rule))]
fn column_rule(alloc: Global, tokens: &mut Cursor<'_>) -> Result<ColumnRule, Fault>
    ensures { Reads (spec.column_rule tokens.old) result tokens.new }
{
    if tokens.sees(&[Kind::Null]) {
        tokens.skip(Kind::Null)?;
        Ok(ColumnRule::Null)
    } else if tokens.sees(&[Kind::Not]) {
        not_null(tokens)
    } else {
        primary_key(alloc, tokens)?;
        Ok(ColumnRule::PrimaryKey)
    }
}

#[tactic(auto, unfolding(crate::specs::ReadDdl::column_rules))]
fn column_rules(alloc: Global, tokens: &mut Cursor<'_>) -> Result<List<ColumnRule>, Fault>
    ensures { Reads (spec.column_rules tokens.old) result tokens.new }
{
    read_many(alloc, tokens, RULES, |tokens: &mut Cursor<'_>| {
        column_rule(alloc, tokens)
    })
}

#[tactic(auto, unfolding(crate::specs::ReadDdl::column))]
fn column_def(alloc: Global, tokens: &mut Cursor<'_>) -> Result<ColumnDef, Fault>
    ensures { Reads (spec.column tokens.old) result tokens.new }
{
    let name = tokens.name(alloc)?;
    let kind = type_name(alloc, tokens)?;
    let rules = column_rules(alloc, tokens)?;
    Ok(ColumnDef { name, kind, rules })
}

#[tactic(auto, unfolding(crate::specs::ReadDdl::table_key))]
fn table_key(alloc: Global, tokens: &mut Cursor<'_>) -> Result<List<Text>, Fault>
    ensures { Reads (spec.table_key tokens.old) result tokens.new }
{
    primary_key(alloc, tokens)?;
    name_list(alloc, tokens)
}

#[tactic(auto, unfolding(crate::specs::ReadDdl::column_or_key))]
fn column_or_key(
    alloc: Global,
    tokens: &mut Cursor<'_>,
) -> Result<Turn<ColumnDef, List<Text>>, Fault>
    ensures { Reads (spec.column_or_key tokens.old) result tokens.new }
{
    if tokens.sees(NAMES) {
        Ok(Turn::More(column_def(alloc, tokens)?))
    } else {
        Ok(Turn::Last(table_key(alloc, tokens)?))
    }
}

#[tactic(auto, unfolding(crate::specs::ReadDdl::table_part))]
fn table_part(alloc: Global, tokens: &mut Cursor<'_>) -> Result<Turn<ColumnDef, List<Text>>, Fault>
    ensures { Reads (spec.table_part tokens.old) result tokens.new }
{
    tokens.skip(Kind::Comma)?;
    column_or_key(alloc, tokens)
}

#[tactic(auto, unfolding(crate::specs::ReadDdl::table_parts))]
fn table_parts(
    alloc: Global,
    tokens: &mut Cursor<'_>,
) -> Result<(List<ColumnDef>, Option<List<Text>>), Fault>
    ensures { Reads (spec.table_parts tokens.old) result tokens.new }
{
    read_until(alloc, tokens, &[Kind::Comma], |tokens: &mut Cursor<'_>| {
        table_part(alloc, tokens)
    })
}

/// CREATE TABLE.
#[tactic(auto, unfolding(crate::specs::ReadDdl::create))]
pub fn create(alloc: Global, tokens: &mut Cursor<'_>) -> Result<Stmt, Fault>
    ensures { Reads (spec.create tokens.old) result tokens.new }
{
    tokens.skip(Kind::Create)?;
    tokens.skip(Kind::Table)?;
    let table = table_name(alloc, tokens)?;
    tokens.skip(Kind::Open)?;
    let first = column_def(alloc, tokens)?;
    let (more, key) = table_parts(alloc, tokens)?;
    tokens.skip(Kind::Close)?;
    Ok(Stmt::CreateTable {
        table,
        columns: with_first(first, more)?,
        key,
    })
}

/// TRUNCATE TABLE.
#[tactic(auto, unfolding(crate::specs::ReadDdl::truncate))]
pub fn truncate(alloc: Global, tokens: &mut Cursor<'_>) -> Result<Stmt, Fault>
    ensures { Reads (spec.truncate tokens.old) result tokens.new }
{
    tokens.skip(Kind::Truncate)?;
    tokens.skip(Kind::Table)?;
    Ok(Stmt::TruncateTable {
        table: table_name(alloc, tokens)?,
    })
}
