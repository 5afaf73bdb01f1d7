ghost use Rattle.std.specs.Prelude.{◌≡◌, ◌≢◌, ◌++◌, ◌∷◌, [], codes, false, IfOk, MatchResult};
ghost use Rattle.std.specs.List.{list_any};
ghost use Rattle.ct_types.specs.declared.bound.Join.TheVariants.{Apply};
ghost use Rattle.ct_types.specs.declared.refusal.Refusal.TheVariants.{Memory as no_memory};
ghost use Rattle.ct_types.specs.Answers.{Gives, optional};
ghost use Rattle.ct_bind_names.specs.Names.{same};
ghost use Rattle.ct_bind_kinds.specs.declared.kind.Kind.TheVariants.{Number, Bytes};
ghost use Rattle.ct_bind_expr.specs.Among.{among};
ghost use Rattle.ct_bind_expr.specs.Places.{closed, row_of};
ghost use Rattle.ct_bind_expr.specs.Versions.{operand, key_columns as key_of};
ghost use Rattle.ct_bind_expr.specs.Walk.{walk};
ghost use Rattle.ct_bind.specs.Sources as spec;

use crate::hold::with_held;
use ct_bind_expr::{Binder, Place, Shape, Shown, key_columns, of_kind};
use ct_bind_kinds::{Kind, kind_of_type};
use ct_bind_names::{
    SystemTable, existing_table, last_part, same_name, system_table, table_name, tracked_table,
};
use ct_types::{
    BoundExpr, BoundSource, Column, Copies, Expr, FromClause, Join, JoinClause, JoinKind, List,
    Memory, ObjectName, Refusal, Schema, Source, TableSource, Text, VersionSource, push,
};
use std::alloc::Global;
use std::slice::from_ref;

/// A source with what names see of it.
#[derive(Drop)]
pub(crate) struct Sourced {
    pub(crate) source: BoundSource,
    pub(crate) shape: Shape,
}

/// What FROM comes to.
#[derive(Drop)]
pub(crate) struct Joined {
    pub(crate) left: Option<BoundSource>,
    pub(crate) right: Option<BoundSource>,
    pub(crate) join: Join,
    pub(crate) on: Option<BoundExpr>,
    /// The sources that are there, the left one first.
    pub(crate) shapes: List<Shape>,
}

fn push_shown(alloc: Global, made: &mut List<Shown>, name: &str, kind: Kind) -> Result<(), Memory>
    ensures { IfOk result (λ _. made.new ≡ made.old ++ spec.shown name.now kind ∷ []) }
{
    let name = Text::of(alloc, name)?;
    push(made, Shown { name, kind })
}

/// Adds the columns of a table, as they are defined.
#[tactic(auto, unfolding(crate::specs::Sources::shown_columns))]
pub(crate) fn push_columns(
    alloc: Global,
    made: &mut List<Shown>,
    columns: &[Column],
) -> Result<(), Memory>
    ensures { IfOk result (λ _. made.new ≡ made.old ++ spec.shown_columns columns.now) }
{
    for column in columns {
        push_shown(alloc, made, column.name.as_str(), kind_of_type(column.kind))?;
    }
    Ok(())
}

/// Three columns of numbers.
fn three_numbers(
    alloc: Global,
    first: &str,
    second: &str,
    third: &str,
) -> Result<List<Shown>, Memory>
    ensures { IfOk result (λ made. made ≡ spec.shown first.now Number ∷ spec.shown second.now Number ∷ spec.shown third.now Number ∷ []) }
{
    let mut made = List::new(alloc);
    push_shown(alloc, &mut made, first, Kind::Number)?;
    push_shown(alloc, &mut made, second, Kind::Number)?;
    push_shown(alloc, &mut made, third, Kind::Number)?;
    Ok(made)
}

#[tactic(auto, unfolding(crate::specs::Sources::system_columns))]
fn system_columns(alloc: Global, table: SystemTable) -> Result<List<Shown>, Memory>
    ensures { IfOk result (λ made. made ≡ spec.system_columns table) }
{
    match table {
        SystemTable::Commits => three_numbers(alloc, "commit_ts", "xdes_id", "commit_time"),
        SystemTable::Tracking => three_numbers(
            alloc,
            "object_id",
            "is_track_columns_updated_on",
            "min_valid_version",
        ),
    }
}

fn system_source(table: SystemTable) -> BoundSource
    ensures { result ≡ spec.system_source table }
{
    match table {
        SystemTable::Commits => BoundSource::CommitTable,
        SystemTable::Tracking => BoundSource::TrackingTables,
    }
}

/// The name of a source: its alias, or the last part of its table's name.
#[tactic(auto, unfolding(crate::specs::Sources::source_name))]
pub(crate) fn source_name(from: &TableSource) -> &Text
    ensures { result.now ≡ spec.source_name from.now }
{
    match &from.alias {
        Some(alias) => alias,
        None => last_part(&from.table),
    }
}

fn has_source(before: &[Shape], name: &Text) -> bool
    ensures { result ≡ list_any (λ source. same source.name name.now) before.now }
{
    for source in before {
        if same_name(source.name.as_str(), name.as_str()) {
            return true;
        }
    }
    false
}

/// Ambiguous where a source before has the name.
#[tactic(auto, unfolding(crate::specs::Sources::unique))]
fn unique(alloc: Global, before: &[Shape], name: &Text) -> Result<(), Refusal>
    ensures { Gives (spec.unique before.now name.now) result }
{
    if has_source(before, name) {
        Err(Refusal::Ambiguous {
            name: name.copy(alloc)?,
        })
    } else {
        Ok(())
    }
}

/// A source of this name, which shows these columns.
fn named_shape(alloc: Global, name: &Text, columns: List<Shown>) -> Result<Shape, Memory>
    ensures { IfOk result (λ made. made ≡ spec.shape name.now columns) }
{
    let (name, columns) = with_held(name.copy(alloc), columns)?;
    Ok(Shape { name, columns })
}

/// Adds the columns with which both forms of CHANGETABLE end: the context, and the key.
fn push_context_and_key(alloc: Global, made: &mut List<Shown>, table: &Schema) -> Result<(), Memory>
    ensures { IfOk result (λ _. made.new ≡ (made.old ++ spec.shown (codes "SYS_CHANGE_CONTEXT") Bytes ∷ []) ++ spec.shown_columns (key_of table.now)) }
{
    push_shown(alloc, made, "SYS_CHANGE_CONTEXT", Kind::Bytes)?;
    let key = key_columns(alloc, table)?;
    push_columns(alloc, made, key.as_slice())?;
    Ok(())
}

/// The row of CHANGETABLE(CHANGES ..).
#[tactic(auto, unfolding(crate::specs::Sources::changes_columns))]
fn changes_shape(alloc: Global, alias: &Text, table: &Schema) -> Result<Shape, Memory>
    ensures { IfOk result (λ made. made ≡ spec.shape alias.now (spec.changes_columns table.now)) }
{
    let mut columns = List::new(alloc);
    push_shown(alloc, &mut columns, "SYS_CHANGE_VERSION", Kind::Number)?;
    push_shown(
        alloc,
        &mut columns,
        "SYS_CHANGE_CREATION_VERSION",
        Kind::Number,
    )?;
    push_shown(alloc, &mut columns, "SYS_CHANGE_OPERATION", Kind::Text)?;
    push_shown(alloc, &mut columns, "SYS_CHANGE_COLUMNS", Kind::Bytes)?;
    push_context_and_key(alloc, &mut columns, table)?;
    named_shape(alloc, alias, columns)
}

/// The row of CHANGETABLE(VERSION ..).
#[tactic(auto, unfolding(crate::specs::Sources::version_columns))]
fn version_shape(alloc: Global, alias: &Text, table: &Schema) -> Result<Shape, Memory>
    ensures { IfOk result (λ made. made ≡ spec.shape alias.now (spec.version_columns table.now)) }
{
    let mut columns = List::new(alloc);
    push_shown(alloc, &mut columns, "SYS_CHANGE_VERSION", Kind::Number)?;
    push_context_and_key(alloc, &mut columns, table)?;
    named_shape(alloc, alias, columns)
}

/// A system table, which stands alone: 208 where it has another source beside it.
#[tactic(auto, unfolding(crate::specs::Sources::system_sourced))]
fn system_sourced(
    alloc: Global,
    is_alone: bool,
    table: SystemTable,
    from: &TableSource,
) -> Result<Sourced, Refusal>
    ensures { Gives (spec.system_sourced is_alone table from.now) result }
{
    if !is_alone {
        return Err(Refusal::NoObject {
            name: table_name(alloc, &from.table)?,
        });
    }
    let columns = system_columns(alloc, table)?;
    let shape = named_shape(alloc, source_name(from), columns)?;
    Ok(Sourced {
        source: system_source(table),
        shape,
    })
}

/// The row of a table under this name.
pub(crate) fn table_shape(alloc: Global, name: &Text, table: &Schema) -> Result<Shape, Memory>
    ensures { IfOk result (λ made. made ≡ spec.shape name.now (spec.shown_columns table.now.columns)) }
{
    let mut columns = List::new(alloc);
    push_columns(alloc, &mut columns, table.columns.as_slice())?;
    named_shape(alloc, name, columns)
}

#[tactic(auto, unfolding(crate::specs::Sources::plain_sourced))]
fn plain_sourced(
    binder: &Binder<'_>,
    before: &[Shape],
    from: &TableSource,
) -> Result<Sourced, Refusal>
    ensures { Gives (spec.plain_sourced binder.now.tables.now before.now from.now) result }
{
    let alloc = binder.alloc;
    let table = existing_table(alloc, binder.tables, &from.table)?;
    let name = source_name(from);
    unique(alloc, before, name)?;
    let shape = table_shape(alloc, name, &table.schema)?;
    Ok(Sourced {
        source: BoundSource::Table(table.schema.id),
        shape,
    })
}

#[tactic(auto, unfolding(crate::specs::Sources::table_source))]
fn table_source(
    binder: &Binder<'_>,
    is_alone: bool,
    before: &[Shape],
    from: &TableSource,
) -> Result<Sourced, Refusal>
    ensures { Gives (spec.table_source binder.now.tables.now is_alone before.now from.now) result }
{
    let name = table_name(binder.alloc, &from.table)?;
    match system_table(&name) {
        Some(table) => system_sourced(binder.alloc, is_alone, table, from),
        None => plain_sourced(binder, before, from),
    }
}

/// An expression at a place, where it may stand for one of this kind.
#[tactic(auto, unfolding(ct_bind_expr::specs::Versions::operand))]
pub(crate) fn walked_as(
    binder: &Binder<'_>,
    kind: Kind,
    place: &Place,
    e: &Expr,
) -> Result<BoundExpr, Refusal>
    ensures { Gives (operand kind place.now (among binder.now walk e.now)) result }
{
    let it = binder.walk(place, e)?;
    of_kind(kind, it)
}

/// The same of an expression that need not be written.
pub(crate) fn optional_as(
    binder: &Binder<'_>,
    kind: Kind,
    place: &Place,
    e: &Option<Expr>,
) -> Result<Option<BoundExpr>, Refusal>
    ensures { Gives (optional (λ e. operand kind place.now (among binder.now walk e)) e.now) result }
{
    match e {
        None => Ok(None),
        Some(e) => Ok(Some(walked_as(binder, kind, place, e)?)),
    }
}

/// A condition at a place.
#[tactic(auto, unfolding(crate::specs::Sources::condition, ct_bind_expr::specs::Versions::operand))]
fn condition(binder: &Binder<'_>, place: &Place, e: &Expr) -> Result<BoundExpr, Refusal>
    ensures { Gives (among binder.now spec.condition place.now e.now) result }
{
    walked_as(binder, Kind::Condition, place, e)
}

/// The same, where no column may be named.
fn walked_closed(binder: &Binder<'_>, kind: Kind, e: &Expr) -> Result<BoundExpr, Refusal>
    ensures { Gives (operand kind closed (among binder.now walk e.now)) result }
{
    walked_as(binder, kind, &Place::closed(binder.alloc), e)
}

#[tactic(auto, unfolding(crate::specs::Sources::changes_source, ct_bind_expr::specs::Versions::operand))]
fn changes_source(
    binder: &Binder<'_>,
    before: &[Shape],
    name: &ObjectName,
    since: &Expr,
    alias: &Text,
) -> Result<Sourced, Refusal>
    ensures { Gives (among binder.now spec.changes_source before.now name.now since.now alias.now) result }
{
    let alloc = binder.alloc;
    let table = tracked_table(alloc, binder.tables, name)?;
    unique(alloc, before, alias)?;
    let since = walked_closed(binder, Kind::Number, since)?;
    let (shape, since) = with_held(changes_shape(alloc, alias, &table.schema), since)?;
    Ok(Sourced {
        source: BoundSource::Changes {
            table: table.schema.id,
            since,
        },
        shape,
    })
}

#[tactic(auto, unfolding(crate::specs::Sources::version_source))]
fn version_source(
    binder: &Binder<'_>,
    before: &[Shape],
    place: &Place,
    from: &VersionSource,
) -> Result<Sourced, Refusal>
    ensures { Gives (among binder.now spec.version_source before.now place.now from.now) result }
{
    let alloc = binder.alloc;
    let table = tracked_table(alloc, binder.tables, &from.version.table)?;
    unique(alloc, before, &from.alias)?;
    let version = binder.version_of(
        place,
        &table.schema,
        from.version.columns.as_slice(),
        from.version.values.as_slice(),
    )?;
    let shape = version_shape(alloc, &from.alias, &table.schema);
    let (shape, version) = with_held(shape, version)?;
    Ok(Sourced {
        source: BoundSource::Version(version),
        shape,
    })
}

#[tactic(auto, unfolding(crate::specs::Sources::one_source))]
fn one_source(
    binder: &Binder<'_>,
    is_alone: bool,
    before: &[Shape],
    source: &Source,
) -> Result<Sourced, Refusal>
    ensures { Gives (among binder.now spec.one_source is_alone before.now source.now) result }
{
    match source {
        Source::Table(from) => table_source(binder, is_alone, before, from),
        Source::Changes {
            table,
            since,
            alias,
        } => changes_source(binder, before, table, since, alias),
        Source::Version(from) => {
            version_source(binder, before, &Place::closed(binder.alloc), from)
        }
    }
}

fn join_of(kind: JoinKind) -> Join
    ensures { result ≡ spec.join_of kind }
{
    match kind {
        JoinKind::Inner => Join::Inner,
        JoinKind::Left => Join::Left,
        JoinKind::Right => Join::Right,
    }
}

/// One source.
pub(crate) fn one_shape(alloc: Global, shape: Shape) -> Result<List<Shape>, Memory>
    ensures { IfOk result (λ made. made ≡ shape ∷ []) }
{
    let mut made = List::new(alloc);
    push(&mut made, shape)?;
    Ok(made)
}

/// These sources, and one more.
fn longer(sources: List<Shape>, shape: Shape) -> Result<List<Shape>, Memory>
    ensures { IfOk result (λ made. made ≡ sources ++ shape ∷ []) }
{
    let mut made = sources;
    push(&mut made, shape)?;
    Ok(made)
}

/// Two sources.
fn two_shapes(alloc: Global, first: Shape, second: Shape) -> Result<List<Shape>, Memory>
    ensures { IfOk result (λ made. made ≡ first ∷ second ∷ []) }
{
    let (made, second) = with_held(one_shape(alloc, first), second)?;
    longer(made, second)
}

/// A condition that sees two sources, and what it sees.
fn on_row(
    binder: &Binder<'_>,
    first: Shape,
    second: Shape,
    on: &Expr,
) -> Result<(BoundExpr, List<Shape>), Refusal>
    ensures { MatchResult result
        (λ made. (among binder.now spec.condition (row_of (first ∷ second ∷ [])) on.now ≡ Ok made.0) × (made.1 ≡ first ∷ second ∷ []))
        (λ refusal. refusal ≢ no_memory → among binder.now spec.condition (row_of (first ∷ second ∷ [])) on.now ≡ Err refusal) }
{
    let shapes = two_shapes(binder.alloc, first, second)?;
    let place = Place::row(binder.alloc, shapes);
    let (on, place) = with_held(condition(binder, &place, on), place)?;
    Ok((on, place.sources))
}

/// Two sources, joined on a condition that sees both.
fn joined_pair(
    binder: &Binder<'_>,
    first: Sourced,
    kind: JoinKind,
    second: Sourced,
    on: &Expr,
) -> Result<Joined, Refusal>
    ensures { Gives (among binder.now spec.joined_pair first.source (first.shape ∷ []) kind second on.now) result }
{
    let on = on_row(binder, first.shape, second.shape, on);
    let held = (first.source, second.source);
    let ((on, shapes), (left, right)) = with_held(on, held)?;
    Ok(Joined {
        left: Some(left),
        right: Some(right),
        join: join_of(kind),
        on: Some(on),
        shapes,
    })
}

#[tactic(auto, unfolding(crate::specs::Sources::joined_on))]
fn joined_on(
    binder: &Binder<'_>,
    first: Sourced,
    kind: JoinKind,
    other: &Source,
    on: &Expr,
) -> Result<Joined, Refusal>
    ensures { Gives (among binder.now spec.joined_on first kind other.now on.now) result }
{
    let second = one_source(binder, false, from_ref(&first.shape), other);
    let (second, first) = with_held(second, first)?;
    joined_pair(binder, first, kind, second, on)
}

/// The row of the first source, and the version that stands behind it, whose tuple sees that row.
fn version_behind(
    binder: &Binder<'_>,
    first: Shape,
    other: &VersionSource,
) -> Result<(List<Shape>, Sourced), Refusal>
    ensures { MatchResult result
        (λ made. (made.0 ≡ first ∷ []) × (among binder.now spec.version_source (first ∷ []) (row_of (first ∷ [])) other.now ≡ Ok made.1))
        (λ refusal. refusal ≢ no_memory → among binder.now spec.version_source (first ∷ []) (row_of (first ∷ [])) other.now ≡ Err refusal) }
{
    let place = Place::row(binder.alloc, one_shape(binder.alloc, first)?);
    let second = version_source(binder, place.sources.as_slice(), &place, other);
    let (second, place) = with_held(second, place)?;
    Ok((place.sources, second))
}

/// Two sources, the second one applied to each row of the first.
fn applied_pair(
    alloc: Global,
    left: BoundSource,
    sources: List<Shape>,
    second: Sourced,
) -> Result<Joined, Memory>
    ensures { IfOk result (λ made. made ≡ record { left = Some left; right = Some second.source; join = Apply; on = None; shapes = sources ++ second.shape ∷ [] }) }
{
    let Sourced {
        source: right,
        shape,
    } = second;
    let (shapes, (left, right)) = with_held(longer(sources, shape), (left, right))?;
    Ok(Joined {
        left: Some(left),
        right: Some(right),
        join: Join::Apply,
        on: None,
        shapes,
    })
}

#[tactic(auto, unfolding(crate::specs::Sources::applied))]
fn applied(binder: &Binder<'_>, first: Sourced, other: &VersionSource) -> Result<Joined, Refusal>
    ensures { Gives (among binder.now spec.applied first other.now) result }
{
    let Sourced {
        source: left,
        shape,
    } = first;
    let second = version_behind(binder, shape, other);
    let ((sources, second), left) = with_held(second, left)?;
    Ok(applied_pair(binder.alloc, left, sources, second)?)
}

/// A source that stands alone.
fn alone(alloc: Global, first: Sourced) -> Result<Joined, Memory>
    ensures { IfOk result (λ made. made ≡ spec.alone first) }
{
    let Sourced { source, shape } = first;
    let (shapes, source) = with_held(one_shape(alloc, shape), source)?;
    Ok(Joined {
        left: Some(source),
        right: None,
        join: Join::One,
        on: None,
        shapes,
    })
}

/// The first source, joined with a second one.
fn joined_with(binder: &Binder<'_>, first: Sourced, join: &JoinClause) -> Result<Joined, Refusal>
    ensures { Gives (among binder.now spec.joined_with first join.now) result }
{
    match join {
        JoinClause::On {
            kind,
            source,
            condition,
        } => joined_on(binder, first, *kind, source, condition),
        JoinClause::Apply(other) => applied(binder, first, other),
    }
}

/// What FROM comes to.
#[tactic(auto, unfolding(crate::specs::Sources::joined))]
pub(crate) fn join_sources(binder: &Binder<'_>, from: &FromClause) -> Result<Joined, Refusal>
    ensures { Gives (among binder.now spec.joined from.now) result }
{
    match &from.join {
        None => {
            let first = one_source(binder, true, &[], &from.source)?;
            Ok(alone(binder.alloc, first)?)
        }
        Some(join) => {
            let first = one_source(binder, false, &[], &from.source)?;
            joined_with(binder, first, join)
        }
    }
}
