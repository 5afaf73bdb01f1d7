ghost use Rattle.std.specs.Prelude.{◌≡◌, IfOk};
ghost use Rattle.ct_types.specs.Answers.{Gives, optional};
ghost use Rattle.ct_bind_expr.specs.Among.{among};
ghost use Rattle.ct_bind.specs.Binding as spec;
ghost use Rattle.ct_bind.specs.Limits.{HaveFewColumns, KeepsLimits};

use crate::hold::with_held;
use crate::queries::select;
use crate::sources::{optional_as, walked_as};
use crate::writes::write_of;
use ct_bind_definition::{alter_database, create, disable, enable};
use ct_bind_expr::{Binder, Place};
use ct_bind_kinds::{Kind, kind_of_type};
use ct_bind_names::{column_type, declared_variable, existing_table, is_declared};
use ct_types::{
    Bound, BoundExpr, Catalogued, Copies, Expr, Keep, List, ObjectName, Refusal, Stmt, Text,
    TypeName, Variables,
};
use std::alloc::Global;

fn kind_of_name(name: &TypeName) -> Kind
    ensures { result ≡ spec.kind_of_name name.now }
{
    match name {
        TypeName::Int | TypeName::BigInt => Kind::Number,
        TypeName::NVarChar(_) => Kind::Text,
        TypeName::VarBinary(_) => Kind::Bytes,
    }
}

#[tactic(auto, unfolding(crate::specs::Binding::truncate))]
fn truncate(binder: &Binder<'_>, name: &ObjectName) -> Result<Bound, Refusal>
    ensures { Gives (among binder.now spec.truncate name.now) result }
{
    let table = existing_table(binder.alloc, binder.tables, name)?;
    Ok(Bound::TruncateTable {
        table: table.schema.id,
    })
}

/// A value without a row, of this kind.
#[tactic(auto, unfolding(crate::specs::Binding::value_of, ct_bind_expr::specs::Versions::operand))]
fn value_of(binder: &Binder<'_>, kind: Kind, value: &Expr) -> Result<BoundExpr, Refusal>
    ensures { Gives (among binder.now spec.value_of kind value.now) result }
{
    let place = Place::row(binder.alloc, List::new(binder.alloc));
    walked_as(binder, kind, &place, value)
}

#[tactic(auto, unfolding(crate::specs::Binding::value_of, ct_bind_expr::specs::Versions::operand))]
fn optional_value(
    binder: &Binder<'_>,
    kind: Kind,
    value: &Option<Expr>,
) -> Result<Option<BoundExpr>, Refusal>
    ensures { Gives (optional (among binder.now spec.value_of kind) value.now) result }
{
    let place = Place::row(binder.alloc, List::new(binder.alloc));
    optional_as(binder, kind, &place, value)
}

#[tactic(auto, unfolding(crate::specs::Binding::set_variable))]
fn set_variable(binder: &Binder<'_>, name: &Text, value: &Expr) -> Result<Bound, Refusal>
    ensures { Gives (among binder.now spec.set_variable name.now value.now) result }
{
    let (variable, kind) = declared_variable(binder.alloc, binder.variables, name)?;
    let value = value_of(binder, kind_of_type(kind), value)?;
    Ok(Bound::SetVariable { variable, value })
}

#[tactic(auto, unfolding(crate::specs::Binding::declare))]
fn declare(
    binder: &Binder<'_>,
    name: &Text,
    kind: &TypeName,
    value: &Option<Expr>,
) -> Result<Bound, Refusal>
    ensures { Gives (among binder.now spec.declare name.now kind.now value.now) result }
{
    if is_declared(binder.variables, name) {
        return Err(Refusal::VariableExists {
            name: name.copy(binder.alloc)?,
        });
    }
    let value = optional_value(binder, kind_of_name(kind), value)?;
    let (kind, value) = with_held(column_type(kind), value)?;
    let (variable, value) = with_held(name.copy(binder.alloc), value)?;
    Ok(Bound::Declare {
        variable,
        kind,
        value,
    })
}

fn bind_stmt(binder: &Binder<'_>, keep: Option<Keep>, stmt: &Stmt) -> Result<Bound, Refusal>
    requires { HaveFewColumns binder.now.tables.now }
    ensures { Gives (among binder.now spec.binding_by keep stmt.now) result }
{
    let alloc = binder.alloc;
    let tables = binder.tables;
    match stmt {
        Stmt::AlterDatabase { name: _, option } => alter_database(alloc, tables, keep, option),
        Stmt::CreateTable {
            table,
            columns,
            key,
        } => create(alloc, tables, table, columns.as_slice(), key),
        Stmt::EnableTracking {
            table,
            columns_updated,
        } => enable(alloc, tables, keep, table, *columns_updated),
        Stmt::DisableTracking { table } => disable(alloc, tables, table),
        Stmt::TruncateTable { table } => truncate(binder, table),
        Stmt::Write { context, write } => Ok(Bound::Write(write_of(binder, context, write)?)),
        Stmt::Select(query) => Ok(Bound::Select(select(binder, query)?)),
        Stmt::Begin => Ok(Bound::Begin),
        Stmt::Commit => Ok(Bound::Commit),
        Stmt::Rollback => Ok(Bound::Rollback),
        Stmt::SetIsolation(level) => Ok(Bound::SetIsolation(*level)),
        Stmt::SetLockTimeout => Ok(Bound::SetLockTimeout),
        Stmt::SetVariable { variable, value } => set_variable(binder, variable, value),
        Stmt::Declare {
            variable,
            kind,
            value,
        } => declare(binder, variable, kind, value),
    }
}

/// What a statement means among these tables and variables, or the first refusal that a walk over it meets. The tables
/// have at most 64 columns each, as CREATE TABLE takes.
///
/// The walk goes through the statement's tables in the order of the text, then ON, the change's context, the items, the
/// SET list or VALUES, WHERE and ORDER BY. Of a definition it then tells what the catalogue and the settings refuse.
/// LANGUAGE.md names each refusal with its cause. Memory is the one answer that no clause states.
#[tactic(auto, unfolding(crate::specs::Binding::binding), using(crate::proofs::Limited::bound_keeps))]
pub fn bind(
    alloc: Global,
    stmt: &Stmt,
    tables: &[Catalogued],
    keep: Option<Keep>,
    names: &Variables,
) -> Result<Bound, Refusal>
    requires { HaveFewColumns tables.now }
    ensures value { Gives (spec.binding tables.now keep names.now.0 stmt.now) result }
    ensures limits { IfOk result KeepsLimits }
{
    let binder = Binder {
        alloc,
        tables,
        variables: names.0.as_slice(),
    };
    bind_stmt(&binder, keep, stmt)
}
