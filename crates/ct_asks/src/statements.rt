ghost use Rattle.std.specs.Prelude.{◌≡◌};
ghost use Rattle.std.specs.List.{list_any};
ghost use Rattle.ct_asks.specs.Asks as spec;

use crate::expressions::{expr_asks, one_asks};
use ct_types::{
    Command, Expr, FromClause, JoinClause, OrderItem, Select, SelectItem, SetColumn, Source, Stmt,
    WriteStmt,
};
use sqlite_items::Items;

/// Whether one stands in an expression that may be missing.
fn optional_asks(e: &Option<Expr>) -> bool
    ensures { result ≡ spec.optional_asks e.now }
{
    match e {
        None => false,
        Some(e) => expr_asks(e),
    }
}

/// Whether a source is one, or has one in it.
fn source_asks(source: &Source) -> bool
    ensures { result ≡ spec.source_asks source.now }
{
    match source {
        Source::Table(_) => false,
        Source::Changes { since, .. } => expr_asks(since),
        Source::Version(_) => true,
    }
}

/// The same of what stands after the first source.
fn join_asks(join: &Option<JoinClause>) -> bool
    ensures { result ≡ spec.join_asks join.now }
{
    match join {
        None => false,
        Some(
            JoinClause::On {
                source,
                condition,
                ..
            },
        ) => source_asks(source) || expr_asks(condition),
        Some(JoinClause::Apply(_)) => true,
    }
}

/// The same of FROM.
fn from_asks(from: &Option<FromClause>) -> bool
    ensures { result ≡ spec.from_asks from.now }
{
    match from {
        None => false,
        Some(from) => source_asks(&from.source) || join_asks(&from.join),
    }
}

/// The same of what a SELECT shows.
fn item_asks(item: &SelectItem) -> bool
    ensures { result ≡ spec.item_asks item.now }
{
    match item {
        SelectItem::All | SelectItem::AllOf(_) => false,
        SelectItem::One { value, .. } => expr_asks(value),
    }
}

/// The same of what a SELECT shows in all.
fn items_ask(items: &[SelectItem]) -> bool
    ensures { result ≡ list_any spec.item_asks items.now }
{
    items.iter().any(|item| item_asks(item))
}

/// The same of ORDER BY.
fn order_asks(order: &[OrderItem]) -> bool
    ensures { result ≡ list_any (λ it. spec.asks it.value) order.now }
{
    order.iter().any(|item| expr_asks(&item.value))
}

/// The same of a SELECT.
fn select_asks(query: &Select) -> bool
    ensures { result ≡ spec.select_asks query.now }
{
    from_asks(&query.from)
        || items_ask(query.items.as_slice())
        || optional_asks(&query.condition)
        || order_asks(query.order.as_slice())
}

/// The same of the rows of values of an INSERT.
fn tuples_ask(tuples: &[Items<Expr>]) -> bool
    ensures { result ≡ list_any (list_any spec.asks) tuples.now }
{
    tuples.iter().any(|tuple| one_asks(tuple.as_slice()))
}

/// The same of the SET list of an UPDATE.
fn sets_ask(sets: &[SetColumn]) -> bool
    ensures { result ≡ list_any (λ set. spec.asks set.value) sets.now }
{
    sets.iter().any(|set| expr_asks(&set.value))
}

/// The same of INSERT, UPDATE and DELETE.
fn write_asks(write: &WriteStmt) -> bool
    ensures { result ≡ spec.write_asks write.now }
{
    match write {
        WriteStmt::Insert { tuples, .. } => tuples_ask(tuples.as_slice()),
        WriteStmt::Update {
            sets,
            condition,
            ..
        } => sets_ask(sets.as_slice()) || optional_asks(condition),
        WriteStmt::Delete { condition, .. } => optional_asks(condition),
    }
}

/// The same of a sentence of the language.
fn statement_asks(statement: &Stmt) -> bool
    ensures { result ≡ spec.statement_asks statement.now }
{
    match statement {
        Stmt::Write { context, write } => optional_asks(context) || write_asks(write),
        Stmt::Select(query) => select_asks(query),
        Stmt::SetVariable { value, .. } => expr_asks(value),
        Stmt::Declare { value, .. } => optional_asks(value),
        Stmt::AlterDatabase { .. }
        | Stmt::CreateTable { .. }
        | Stmt::EnableTracking { .. }
        | Stmt::DisableTracking { .. }
        | Stmt::TruncateTable { .. }
        | Stmt::Begin
        | Stmt::Commit
        | Stmt::Rollback
        | Stmt::SetIsolation(_)
        | Stmt::SetLockTimeout => false,
    }
}

/// Whether a CHANGETABLE(VERSION ..) stands in a statement, as a source or in a SELECT in brackets: whoever runs it then asks
/// for the versions of rows by their keys. Nothing but a sentence has one. Each part of the statement is looked at once at most.
/// That versions may be noted before such a statement runs is this project's own.
pub fn asks_versions(what: &Command) -> bool
    ensures { result ≡ spec.asks_versions what.now }
{
    match what {
        Command::Sql(statement) => statement_asks(statement),
        _ => false,
    }
}
