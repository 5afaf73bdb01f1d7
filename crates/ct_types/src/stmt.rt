use crate::{Expr, List, ObjectName, RowVersion, Text};
use sqlite_items::Items;

/// A statement as it is written, with names free of their brackets.
#[derive(Debug, Drop)]
pub enum Stmt {
    /// `ALTER DATABASE name SET option`
    AlterDatabase {
        name: Text,
        option: DatabaseOption,
    },
    CreateTable {
        table: ObjectName,
        columns: List<ColumnDef>,
        /// The columns of a PRIMARY KEY that stands after the columns.
        key: Option<List<Text>>,
    },
    EnableTracking {
        table: ObjectName,
        /// TRACK_COLUMNS_UPDATED, which is off where it is not written.
        columns_updated: bool,
    },
    DisableTracking {
        table: ObjectName,
    },
    TruncateTable {
        table: ObjectName,
    },
    Write {
        /// `WITH CHANGE_TRACKING_CONTEXT (context)`
        context: Option<Expr>,
        write: WriteStmt,
    },
    Select(Select),
    Begin,
    Commit,
    Rollback,
    /// `SET TRANSACTION ISOLATION LEVEL level`
    SetIsolation(Isolation),
    /// `SET LOCK_TIMEOUT 0`, the one limit that is taken.
    SetLockTimeout,
    /// `SET variable = value`, with the `@` of the variable's name.
    SetVariable {
        variable: Text,
        value: Expr,
    },
    /// `DECLARE variable kind = value`, with the `@` of the variable's name.
    Declare {
        variable: Text,
        kind: TypeName,
        value: Option<Expr>,
    },
}

/// What ALTER DATABASE sets.
#[derive(Debug, Drop)]
pub enum DatabaseOption {
    /// `CHANGE_TRACKING = ON`, where an option that is missing takes its default.
    TrackingOn(TrackingOptions),
    /// `CHANGE_TRACKING = OFF`
    TrackingOff,
    /// `CHANGE_TRACKING (options)`, where an option that is missing stays as it is.
    Tracking(TrackingOptions),
    /// `ALLOW_SNAPSHOT_ISOLATION ON`
    AllowSnapshotIsolation,
    /// `READ_COMMITTED_SNAPSHOT ON`
    ReadCommittedSnapshot,
}

/// The options of a database's tracking, as far as they are written.
#[derive(Debug, Drop)]
pub struct TrackingOptions {
    pub retention: Option<Retention>,
    pub cleanup: Option<bool>,
}

/// `CHANGE_RETENTION = amount unit`
#[derive(Debug, Drop)]
pub struct Retention {
    /// The digits as they are written.
    pub amount: Text,
    pub unit: TimeUnit,
}

/// A unit of a retention.
#[derive(Clone, Copy, Debug, PartialEq, Eq)]
pub enum TimeUnit {
    Days,
    Hours,
    Minutes,
}

/// A column of CREATE TABLE.
#[derive(Debug, Drop)]
pub struct ColumnDef {
    pub name: Text,
    pub kind: TypeName,
    /// What is written after the type, in that order.
    pub rules: List<ColumnRule>,
}

/// A type as it is written, with the digits of its length.
#[derive(Debug, Drop)]
pub enum TypeName {
    Int,
    BigInt,
    NVarChar(Text),
    VarBinary(Text),
}

/// What is written after a column's type.
#[derive(Clone, Copy, Debug, PartialEq, Eq)]
pub enum ColumnRule {
    Null,
    NotNull,
    PrimaryKey,
}

/// A statement that changes rows.
#[derive(Debug, Drop)]
pub enum WriteStmt {
    Insert {
        table: ObjectName,
        /// The list of columns, where it is written.
        columns: Option<List<Text>>,
        /// One or more rows of values.
        tuples: List<Items<Expr>>,
    },
    Update {
        table: ObjectName,
        sets: List<SetColumn>,
        from: Option<TableSource>,
        condition: Option<Expr>,
    },
    Delete {
        table: ObjectName,
        condition: Option<Expr>,
    },
}

/// `column = value` of an UPDATE.
#[derive(Debug, Drop)]
pub struct SetColumn {
    pub column: Text,
    pub value: Expr,
}

/// A table in FROM.
#[derive(Debug, Drop)]
pub struct TableSource {
    pub table: ObjectName,
    pub alias: Option<Text>,
}

/// A SELECT.
#[derive(Debug, Drop)]
pub struct Select {
    pub items: List<SelectItem>,
    pub from: Option<FromClause>,
    pub condition: Option<Expr>,
    /// ORDER BY, which is empty where it is not written.
    pub order: List<OrderItem>,
}

/// What a SELECT shows.
#[derive(Debug, Drop)]
pub enum SelectItem {
    /// `*`
    All,
    /// `source.*`
    AllOf(Text),
    One { value: Expr, alias: Option<Text> },
}

/// FROM, with one source or two that are joined.
#[derive(Debug, Drop)]
pub struct FromClause {
    pub source: Source,
    pub join: Option<JoinClause>,
}

/// What rows are taken from.
#[derive(Debug, Drop)]
pub enum Source {
    Table(TableSource),
    /// `CHANGETABLE(CHANGES table, since) AS alias`
    Changes {
        table: ObjectName,
        since: Expr,
        alias: Text,
    },
    Version(VersionSource),
}

/// A row's version as a source.
#[derive(Debug, Drop)]
pub struct VersionSource {
    pub version: RowVersion,
    pub alias: Text,
}

/// What stands after the first source.
#[derive(Debug, Drop)]
pub enum JoinClause {
    On {
        kind: JoinKind,
        source: Source,
        condition: Expr,
    },
    /// CROSS APPLY
    Apply(VersionSource),
}

/// Of which side a join keeps each row.
#[derive(Clone, Copy, Debug, PartialEq, Eq)]
pub enum JoinKind {
    Inner,
    Left,
    Right,
}

/// An item of ORDER BY.
#[derive(Debug, Drop)]
pub struct OrderItem {
    pub value: Expr,
    /// Whether DESC is written.
    pub descending: bool,
}

/// A level of isolation.
#[derive(Clone, Copy, Debug, PartialEq, Eq)]
pub enum Isolation {
    Snapshot,
    ReadCommitted,
}
