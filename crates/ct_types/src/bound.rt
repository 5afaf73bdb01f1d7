use crate::{Bin, ColType, Comparison, Isolation, Keep, List, Schema, Text};
use sqlite_items::{Boxed, Items};

/// An expression whose names are bound: a column is its place in the row on which the expression is evaluated, a
/// variable its place among the variables, a table its id. A chain of one operator is one node, as in `Expr`.
#[cycle(bound_tree)]
#[derive(Debug, Drop)]
pub enum BoundExpr {
    Null,
    Number(i64),
    Text(Text),
    Bytes(Bin),
    /// The value at this place of the row, counted from 0; in a joined row the left source's columns come first.
    Column(u32),
    /// The variable at this place of the list, counted from 0.
    Variable(u32),
    /// `CHANGE_TRACKING_CURRENT_VERSION()`
    CurrentVersion,
    /// `CHANGE_TRACKING_MIN_VALID_VERSION(table id)`
    MinValidVersion(Boxed<BoundExpr>),
    /// `CHANGE_TRACKING_IS_COLUMN_IN_MASK(column id, mask)`
    IsColumnInMask(Boxed<BoundExpr>, Boxed<BoundExpr>),
    /// `OBJECT_ID(name)`
    ObjectId(Boxed<BoundExpr>),
    /// `COLUMNPROPERTY(table id, column, property)`
    ColumnProperty(Boxed<BoundExpr>, Boxed<BoundExpr>, Boxed<BoundExpr>),
    /// `ISNULL(value, instead)`
    IfNull(Boxed<BoundExpr>, Boxed<BoundExpr>),
    /// A SELECT of one column in brackets.
    Scalar(Boxed<BoundScalar>),
    Negative(Boxed<BoundExpr>),
    /// Two factors or more.
    Product(Items<BoundExpr>),
    /// The first operand, and one or more that are added to it or taken from it.
    Sum(Boxed<BoundExpr>, Items<BoundTerm>),
    Compare(Comparison, Boxed<BoundExpr>, Boxed<BoundExpr>),
    IsNull(Boxed<BoundExpr>),
    IsNotNull(Boxed<BoundExpr>),
    Not(Boxed<BoundExpr>),
    /// Two operands or more.
    And(Items<BoundExpr>),
    /// Two operands or more.
    Or(Items<BoundExpr>),
}

/// An operand of a sum after the first.
#[cycle(bound_tree)]
#[derive(Debug, Drop)]
pub struct BoundTerm {
    pub subtracts: bool,
    pub value: BoundExpr,
}

/// `SELECT column FROM CHANGETABLE(VERSION table, (key), (values))`
#[cycle(bound_tree)]
#[derive(Debug, Drop)]
pub struct BoundScalar {
    pub version: BoundRowVersion,
    pub column: VersionColumn,
}

/// `CHANGETABLE(VERSION table, (key), (values))`: the last change of one row, by its key.
#[cycle(bound_tree)]
#[derive(Debug, Drop)]
pub struct BoundRowVersion {
    pub table: u32,
    /// The values of the key, in key order.
    pub values: Items<BoundExpr>,
}

/// A column of CHANGETABLE(VERSION ..).
#[derive(Clone, Copy, Debug, PartialEq, Eq)]
pub enum VersionColumn {
    /// SYS_CHANGE_VERSION
    Version,
    /// SYS_CHANGE_CONTEXT
    Context,
    /// The key's value at this place, counted from 0.
    Key(u32),
}

/// A statement whose names are bound, and which no rule of names, kinds or definitions refuses.
#[derive(Debug, Drop)]
pub enum Bound {
    /// ALLOW_SNAPSHOT_ISOLATION and READ_COMMITTED_SNAPSHOT, which are taken and change nothing.
    AcceptOption,
    /// What the settings of the database become; none where tracking goes off.
    AlterDatabase(Option<Keep>),
    CreateTable(Schema),
    EnableTracking {
        table: u32,
        masks: bool,
    },
    DisableTracking {
        table: u32,
    },
    TruncateTable {
        table: u32,
    },
    Write(BoundWrite),
    Select(BoundSelect),
    Begin,
    Commit,
    Rollback,
    SetIsolation(Isolation),
    SetLockTimeout,
    SetVariable {
        variable: u32,
        value: BoundExpr,
    },
    /// The name as it is written, with its `@`.
    Declare {
        variable: Text,
        kind: ColType,
        value: Option<BoundExpr>,
    },
}

/// A statement that changes rows of one table.
#[derive(Debug, Drop)]
pub struct BoundWrite {
    pub table: u32,
    /// WITH CHANGE_TRACKING_CONTEXT
    pub context: Option<BoundExpr>,
    pub change: RowChange,
}

/// How rows are changed. Expressions of UPDATE and DELETE are evaluated on a row of the table.
#[derive(Debug, Drop)]
pub enum RowChange {
    Insert {
        /// The ids of the columns whose values stand in the tuples, in their order.
        columns: List<u16>,
        tuples: List<Items<BoundExpr>>,
    },
    Update {
        sets: List<BoundSet>,
        filter: Option<BoundExpr>,
    },
    Delete {
        filter: Option<BoundExpr>,
    },
}

/// `column = value` of an UPDATE.
#[derive(Debug, Drop)]
pub struct BoundSet {
    pub column: u16,
    pub value: BoundExpr,
}

/// A SELECT: where its rows come from, and what is made of them.
#[derive(Debug, Drop)]
pub struct BoundSelect {
    pub left: Option<BoundSource>,
    pub right: Option<BoundSource>,
    pub plan: Plan,
}

/// What rows are taken from.
#[derive(Debug, Drop)]
pub enum BoundSource {
    Table(u32),
    /// CHANGETABLE(CHANGES ..), whose second argument names no column.
    Changes { table: u32, since: BoundExpr },
    /// CHANGETABLE(VERSION ..). In CROSS APPLY its values are evaluated on the left row; elsewhere they name no column.
    Version(BoundRowVersion),
    /// `sys.dm_tran_commit_table`
    CommitTable,
    /// `sys.change_tracking_tables`
    TrackingTables,
}

/// What is made of the rows of the sources.
#[derive(Debug, Drop)]
pub struct Plan {
    /// How many columns the left source has; 0 where there is none.
    pub left: u32,
    /// How many columns the right source has; 0 where there is none.
    pub right: u32,
    /// The names of the columns of the answer.
    pub names: List<Text>,
    /// Their values, on a joined row.
    pub items: List<BoundExpr>,
    pub join: Join,
    pub on: Option<BoundExpr>,
    /// WHERE
    pub filter: Option<BoundExpr>,
    /// ORDER BY, which is empty where it is not written: on a joined row and behind it the values of the items.
    pub order: List<OrderBy>,
}

/// Which rows of two sources are joined.
#[derive(Clone, Copy, Debug, PartialEq, Eq)]
pub enum Join {
    /// There are no two sources.
    One,
    /// The pairs for which ON is true.
    Inner,
    /// These, and each left row without a pair.
    Left,
    /// These, and each right row without a pair.
    Right,
    /// Each left row with its own right row.
    Apply,
}

/// A part of ORDER BY.
#[derive(Debug, Drop)]
pub struct OrderBy {
    pub expr: BoundExpr,
    /// Whether DESC is written.
    pub down: bool,
}
