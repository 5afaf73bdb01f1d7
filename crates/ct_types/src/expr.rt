use crate::{Bin, List, Text};
use sqlite_items::{Boxed, Items};

/// A table's name as it is written, in one part or two, with brackets taken off.
#[derive(Debug, Drop)]
pub struct ObjectName {
    pub first: Text,
    pub second: Option<Text>,
}

/// A column's name, with that of its source where it is written.
#[derive(Debug, Drop)]
pub struct ColumnName {
    pub source: Option<Text>,
    pub column: Text,
}

/// An operator between two sums.
#[derive(Clone, Copy, Debug, PartialEq, Eq)]
pub enum Comparison {
    Equal,
    /// `<>` or `!=`
    NotEqual,
    Less,
    AtMost,
    More,
    AtLeast,
}

/// An expression as it is written. Brackets round one leave no trace. A chain of one operator is one node, with its
/// operands from left to right.
#[cycle(tree)]
#[derive(Debug, Drop)]
pub enum Expr {
    Null,
    /// The digits as they are written.
    Number(Text),
    /// The characters between the quotes, where two quotes in a row have become one.
    Text(Text),
    /// The bytes that the hexadecimal digits spell.
    Bytes(Bin),
    /// The name as it is written, with its `@`.
    Variable(Text),
    Column(ColumnName),
    /// `CHANGE_TRACKING_CURRENT_VERSION()`
    CurrentVersion,
    /// `CHANGE_TRACKING_MIN_VALID_VERSION(table id)`
    MinValidVersion(Boxed<Expr>),
    /// `CHANGE_TRACKING_IS_COLUMN_IN_MASK(column id, mask)`
    IsColumnInMask(Boxed<Expr>, Boxed<Expr>),
    /// `OBJECT_ID(name)`
    ObjectId(Boxed<Expr>),
    /// `COLUMNPROPERTY(table id, column, property)`
    ColumnProperty(Boxed<Expr>, Boxed<Expr>, Boxed<Expr>),
    /// `ISNULL(value, instead)`
    IfNull(Boxed<Expr>, Boxed<Expr>),
    /// A SELECT of one column in brackets.
    Scalar(Boxed<Scalar>),
    Negative(Boxed<Expr>),
    /// Two factors or more.
    Product(Items<Expr>),
    /// The first operand, and one or more that are added to it or taken from it.
    Sum(Boxed<Expr>, Items<Term>),
    Compare(Comparison, Boxed<Expr>, Boxed<Expr>),
    IsNull(Boxed<Expr>),
    IsNotNull(Boxed<Expr>),
    Not(Boxed<Expr>),
    /// Two operands or more.
    And(Items<Expr>),
    /// Two operands or more.
    Or(Items<Expr>),
}

/// An operand of a sum after the first.
#[cycle(tree)]
#[derive(Debug, Drop)]
pub struct Term {
    pub subtracts: bool,
    pub value: Expr,
}

/// `SELECT source.column FROM version AS alias`
#[cycle(tree)]
#[derive(Debug, Drop)]
pub struct Scalar {
    pub source: Text,
    pub column: Text,
    pub version: RowVersion,
    pub alias: Text,
}

/// `CHANGETABLE(VERSION table, (columns), (values))`: the last change of one row, by its key.
#[cycle(tree)]
#[derive(Debug, Drop)]
pub struct RowVersion {
    pub table: ObjectName,
    pub columns: List<Text>,
    pub values: Items<Expr>,
}
