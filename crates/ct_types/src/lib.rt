//! The plain types of the server: texts, bytes and lists that contracts see as lists, and what is built of them.
#![tactic(auto)]

mod bin;
mod bound;
mod catalogue;
mod column_fit;
mod command;
mod copies;
mod entry;
mod expr;
mod list;
mod memory;
mod order;
mod piece;
mod refusal;
mod reply;
mod schema;
mod stmt;
mod text;
mod tracked;
mod value;
mod verdict;
mod view;

pub use bin::Bin;
pub use bound::{
    Bound, BoundExpr, BoundRowVersion, BoundScalar, BoundSelect, BoundSet, BoundSource, BoundTerm,
    BoundWrite, Join, OrderBy, Plan, RowChange, VersionColumn,
};
pub use catalogue::{Catalogued, Variable, Variables};
pub use column_fit::{Misfit, fits, is_of_kind};
pub use command::{Command, Journaled};
pub use copies::Copies;
pub use entry::{Act, Change, Entry, Keep, Kept, Min, Op, Write};
pub use expr::{ColumnName, Comparison, Expr, ObjectName, RowVersion, Scalar, Term};
pub use list::{List, push};
pub use memory::Memory;
pub use order::{cmp_key, cmp_value};
pub use piece::Piece;
pub use refusal::Refusal;
pub use reply::{Grid, Reply};
pub use schema::{ColType, Column, Schema};
pub use stmt::{
    ColumnDef, ColumnRule, DatabaseOption, FromClause, Isolation, JoinClause, JoinKind, OrderItem,
    Retention, Select, SelectItem, SetColumn, Source, Stmt, TableSource, TimeUnit, TrackingOptions,
    TypeName, VersionSource, WriteStmt,
};
pub use text::Text;
pub use tracked::{NetRow, Tracked, VersionRow};
pub use value::{Key, Row, Value};
pub use verdict::{CopyOut, Touched, Verdict};
pub use view::{Pulled, View, Window};
