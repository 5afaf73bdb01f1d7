use ct_types::{Expr, ObjectName, RowVersion};

/// What stands in the brackets of CHANGETABLE.
#[derive(Debug, Drop)]
pub enum ChangeTable {
    Changes(ObjectName, Expr),
    Version(RowVersion),
}
