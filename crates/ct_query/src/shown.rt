use ct_types::{List, Row, Value};

/// A row of the answer, and the values by which it is ordered.
#[derive(Debug, Drop)]
pub(crate) struct Shown {
    pub(crate) keys: List<Value>,
    pub(crate) row: Row,
}
