ghost use Rattle.std.specs.Prelude.{◌≡◌, ℕ, IfOk};
ghost use Rattle.ct_types.specs.declared.tracked.VersionRow.{VersionRow as Found};
ghost use Rattle.ct_types.specs.declared.value.Key.{Key as Wanted};

use ct_types::{Catalogued, Key, Memory, Variables, VersionRow};
use std::alloc::Global;
use std::marker::Model;

/// What an expression may read besides the row on which it is evaluated. It is lent, so a statement copies nothing to make
/// one.
#[derive(Drop)]
pub struct Env<'a> {
    /// The variables, in the order in which the expression numbers them.
    pub variables: &'a Variables,
    /// CHANGE_TRACKING_CURRENT_VERSION: none where the database does not track changes.
    pub current: Option<u64>,
    /// The tables that names and ids may mean, with how they are tracked.
    pub tables: &'a [Catalogued],
}

impl<'a> Model for Env<'a> {
    ghost use Rattle.ct_expr.specs.Environment.{Environment};

    ghost Value = { Environment };

    ghost view = { λ env. record { variables = env.variables.now; current = env.current; tables = env.tables.now } };
}

/// The rows of CHANGETABLE(VERSION ..): for every table and every key there is one.
pub trait Versions {
    /// The row of a table, by its id, and a key.
    ghost row_of: { Self → ℕ → Wanted → Found };

    /// Answers the row of a table and a key. `Memory` is the only error.
    fn version(&self, alloc: Global, table: u32, key: &Key) -> Result<VersionRow, Memory>
        ensures { IfOk result (λ row. row ≡ row_of self.now table key.now) };
}
