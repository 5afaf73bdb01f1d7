ghost use Rattle.std.specs.Prelude.{◌≡◌, IfOk};
ghost use Rattle.ct_types.specs.Answers.{Gives, each};
ghost use Rattle.ct_source.specs.Rows.{lent};
ghost use Rattle.ct_machine.specs.Reads as spec;
ghost use Rattle.ct_core.specs.Seeing.{IsEnvOf, seen_with};

use crate::changes::push_all;
use ct_database::Database;
use ct_expr::{Env, Versions, bytes_or_null, counted_or_null, row_version};
use ct_types::{BoundRowVersion, Key, List, Memory, Refusal, Row, VersionRow, push};
use std::alloc::Global;

/// The versions and contexts of the last kept changes of keys, for which CHANGETABLE(VERSION ..) asks.
#[derive(Drop)]
pub(crate) struct LastVersions<'a> {
    pub(crate) db: &'a Database,
}

impl Versions for LastVersions<'_> {
    ghost use Rattle.ct_model.specs.Versions.{row_version as last_version};

    ghost row_of = { λ it table key. last_version it.db.now table key };

    fn version(&self, alloc: Global, table: u32, key: &Key) -> Result<VersionRow, Memory> {
        self.db.row_version(alloc, table, key)
    }
}

/// The row that CHANGETABLE(VERSION ..) shows of a key.
fn show_version(alloc: Global, key: &Key, row: VersionRow) -> Result<Row, Memory>
    ensures { IfOk result (λ made. made ≡ spec.shown_version (key.now, row)) }
{
    let mut values = List::new(alloc);
    values.push(counted_or_null(row.version))?;
    values.push(bytes_or_null(row.context))?;
    push_all(alloc, &mut values, key.0.as_slice())?;
    Ok(Row(values))
}

/// The row of CHANGETABLE(VERSION ..) for the key that the values make on a row.
pub(crate) fn version_on(
    alloc: Global,
    db: &Database,
    env: &Env<'_>,
    version: &BoundRowVersion,
    row: &Row,
) -> Result<Row, Refusal>
    requires { IsEnvOf db.now env.now }
    ensures { Gives (spec.version_on (seen_with db.now env.now) version.now row.now) result }
{
    let (key, found) = row_version(alloc, version, row, env, &LastVersions { db })?;
    Ok(show_version(alloc, &key, found)?)
}

/// The rows of CHANGETABLE(VERSION ..) for the keys that the values make on each of these rows.
pub(crate) fn versions_on(
    alloc: Global,
    db: &Database,
    env: &Env<'_>,
    version: &BoundRowVersion,
    rows: &[&Row],
) -> Result<List<Row>, Refusal>
    requires { IsEnvOf db.now env.now }
    ensures { Gives (each (spec.version_on (seen_with db.now env.now) version.now) (lent rows.now)) result }
{
    let mut made = List::new(alloc);
    for row in rows {
        push(&mut made, version_on(alloc, db, env, version, row)?)?;
    }
    Ok(made)
}
