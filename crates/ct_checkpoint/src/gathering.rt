ghost use Rattle.std.specs.Prelude.{◌≡◌, ◌++◌, IfOk};
ghost use Rattle.ct_found.specs.Gathered.{with_rows, goes_on};

use ct_model::{Db, Table};
use ct_types::{List, Memory, Piece, Row, push};
use std::alloc::Global;

fn joined(mut rows: List<Row>, more: List<Row>) -> Result<List<Row>, Memory>
    ensures { IfOk result (λ made. made ≡ rows ++ more) }
{
    for row in more.into_vec() {
        push(&mut rows, row)?;
    }
    Ok(rows)
}

fn with_more_rows(table: Table, more: List<Row>) -> Result<Table, Memory>
    ensures { IfOk result (λ made. made ≡ record table { rows = table.rows ++ more }) }
{
    let Table {
        schema,
        rows,
        tracked,
    } = table;
    Ok(Table {
        schema,
        rows: joined(rows, more)?,
        tracked,
    })
}

/// Tables, the last of which has these rows more.
fn rows_to_last(tables: List<Table>, rows: List<Row>) -> Result<List<Table>, Memory>
    ensures { IfOk result (λ made. made ≡ with_rows tables rows) }
{
    let mut tables = tables.into_vec();
    let Some(last) = tables.pop() else {
        return Ok(List::from_vec(tables));
    };
    let mut made = List::from_vec(tables);
    push(&mut made, with_more_rows(last, rows)?)?;
    Ok(made)
}

/// A database with what a piece adds to it.
pub fn with_piece(alloc: Global, db: Db, piece: Piece) -> Result<Db, Memory>
    ensures { IfOk result (λ made. made ≡ (goes_on db piece).db) }
{
    let mut db = db;
    match piece {
        Piece::Head {
            version,
            time,
            last_xdes,
            keep,
        } => {
            db.version = version;
            db.time = time;
            db.last_xdes = last_xdes;
            db.keep = keep;
            Ok(db)
        }
        Piece::Table { schema, tracked } => {
            let table = Table {
                schema,
                rows: List::new(alloc),
                tracked,
            };
            push(&mut db.tables, table)?;
            Ok(db)
        }
        Piece::Rows { table: _, rows } => {
            db.tables = rows_to_last(db.tables, rows)?;
            Ok(db)
        }
        Piece::Kept(kept) => {
            push(&mut db.kept, kept)?;
            Ok(db)
        }
        Piece::End => Ok(db),
    }
}
