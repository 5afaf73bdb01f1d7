ghost use Rattle.std.specs.Prelude.{◌↔◌, IsTrue, IfOk};
ghost use Rattle.std.specs.List.{AllByRecursion};
ghost use Rattle.ct_types.specs.declared.piece.Piece.TheVariants as piece_is;
ghost use Rattle.ct_model.specs.Schemas.{RowFits};
ghost use Rattle.ct_model.specs.Valid.{AreRising, ComesBefore, IsValid};
ghost use Rattle.ct_checkpoint.specs.Following.{IsHead, Starts, IsNextGroup, TakesRows, Follows};

use ct_applies::{
    comes_before, is_keep_valid, is_kept_valid, is_new_schema, is_tracked_valid, rise_behind,
    row_fits,
};
use ct_model::{Db, Table};
use ct_types::{Keep, Kept, List, Memory, Piece, Row, Schema, Tracked};
use std::alloc::Global;

/// The greatest version, time and transaction number.
const MOST: u64 = 1 << 62;

/// The rows of a full group.
const GROUP: usize = 256;

fn is_head(version: u64, time: u64, last_xdes: u64, keep: Option<Keep>) -> bool
    ensures { IsTrue result ↔ IsHead version time last_xdes keep }
{
    version <= MOST && time <= MOST && last_xdes <= MOST && is_keep_valid(keep)
}

/// Whether a checkpoint may begin with a piece: a head that a valid database may have.
pub fn starts(piece: &Piece) -> bool
    ensures { IsTrue result ↔ Starts piece.now }
{
    match piece {
        Piece::Head {
            version,
            time,
            last_xdes,
            keep,
        } => is_head(*version, *time, *last_xdes, *keep),
        _ => false,
    }
}

fn table_follows(db: &Db, schema: &Schema, tracked: Option<Tracked>) -> bool
    ensures { IsTrue result ↔ Follows db.now (piece_is.Table schema.now tracked) }
{
    db.kept.as_slice().is_empty()
        && is_new_schema(db.tables.as_slice(), schema)
        && is_tracked_valid(db.version, db.keep, tracked)
}

fn rows_fit(schema: &Schema, rows: &[Row]) -> bool
    ensures { IsTrue result ↔ AllByRecursion (RowFits schema.now) rows.now }
{
    rows.iter().all(|row| row_fits(schema, row))
}

/// Whether rows are a group for the table, which fit it and have full groups before them.
fn is_next_group(table: &Table, id: u32, rows: &[Row]) -> bool
    ensures { IsTrue result ↔ IsNextGroup id rows.now table.now }
{
    id == table.schema.id
        && table.rows.as_slice().len() % GROUP == 0
        && rows.len() > 0
        && rows.len() <= GROUP
        && rows_fit(&table.schema, rows)
}

fn takes_rows(alloc: Global, table: &Table, id: u32, rows: &[Row]) -> Result<bool, Memory>
    requires { AreRising table.now.schema table.now.rows }
    ensures { IfOk result (λ b. IsTrue b ↔ TakesRows id rows.now table.now) }
{
    if is_next_group(table, id, rows) {
        rise_behind(alloc, &table.schema, table.rows.as_slice(), rows)
    } else {
        Ok(false)
    }
}

fn rows_follow(alloc: Global, db: &Db, id: u32, rows: &List<Row>) -> Result<bool, Memory>
    requires { IsValid db.now }
    ensures { IfOk result (λ b. IsTrue b ↔ Follows db.now (piece_is.Rows id rows.now)) }
{
    if !db.kept.as_slice().is_empty() {
        return Ok(false);
    }
    match db.tables.as_slice().last() {
        None => Ok(false),
        Some(table) => takes_rows(alloc, table, id, rows.as_slice()),
    }
}

fn come_before(kept: &[Kept], later: &Kept) -> bool
    ensures { IsTrue result ↔ AllByRecursion (λ earlier. ComesBefore earlier later.now) kept.now }
{
    kept.iter().all(|earlier| comes_before(earlier, later))
}

fn kept_follows(db: &Db, kept: &Kept) -> bool
    ensures { IsTrue result ↔ Follows db.now (piece_is.Kept kept.now) }
{
    is_kept_valid(db, kept) && come_before(db.kept.as_slice(), kept)
}

/// Whether a piece may follow those of a database.
pub fn follows(alloc: Global, db: &Db, piece: &Piece) -> Result<bool, Memory>
    requires { IsValid db.now }
    ensures { IfOk result (λ b. IsTrue b ↔ Follows db.now piece.now) }
{
    match piece {
        Piece::Head { .. } => Ok(false),
        Piece::Table { schema, tracked } => Ok(table_follows(db, schema, *tracked)),
        Piece::Rows { table, rows } => rows_follow(alloc, db, *table, rows),
        Piece::Kept(kept) => Ok(kept_follows(db, kept)),
        Piece::End => Ok(true),
    }
}
