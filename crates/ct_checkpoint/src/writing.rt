ghost use Rattle.std.specs.Prelude.{◌≡◌, ◌∷◌, [], ◌<◌, length, map, IfOk, OnOk};
ghost use Rattle.std.specs.List.{flat_map};
ghost use Rattle.ct_types.specs.declared.piece.Piece.TheVariants as piece_is;
ghost use Rattle.ct_model.specs.Valid.{IsValid};
ghost use Rattle.ct_found.specs.Checkpoint.{IsCheckpoint};
ghost use Rattle.ct_found.specs.Pieces.{groups, table_pieces, pieces_of};
ghost use Rattle.ct_checkpoint.specs.Writing.{Appends};

use ct_codec::put_any_piece;
use ct_model::{Db, Table};
use ct_types::{Bin, Copies, Kept, List, Memory, Piece, Row};
use std::alloc::Global;

/// The rows of a full group.
const GROUP: usize = 256;

fn put_piece(alloc: Global, out: &mut Vec<u8>, piece: &Piece) -> Result<(), Memory>
    ensures { OnOk result (Appends (piece.now ∷ []) out.old.items out.new.items) }
{
    put_any_piece(alloc, out, piece)
}

fn copied(alloc: Global, rows: &[Row]) -> Result<List<Row>, Memory>
    ensures { IfOk result (λ made. made ≡ rows.now) }
{
    let mut made = List::new(alloc);
    for row in rows {
        made.push(row.copy(alloc)?)?;
    }
    Ok(made)
}

fn put_group(alloc: Global, out: &mut Vec<u8>, table: u32, rows: &[Row]) -> Result<(), Memory>
    ensures { OnOk result (Appends (piece_is.Rows table rows.now ∷ []) out.old.items out.new.items) }
{
    let rows = copied(alloc, rows)?;
    put_piece(alloc, out, &Piece::Rows { table, rows })
}

/// Appends the groups of rows.
fn put_groups(alloc: Global, out: &mut Vec<u8>, table: u32, rows: &[Row]) -> Result<(), Memory>
    ensures { OnOk result (Appends (map (λ group. piece_is.Rows table group) (groups (length rows.now) rows.now)) out.old.items out.new.items) }
{
    let mut rest = rows;
    while rest.len() > 0 {
        let (group, behind) = rest.split_at(rest.len().min(GROUP));
        put_group(alloc, out, table, group)?;
        rest = behind;
    }
    Ok(())
}

fn put_definition(alloc: Global, out: &mut Vec<u8>, table: &Table) -> Result<(), Memory>
    ensures { OnOk result (Appends (piece_is.Table table.now.schema table.now.tracked ∷ []) out.old.items out.new.items) }
{
    let piece = Piece::Table {
        schema: table.schema.copy(alloc)?,
        tracked: table.tracked,
    };
    put_piece(alloc, out, &piece)
}

fn put_table(alloc: Global, out: &mut Vec<u8>, table: &Table) -> Result<(), Memory>
    ensures { OnOk result (Appends (table_pieces table.now) out.old.items out.new.items) }
{
    put_definition(alloc, out, table)?;
    put_groups(alloc, out, table.schema.id, table.rows.as_slice())
}

fn put_tables(alloc: Global, out: &mut Vec<u8>, tables: &[Table]) -> Result<(), Memory>
    ensures { OnOk result (Appends (flat_map table_pieces tables.now) out.old.items out.new.items) }
{
    for table in tables {
        put_table(alloc, out, table)?;
    }
    Ok(())
}

fn put_kept(alloc: Global, out: &mut Vec<u8>, kept: &Kept) -> Result<(), Memory>
    ensures { OnOk result (Appends (piece_is.Kept kept.now ∷ []) out.old.items out.new.items) }
{
    let piece = Piece::Kept(kept.copy(alloc)?);
    put_piece(alloc, out, &piece)
}

fn put_all_kept(alloc: Global, out: &mut Vec<u8>, kept: &[Kept]) -> Result<(), Memory>
    ensures { OnOk result (Appends (map (λ one. piece_is.Kept one) kept.now) out.old.items out.new.items) }
{
    for one in kept {
        put_kept(alloc, out, one)?;
    }
    Ok(())
}

fn put_head(alloc: Global, out: &mut Vec<u8>, db: &Db) -> Result<(), Memory>
    ensures { OnOk result (Appends (piece_is.Head db.now.version db.now.time db.now.last_xdes db.now.keep ∷ []) out.old.items out.new.items) }
{
    let head = Piece::Head {
        version: db.version,
        time: db.time,
        last_xdes: db.last_xdes,
        keep: db.keep,
    };
    put_piece(alloc, out, &head)
}

fn put_pieces(alloc: Global, out: &mut Vec<u8>, db: &Db) -> Result<(), Memory>
    ensures { OnOk result (Appends (pieces_of db.now) out.old.items out.new.items) }
{
    put_head(alloc, out, db)?;
    put_tables(alloc, out, db.tables.as_slice())?;
    put_all_kept(alloc, out, db.kept.as_slice())?;
    put_piece(alloc, out, &Piece::End)
}

/// The checkpoint of a valid database: its pieces, one after the other. A piece whose payload would have 2^32 bytes or more is
/// want of memory.
pub fn put_db(alloc: Global, db: &Db) -> Result<Bin, Memory>
    ensures checkpoint { IfOk result (λ bytes. IsValid db.now → IsCheckpoint bytes (length bytes) db.now) }
    ensures some { IfOk result (λ bytes. 0 < length bytes) }
{
    let mut out = Vec::new(alloc);
    put_pieces(alloc, &mut out, db)?;
    Ok(Bin::from_vec(out))
}
