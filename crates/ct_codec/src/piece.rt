ghost use Rattle.std.specs.Prelude.{◌≡◌, ◌++◌, Some, None, drop, length, IfOk, OnOk, IsErrOf};
ghost use Rattle.ct_codec.specs.EntryReaders as readers;
ghost use Rattle.ct_codec.specs.Readers.{Reads, Gives, whole};
ghost use Rattle.ct_codec.specs.Spellings.{piece_byte, spell_payload, PayloadFits, spell_piece, PieceFits, spell_kept, KeptFits};

use crate::fitting::payload_fits;
use crate::input::at_end;
use crate::output::{put_bytes, put_u8, put_u32, put_u64};
use crate::schemas::{get_keep, get_schema, get_tracked, put_keep, put_schema, put_tracked};
use crate::spelled::{get_many, put_many};
use crate::{CodecError, Input};
use ct_types::{Bin, Kept, Memory, Piece};
use std::alloc::Global;

#[tactic(auto, unfolding(crate::specs::EntryReaders::kept))]
fn get_kept(alloc: Global, input: &mut Input<'_>) -> Result<Kept, CodecError>
    ensures { Reads (readers.kept input.old) result input.new }
{
    let version = input.u64()?;
    let xdes = input.u64()?;
    let time = input.u64()?;
    let changes = get_many(alloc, input)?;
    Ok(Kept {
        version,
        xdes,
        time,
        changes,
    })
}

fn put_kept(out: &mut Vec<u8>, kept: &Kept) -> Result<(), Memory>
    requires { KeptFits kept.now }
    ensures { OnOk result (out.new.items ≡ out.old.items ++ spell_kept kept.now) }
{
    put_u64(out, kept.version)?;
    put_u64(out, kept.xdes)?;
    put_u64(out, kept.time)?;
    put_many(out, kept.changes.as_slice())
}

fn get_head(input: &mut Input<'_>) -> Result<Piece, CodecError>
    ensures { Reads (readers.head input.old) result input.new }
{
    let version = input.u64()?;
    let time = input.u64()?;
    let last_xdes = input.u64()?;
    let keep = get_keep(input)?;
    Ok(Piece::Head {
        version,
        time,
        last_xdes,
        keep,
    })
}

fn get_table(alloc: Global, input: &mut Input<'_>) -> Result<Piece, CodecError>
    ensures { Reads (readers.table input.old) result input.new }
{
    let schema = get_schema(alloc, input)?;
    let tracked = get_tracked(input)?;
    Ok(Piece::Table { schema, tracked })
}

fn get_rows(alloc: Global, input: &mut Input<'_>) -> Result<Piece, CodecError>
    ensures { Reads (readers.rows input.old) result input.new }
{
    let table = input.u32()?;
    let rows = get_many(alloc, input)?;
    Ok(Piece::Rows { table, rows })
}

#[tactic(auto, unfolding(crate::specs::EntryReaders::payload))]
fn get_payload(alloc: Global, kind: u8, input: &mut Input<'_>) -> Result<Piece, CodecError>
    ensures { Reads (readers.payload kind input.old) result input.new }
{
    match kind {
        1 => get_head(input),
        2 => get_table(alloc, input),
        3 => get_rows(alloc, input),
        4 => Ok(Piece::Kept(get_kept(alloc, input)?)),
        5 => Ok(Piece::End),
        _ => Err(CodecError::NotCanonical),
    }
}

fn whole_payload(alloc: Global, kind: u8, bytes: &[u8]) -> Result<Piece, CodecError>
    ensures { Gives (whole (readers.payload kind) bytes.now) result }
{
    let mut input = Input::new(bytes);
    let piece = get_payload(alloc, kind, &mut input)?;
    at_end(piece, &input)
}

#[tactic(auto, unfolding(crate::specs::EntryReaders::piece_of))]
fn read_piece(alloc: Global, input: &mut Input<'_>) -> Result<Piece, CodecError>
    ensures { Reads (readers.piece_of input.old) result input.new }
{
    let kind = input.u8()?;
    let length = input.u32()?;
    let payload = input.take(length as usize)?;
    whole_payload(alloc, kind, payload)
}

fn kind_of(piece: &Piece) -> u8
    ensures { result ≡ piece_byte piece.now }
{
    match piece {
        Piece::Head { .. } => 1,
        Piece::Table { .. } => 2,
        Piece::Rows { .. } => 3,
        Piece::Kept(_) => 4,
        Piece::End => 5,
    }
}

fn put_payload(out: &mut Vec<u8>, piece: &Piece) -> Result<(), Memory>
    requires { PayloadFits piece.now }
    ensures { OnOk result (out.new.items ≡ out.old.items ++ spell_payload piece.now) }
{
    match piece {
        Piece::Head {
            version,
            time,
            last_xdes,
            keep,
        } => {
            put_u64(out, *version)?;
            put_u64(out, *time)?;
            put_u64(out, *last_xdes)?;
            put_keep(out, *keep)
        }
        Piece::Table { schema, tracked } => {
            put_schema(out, schema)?;
            put_tracked(out, *tracked)
        }
        Piece::Rows { table, rows } => {
            put_u32(out, *table)?;
            put_many(out, rows.as_slice())
        }
        Piece::Kept(kept) => put_kept(out, kept),
        Piece::End => Ok(()),
    }
}

/// The bytes of a piece of a checkpoint.
///
/// The piece can be spelled: its counts and lengths, that of its payload among them, fit their fields, and a key has one
/// value.
pub fn put_piece(alloc: Global, piece: &Piece) -> Result<Bin, Memory>
    requires { PieceFits piece.now }
    ensures { IfOk result (λ bytes. bytes ≡ spell_piece piece.now) }
{
    let mut payload = Vec::new(alloc);
    put_payload(&mut payload, piece)?;
    let mut out = Vec::new(alloc);
    put_u8(&mut out, kind_of(piece))?;
    put_u32(&mut out, payload.len() as u32)?;
    put_bytes(&mut out, payload.as_slice())?;
    Ok(Bin::from_vec(out))
}

/// Appends the bytes of a piece of which it is not known that it can be spelled. Where it cannot, that is want of memory: of the
/// pieces of a valid database only those cannot whose payload has 2^32 bytes or more.
pub fn put_any_piece(alloc: Global, out: &mut Vec<u8>, piece: &Piece) -> Result<(), Memory>
    ensures spelled { OnOk result (out.new.items ≡ out.old.items ++ spell_piece piece.now) }
    ensures fits { OnOk result (PieceFits piece.now) }
{
    if !payload_fits(piece) {
        return Err(Memory);
    }
    let mut payload = Vec::new(alloc);
    put_payload(&mut payload, piece)?;
    if payload.len() > 4_294_967_295 {
        return Err(Memory);
    }
    put_u8(out, kind_of(piece))?;
    put_u32(out, payload.len() as u32)?;
    put_bytes(out, payload.as_slice())
}

/// The piece with whose spelling the bytes begin, and how long that spelling is. `NotCanonical` comes exactly where they
/// begin with the spelling of no piece.
#[tactic(auto, using(crate::proofs::PieceLaws::law_piece))]
pub fn get_piece(alloc: Global, bytes: &[u8]) -> Result<(Piece, u64), CodecError>
    ensures piece { IfOk result (λ found. readers.piece_of bytes.now ≡ Some (found.0, drop found.1 bytes.now)) }
    ensures length { IfOk result (λ found. found.1 ≡ length (spell_piece found.0)) }
    ensures canonical { IsErrOf result CodecError.NotCanonical → readers.piece_of bytes.now ≡ None }
{
    let mut input = Input::new(bytes);
    let piece = read_piece(alloc, &mut input)?;
    Ok((piece, (bytes.len() - input.left()) as u64))
}
