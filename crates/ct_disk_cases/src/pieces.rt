//! The rows of pieces.

ghost use Rattle.ct_codec.specs.Spellings.{PieceFits};

use crate::entries::{write_error, write_size};
use crate::stop::Stop;
use ct_codec::{get_piece, put_piece};
use ct_faults::{Sink, write_all};
use ct_types::Piece;
use std::alloc::Global;

/// Writes the line of a piece.
fn write_debug<K: Sink>(alloc: Global, piece: &Piece, out: &mut K) -> Result<(), Stop> {
    let line = format!(in alloc; "  {piece:?}\n")?;
    let _ = write_all(out, line.as_bytes());
    Ok(())
}

/// Writes the lines of a piece, which was read from so many of these bytes.
fn write_found<K: Sink>(
    alloc: Global,
    bytes: &[u8],
    piece: &Piece,
    size: u64,
    out: &mut K,
) -> Result<(), Stop>
    requires { PieceFits piece.now }
{
    write_debug(alloc, piece, out)?;
    let again = put_piece(alloc, piece)?;
    let spelled = again.as_bytes();
    let same = spelled.len() as u64 == size && bytes.starts_with(spelled);
    write_size(alloc, size, same, out)
}

/// Writes what a row of a piece comes to.
#[tactic(auto, using(crate::proofs::Fits::piece_fits))]
pub(crate) fn write_piece<K: Sink>(alloc: Global, bytes: &[u8], out: &mut K) -> Result<(), Stop> {
    match get_piece(alloc, bytes) {
        Ok((piece, size)) => write_found(alloc, bytes, &piece, size, out),
        Err(error) => write_error(error, out),
    }
}
