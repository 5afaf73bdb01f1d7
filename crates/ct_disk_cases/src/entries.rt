//! The rows of entries.

ghost use Rattle.std.specs.Prelude.{◌≡◌, Some};
ghost use Rattle.ct_codec.specs.EntryReaders.{entry_of};

use crate::stop::Stop;
use ct_codec::{CodecError, entry_size, get_entry, put_entry};
use ct_faults::{Sink, write_all};
use ct_types::Entry;
use std::alloc::Global;

/// Writes that bytes are no spelling.
pub(crate) fn write_error<K: Sink>(error: CodecError, out: &mut K) -> Result<(), Stop> {
    match error {
        CodecError::NotCanonical => {
            let _ = write_all(out, b"  NotCanonical\n");
            Ok(())
        }
        CodecError::Memory => Err(Stop),
    }
}

/// Writes how many bytes there are, and whether they were spelled the same again.
pub(crate) fn write_size<K: Sink>(
    alloc: Global,
    size: u64,
    same: bool,
    out: &mut K,
) -> Result<(), Stop> {
    let how = if same { "the same" } else { "otherwise" };
    let line = format!(in alloc; "  {size} bytes, spelled {how}\n")?;
    let _ = write_all(out, line.as_bytes());
    Ok(())
}

/// Writes the line of an entry.
fn write_debug<K: Sink>(alloc: Global, entry: &Entry, out: &mut K) -> Result<(), Stop> {
    let line = format!(in alloc; "  {entry:?}\n")?;
    let _ = write_all(out, line.as_bytes());
    Ok(())
}

/// Writes the lines of an entry, which was read from these bytes.
fn write_found<K: Sink>(alloc: Global, bytes: &[u8], entry: &Entry, out: &mut K) -> Result<(), Stop>
    requires { entry_of bytes.now ≡ Some entry.now }
{
    write_debug(alloc, entry, out)?;
    let size = entry_size(entry);
    let again = put_entry(alloc, entry)?;
    write_size(alloc, size, again.as_bytes() == bytes, out)
}

/// Writes what a row of an entry comes to.
pub(crate) fn write_entry<K: Sink>(alloc: Global, bytes: &[u8], out: &mut K) -> Result<(), Stop> {
    match get_entry(alloc, bytes) {
        Ok(entry) => write_found(alloc, bytes, &entry, out),
        Err(error) => write_error(error, out),
    }
}
