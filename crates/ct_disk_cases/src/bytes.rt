//! Bytes in hexadecimal digits.

use crate::stop::Stop;
use ct_faults::{Sink, write_all};
use std::alloc::Global;

/// Appends the bytes of a word.
fn push_word(alloc: Global, word: &str, bytes: &mut Vec<u8>) -> Result<(), Stop> {
    let (times, pairs) = word.split_once('*').unwrap_or(("1", word));
    let part = hex::decode(alloc, pairs)?;
    for _ in 0..times.parse::<u16>()? {
        bytes.extend_from_slice(part.as_slice())?;
    }
    Ok(())
}

/// The bytes of a text.
pub(crate) fn bytes_of(alloc: Global, text: &str) -> Result<Vec<u8>, Stop> {
    let mut bytes = Vec::new(alloc);
    for word in text.split(' ') {
        push_word(alloc, word, &mut bytes)?;
    }
    Ok(bytes)
}

/// Writes a run of equal bytes, with a blank before it.
fn write_run<K: Sink>(alloc: Global, run: &[u8], out: &mut K) -> Result<(), Stop> {
    let word = match run {
        [] => return Ok(()),
        [byte] => format!(in alloc; " {byte:02x}")?,
        [byte, ..] => format!(in alloc; " {}*{byte:02x}", run.len())?,
    };
    let _ = write_all(out, word.as_bytes());
    Ok(())
}

/// Writes bytes, with a blank before each run.
pub(crate) fn write_bytes<K: Sink>(alloc: Global, bytes: &[u8], out: &mut K) -> Result<(), Stop> {
    if bytes.is_empty() {
        let _ = write_all(out, b" none");
    }
    for run in bytes.chunk_by(|a, b| a == b) {
        write_run(alloc, run, out)?;
    }
    Ok(())
}
