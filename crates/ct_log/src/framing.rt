ghost use Rattle.std.specs.Prelude.{◌≡◌, ◌<◌, ◌^◌, length, IfOk};
ghost use Rattle.ct_log.specs.Append.{frame_of, payload_in, IsFrame};

use crate::log::CLOSED;
use byteorder::{ByteOrder, LittleEndian};
use ct_types::{Bin, Memory};
use std::alloc::Global;

/// What `Log::append` takes: the length of a payload, the payload, and the closed gate that will end the log. It has five
/// bytes more than the payload, which has fewer than 2^32.
pub fn frame(alloc: Global, payload: &[u8]) -> Result<Bin, Memory>
    requires { length payload.now < 2 ^ 32 }
    ensures bytes { IfOk result (λ body. body ≡ frame_of payload.now) }
    ensures frame { IfOk result IsFrame }
    ensures payload { IfOk result (λ body. payload_in body ≡ payload.now) }
{
    let mut length = [0; 4];
    LittleEndian::write_u32(&mut length, payload.len() as u32);
    let mut bytes = Vec::with_capacity(alloc, payload.len() + 5)?;
    bytes.extend_from_slice(&length)?;
    bytes.extend_from_slice(payload)?;
    bytes.push(CLOSED)?;
    Ok(Bin::from_vec(bytes))
}
