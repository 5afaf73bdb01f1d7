use ct_types::Memory;
use hex::FromHexError;
use std::alloc::AllocError;
use std::num::ParseIntError;

/// The program cannot go on: the input is not of its form, or memory was wanting.
#[derive(Clone, Copy, Debug)]
pub(crate) struct Stop;

impl From<Memory> for Stop {
    fn from(_: Memory) -> Stop {
        Stop
    }
}

impl From<AllocError> for Stop {
    fn from(_: AllocError) -> Stop {
        Stop
    }
}

impl From<FromHexError> for Stop {
    fn from(_: FromHexError) -> Stop {
        Stop
    }
}

impl From<ParseIntError> for Stop {
    fn from(_: ParseIntError) -> Stop {
        Stop
    }
}
