/// A write, cut or sync that was made. The bytes of a write stand in a list of all such bytes.
#[derive(Clone, Copy, Debug)]
pub(crate) enum Call {
    Write {
        area: u8,
        at: u64,
        from: usize,
        len: usize,
    },
    Cut {
        area: u8,
        len: u64,
    },
    /// A sync, and whether it was one.
    Sync {
        ok: bool,
    },
}
