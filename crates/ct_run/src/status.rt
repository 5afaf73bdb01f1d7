/// How a call of the program ends. The numbers are this project's own.
#[derive(Clone, Copy, Debug, PartialEq, Eq)]
pub enum Status {
    /// The script was read to its end, and the whole transcript was written.
    Done,
    /// The words are none that the program knows.
    Usage,
    /// The source gave no script.
    BadScript,
    /// A read of the source failed.
    ReadFault,
    /// A write to the sink failed.
    WriteFault,
    /// A call of the disk failed.
    DiskFault,
    /// The disk holds something else than a database of this program.
    Foreign,
    /// Want of memory.
    Memory,
    /// The source has more bytes than a script may have.
    TooLarge,
}

impl Status {
    ghost use Rattle.std.specs.Prelude.{◌≡◌};
    ghost use Rattle.ct_run.specs.Top.{code_of};

    /// The number of a status, with which a program ends.
    pub fn code(self) -> u8
        ensures { result ≡ code_of self }
    {
        self as u8
    }
}
