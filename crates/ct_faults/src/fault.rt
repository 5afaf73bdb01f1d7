/// A call of the outside failed: a read, a write or a call of a disk. Its object's count of faults rose.
#[derive(Clone, Copy, Debug, PartialEq, Eq)]
pub struct Failed;

/// A write to a sink failed, so not all bytes were appended. The sink's count of faults rose.
#[derive(Clone, Copy, Debug, PartialEq, Eq)]
pub struct WriteFault;

/// A call of a disk failed in the course of a larger step. The disk's count of faults rose.
#[derive(Clone, Copy, Debug, PartialEq, Eq)]
pub struct DiskFault;

impl From<Failed> for WriteFault {
    fn from(_: Failed) -> WriteFault {
        WriteFault
    }
}

impl From<Failed> for DiskFault {
    fn from(_: Failed) -> DiskFault {
        DiskFault
    }
}
