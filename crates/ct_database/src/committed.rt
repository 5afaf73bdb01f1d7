/// What `sys.dm_tran_commit_table` shows of a commit.
#[derive(Clone, Copy, Debug)]
pub struct Committed {
    pub version: u64,
    /// The number of the transaction.
    pub xdes: u64,
    /// The time of the commit, in seconds.
    pub time: u64,
}
