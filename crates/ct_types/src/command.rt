use crate::{Refusal, Reply, Stmt, Text};

/// What a statement of a session asks for: a sentence of the language, a text that is none, or a command of a script, which
/// begins with `@`. The commands are this project's own.
#[derive(Debug, Drop)]
pub enum Command {
    /// A sentence of the language.
    Sql(Stmt),
    /// A text that is none, with the refusal that its tokens or the grammar give.
    Wrong(Refusal),
    /// The clock goes on by so many seconds.
    Advance(u64),
    /// Cleanup raises the minima of tables that are too old by the retention.
    Raise,
    /// Cleanup takes out so many tracked changes, at most, that nobody may ask for any more.
    Sweep(u64),
    /// A checkpoint is begun.
    CheckpointBegin,
    /// The next piece of the open checkpoint is written.
    CheckpointPiece,
    /// The open checkpoint is written to its end.
    CheckpointFinish,
    /// A client, from 1 to 32, brings its copy of a table up to date: a look and a pull in one.
    Sync { client: u8, table: Text },
    /// A client takes a view of a table, from which it may pull.
    Look { client: u8, table: Text },
    /// A client brings its copy up to date from the view that it took.
    Pull { client: u8, table: Text },
    /// A client shows its copy of a table.
    Copy { client: u8, table: Text },
}

/// A statement of a session, by its number there, with its reply.
#[derive(Debug, Drop)]
pub struct Journaled {
    /// From 1 to 32.
    pub session: u8,
    /// Counted from 1 for each session over the whole script.
    pub number: u32,
    pub what: Command,
    pub reply: Reply,
}
