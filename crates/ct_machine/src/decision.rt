use ct_types::{Act, ColType, List, Refusal, Reply, Text, Value, Write};

/// What a statement of a session comes to.
#[derive(Debug, Drop)]
pub enum Decision {
    /// A refusal, which changes nothing.
    Refuses(Refusal),
    /// A refusal that ends the transaction: its writes are dropped.
    Aborts(Refusal),
    /// An answer. Nothing is written; a SNAPSHOT transaction may take its view.
    Answers(Reply),
    /// An act that commits, with its answer: of a statement by itself, or of the writes of a transaction, which ends.
    Commits(Act, Reply),
    /// Writes that wait for the commit of the transaction, with their answer.
    Pends(List<Write>, Reply),
    /// A transaction begins.
    Begins,
    /// The transaction ends without a commit.
    Ends,
    /// Transactions that begin from now on are SNAPSHOT ones, or READ COMMITTED.
    Isolates(bool),
    /// The variable of this name has this value from now on.
    Sets(Text, Value),
    /// There is a variable of this name and type, with this value.
    Declares(Text, ColType, Value),
}
