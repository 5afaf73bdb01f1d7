use ct_types::{List, Text};

/// What a script asks for: phases, one after the other. There is at least one.
#[derive(Debug, Drop)]
pub struct Script {
    /// The phases; a phase may have no statement.
    pub phases: List<Phase>,
}

/// What stands between two lines that begin with `#`.
#[derive(Debug, Drop)]
pub struct Phase {
    /// Whether the server is closed and opened before it. No directive asks for that yet.
    pub restart: bool,
    /// The lanes of the sessions that it names, in the order in which it names them.
    pub sessions: List<Lane>,
}

/// The statements of one session in one phase.
#[derive(Debug, Drop)]
pub struct Lane {
    /// The session, from 1 to 32.
    pub session: u8,
    /// The number of its first statement here. They are counted from 1 over the whole script, each session for itself.
    pub first: u32,
    /// The texts of the statements, in order; there is at least one.
    pub statements: List<Text>,
}
