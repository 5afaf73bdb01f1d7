/// What is told before and after each statement, by its session and its number there. This project's own.
pub trait Gate {
    /// A statement is about to run.
    fn before(&self, session: u8, number: u32);

    /// The statement has run.
    fn after(&self, session: u8, number: u32);
}

/// A gate that does nothing.
#[derive(Clone, Copy, Debug)]
pub struct NoGate;

impl Gate for NoGate {
    fn before(&self, _session: u8, _number: u32) {}

    fn after(&self, _session: u8, _number: u32) {}
}
