/// What a line is, by its bytes alone.
#[derive(Clone, Copy, Debug, PartialEq, Eq)]
pub enum Kind {
    /// Empty, blanks alone, or a comment.
    Ignored,
    /// `#phase`, which ends a phase and begins another.
    Mark,
    /// It begins a statement of this session.
    Head(u8),
    /// It continues the statement before it.
    More,
    /// It breaks this rule, and no lesser one.
    Fault(u8),
}
