/// A side of a join.
#[derive(Clone, Copy)]
pub(crate) enum Side {
    Left,
    Right,
}
