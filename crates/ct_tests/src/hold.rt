/// Lets go of a value at once, so that it is not held across a return.
pub(crate) fn let_go<T: Drop>(_held: T) {}
