//! The state of the machine, as definitions: the entries and the sessions, what a statement sees, who holds a key, and what conflicts with
//! a view. It has no code.
