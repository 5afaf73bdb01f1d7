//! Expressions with their names bound and their kinds tested.
#![tactic(auto)]

mod chains;
mod columns;
mod kinds;
mod made;
mod operators;
mod place;
mod versions;
mod walk;

pub use kinds::{any_value, of_kind};
pub use place::{Output, Place, Shape, Shown, Spot, Typed, Walked};
pub use versions::key_columns;
pub use walk::Binder;
