//! What the rules of the language are made of: kinds of tokens, a cursor over them, the laws of reading them, and the rule
//! of a table's name.
#![tactic(auto)]

mod cursor;
mod fault;
mod kind;
mod kinded;
mod law;
mod names;
mod repeats;
mod words;

pub use cursor::{Cursor, NAMES, NUMBERS, has};
pub use fault::Fault;
pub use kind::{Kind, kind_of};
pub use kinded::{Kinded, with_kinds};
pub use law::one_name;
pub use names::{maybe_second, table_name, text_name};
pub use repeats::{Turn, read_many, read_until};
