//! The laws of the causes of refusals: whatever binding refuses has the cause that its refusal names, and a statement that is bound has none.
//! So binding refuses only its own. Of a column that is not there or ambiguous, and of kinds that clash, no cause is stated.
#![tactic(auto)]

mod laws;

pub use laws::{bound_have_no_cause, refusals_have_causes, refuses_only_its_own};
