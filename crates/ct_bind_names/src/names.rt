ghost use Rattle.std.specs.Prelude.{◌≡◌, ◌++◌, codes, IfOk};
ghost use Rattle.ct_bind_names.specs.Names as spec;

use ct_types::{Memory, ObjectName, Text};
use std::alloc::Global;

/// Whether two names are the same, with ASCII letters folded.
#[tactic(auto, unfolding(crate::specs::Names::same))]
pub fn same_name(a: &str, b: &str) -> bool
    ensures { result ≡ spec.same a.now b.now }
{
    a.eq_ignore_ascii_case(b)
}

/// Whether the name is one of these, with ASCII letters folded.
#[tactic(auto, unfolding(crate::specs::Names::is_among))]
pub fn is_among(name: &Text, names: &[Text]) -> bool
    ensures { result ≡ spec.is_among name.now names.now }
{
    names
        .iter()
        .any(|other| same_name(name.as_str(), other.as_str()))
}

/// The place of the name among these, counted from 0.
#[tactic(auto, unfolding(crate::specs::Names::place_of))]
pub fn place_of(name: &Text, names: &[Text]) -> Option<usize>
    ensures { result ≡ spec.place_of name.now names.now }
{
    names
        .iter()
        .position(|other| same_name(name.as_str(), other.as_str()))
}

fn join(alloc: Global, first: &str, second: &str) -> Result<Text, Memory>
    ensures { IfOk result (λ made. made ≡ first.now ++ codes "." ++ second.now) }
{
    let string = format!(in alloc; "{first}.{second}")?;
    Ok(Text::from_string(string))
}

/// The name of a table: two parts have a full stop between them, and `dbo.` is dropped.
#[tactic(auto, unfolding(crate::specs::Names::table_name))]
pub fn table_name(alloc: Global, name: &ObjectName) -> Result<Text, Memory>
    ensures { IfOk result (λ made. made ≡ spec.table_name name.now) }
{
    let first = name.first.as_str();
    match &name.second {
        None => Text::of(alloc, first),
        Some(second) => {
            let second = second.as_str();
            if same_name(first, "dbo") {
                Text::of(alloc, second)
            } else {
                join(alloc, first, second)
            }
        }
    }
}

/// The last part of a table's name, as it is written.
#[tactic(auto, unfolding(crate::specs::Names::last_part))]
pub fn last_part(name: &ObjectName) -> &Text
    ensures { result.now ≡ spec.last_part name.now }
{
    match &name.second {
        None => &name.first,
        Some(second) => second,
    }
}
