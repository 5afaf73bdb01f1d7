ghost use Rattle.std.specs.Prelude.{◌≡◌, ◌∷◌, [], ◌++◌, map, Some, Ok, IfOk, OnOk};
ghost use Rattle.std.specs.List.{cons_option};
ghost use Rattle.ct_types.specs.Answers.{Gives};
ghost use Rattle.ct_bind_expr.specs.Walked.{both, extended as one_more, meant, together, Takes, TakesFrom};

use ct_types::{List, Memory, Refusal, push};
use sqlite_items::{Boxed, Items};
use std::alloc::Global;

/// Both values, or the first refusal.
pub(crate) fn joined<A: Drop, B: Drop>(
    first: Result<A, Refusal>,
    second: Result<B, Refusal>,
) -> Result<(A, B), Refusal>
    ensures { result ≡ both first second }
{
    let first = first?;
    let second = second?;
    Ok((first, second))
}

/// The value, where the test holds: TypeClash elsewhere.
pub(crate) fn where_meant<T: Drop>(is_meant: bool, value: T) -> Result<T, Refusal>
    ensures { result ≡ meant is_meant value }
{
    if is_meant {
        Ok(value)
    } else {
        Err(Refusal::TypeClash)
    }
}

/// The items, and one more at the end.
pub(crate) fn extended<T: Drop>(made: List<T>, item: Result<T, Refusal>) -> Result<List<T>, Refusal>
    ensures { Gives (one_more made item) result }
{
    let mut made = made;
    push(&mut made, item?)?;
    Ok(made)
}

fn in_box<T: Drop>(alloc: Global, value: T) -> Result<Boxed<T>, Memory>
    ensures { IfOk result (λ made. made ≡ value) }
{
    Ok(Boxed::new(alloc, value)?)
}

/// The value in a box.
pub(crate) fn boxed<T: Drop>(alloc: Global, value: T) -> Result<Boxed<T>, Refusal>
    ensures { Gives (Ok value) result }
{
    Ok(in_box(alloc, value)?)
}

/// Two values in boxes, where they go together: TypeClash elsewhere.
pub(crate) fn boxed_together<T: Drop>(
    alloc: Global,
    is_meant: bool,
    left: T,
    right: T,
) -> Result<(Boxed<T>, Boxed<T>), Refusal>
    ensures { Gives (together is_meant left right) result }
{
    let (left, right) = where_meant(is_meant, (left, right))?;
    joined(boxed(alloc, left), boxed(alloc, right))
}

/// One item.
pub(crate) fn alone<T: Drop>(alloc: Global, only: T) -> Result<List<T>, Refusal>
    ensures { Gives (Ok (only ∷ [])) result }
{
    extended(List::new(alloc), Ok(only))
}

/// Two items.
pub(crate) fn pair<T: Drop>(alloc: Global, left: T, right: T) -> Result<List<T>, Refusal>
    ensures { Gives (Ok (left ∷ right ∷ [])) result }
{
    extended(alone(alloc, left)?, Ok(right))
}

/// Adds an item, if there is one.
pub(crate) fn add_some<T: Drop>(made: &mut Items<T>, item: Option<T>) -> Result<(), Memory>
    ensures { OnOk result (made.new ≡ made.old ++ cons_option item []) }
{
    match item {
        Some(item) => Ok(made.push(item)?),
        None => Ok(()),
    }
}

/// The items, each of which can be taken from its place.
pub(crate) fn takeable<T: Drop>(alloc: Global, items: List<T>) -> Result<Vec<Option<T>>, Memory>
    ensures { IfOk result (λ made. made.items ≡ map Some items) }
{
    let mut made = Vec::new(alloc);
    for item in items.into_vec() {
        made.push(Some(item))?;
    }
    Ok(made)
}

/// The item at this place, if there is one, which is left empty. An item that is taken twice is want of memory: no
/// statement that is bound takes one so.
fn taken<T: Drop>(left: &mut Vec<Option<T>>, at: usize) -> Result<Option<T>, Memory>
    ensures { IfOk result (λ item. Takes left.old.items at item left.new.items) }
{
    if at >= left.len() {
        return Ok(None);
    }
    match left[at].take() {
        Some(item) => Ok(Some(item)),
        None => Err(Memory),
    }
}

/// The item at a place, if the place is known.
pub(crate) fn taken_from<T: Drop>(
    left: &mut Vec<Option<T>>,
    place: Option<usize>,
) -> Result<Option<T>, Memory>
    ensures { IfOk result (λ item. TakesFrom place left.old.items item left.new.items) }
{
    match place {
        None => Ok(None),
        Some(at) => taken(left, at),
    }
}
