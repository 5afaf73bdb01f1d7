ghost use Rattle.std.specs.Prelude.{◌≡◌};
ghost use Rattle.ct_grammar.specs.Reading.{Callable, Follows, Reader, Reads, repeat, until_last};

use crate::{Cursor, Fault, Kind};
use ct_types::List;
use std::alloc::Global;

/// What a turn of `read_until` found: an item, or what ends the items.
#[derive(Debug, Drop)]
pub enum Turn<A, B> {
    More(A),
    Last(B),
}

/// Reads a rule as often as the next token is of the set by which the rule begins.
pub fn read_many<T: Drop, P: Fn(&mut Cursor<'_>) -> Result<T, Fault>>(
    alloc: Global,
    tokens: &mut Cursor<'_>,
    set: &[Kind],
    read: P,
) -> Result<List<T>, Fault>
    requires { Callable (P.pre read) }
    ensures { (p : Reader T) → Follows p (P.post read) → Reads (repeat set.now p tokens.old) result tokens.new }
{
    let mut found = List::new(alloc);
    for _turn in 0..tokens.left() {
        if !tokens.sees(set) {
            return Ok(found);
        }
        found.push(read(tokens)?)?;
    }
    Ok(found)
}

/// Reads turns as often as the next token is of the set by which they begin, up to one that ends the items.
pub fn read_until<A: Drop, B: Drop, P: Fn(&mut Cursor<'_>) -> Result<Turn<A, B>, Fault>>(
    alloc: Global,
    tokens: &mut Cursor<'_>,
    set: &[Kind],
    read: P,
) -> Result<(List<A>, Option<B>), Fault>
    requires { Callable (P.pre read) }
    ensures { (p : Reader (Turn A B)) → Follows p (P.post read) → Reads (until_last set.now p tokens.old) result tokens.new }
{
    let mut found = List::new(alloc);
    for _turn in 0..tokens.left() {
        if !tokens.sees(set) {
            return Ok((found, None));
        }
        match read(tokens)? {
            Turn::More(item) => found.push(item)?,
            Turn::Last(last) => return Ok((found, Some(last))),
        }
    }
    Ok((found, None))
}
