//! Names, and lists of them.

ghost use Rattle.std.specs.Prelude.{◌≡◌, [], ◌∷◌, ◌++◌};
ghost use Rattle.ct_grammar.specs.Reading.{Reads, guard, need, option};
ghost use Rattle.ct_grammar.specs.declared.kind.Kind.TheVariants as k;
ghost use Rattle.ct_parse_expr.specs.Nests.{Nests};
ghost use Rattle.ct_parse_expr.specs.ReadExpr as spec;
ghost use Rattle.ct_parse_expr.specs.declared.level.Entry.TheVariants.{Whole};

use crate::hold::{beside, then_skip};
use crate::trees::{column_of, with_first};
use ct_grammar::{Cursor, Fault, Kind, maybe_second, read_many};
use ct_types::{Expr, List, Text};
use std::alloc::Global;

/// Another name of what stands before it.
#[tactic(auto, unfolding(crate::specs::ReadExpr::alias))]
pub fn alias(alloc: Global, tokens: &mut Cursor<'_>) -> Result<Text, Fault>
    ensures { Reads (spec.alias tokens.old) result tokens.new }
{
    tokens.skip_if(Kind::As)?;
    tokens.name(alloc)
}

#[tactic(auto, unfolding(crate::specs::ReadExpr::next_name))]
fn next_name(alloc: Global, tokens: &mut Cursor<'_>) -> Result<Text, Fault>
    ensures { Reads (spec.next_name tokens.old) result tokens.new }
{
    tokens.skip(Kind::Comma)?;
    tokens.name(alloc)
}

#[tactic(auto, unfolding(crate::specs::ReadExpr::more_names))]
fn more_names(alloc: Global, tokens: &mut Cursor<'_>) -> Result<List<Text>, Fault>
    ensures { Reads (spec.more_names tokens.old) result tokens.new }
{
    read_many(alloc, tokens, &[Kind::Comma], |tokens: &mut Cursor<'_>| {
        next_name(alloc, tokens)
    })
}

/// Names in brackets.
#[tactic(auto, unfolding(crate::specs::ReadExpr::name_list))]
pub fn name_list(alloc: Global, tokens: &mut Cursor<'_>) -> Result<List<Text>, Fault>
    ensures { Reads (spec.name_list tokens.old) result tokens.new }
{
    tokens.skip(Kind::Open)?;
    let first = tokens.name(alloc)?;
    let more = more_names(alloc, tokens);
    let (first, more) = beside(first, more)?;
    let names = with_first(first, more)?;
    then_skip(names, tokens, Kind::Close)
}

#[tactic(auto, unfolding(crate::specs::ReadExpr::column))]
pub fn column(alloc: Global, tokens: &mut Cursor<'_>) -> Result<Expr, Fault>
    ensures { Reads (spec.column tokens.old) result tokens.new }
{
    let first = tokens.name(alloc)?;
    let second = maybe_second(alloc, tokens);
    let (first, second) = beside(first, second)?;
    Ok(Expr::Column(column_of(first, second)))
}
