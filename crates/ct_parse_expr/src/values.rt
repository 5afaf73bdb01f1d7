//! The rules that statements ask for, over expressions of at most so many levels less one.

ghost use Rattle.ct_parse_expr.specs.ReadExpr as spec;
ghost use Rattle.ct_parse_expr.specs.declared.level.Entry.TheVariants.{Whole};
ghost use Rattle.ct_grammar.specs.Reading.{Reads};

use crate::level::{Entry, Parser};
use crate::operators::expr;
use ct_grammar::{Cursor, Fault};
use ct_types::{Expr, RowVersion};
use sqlite_items::Items;
use std::alloc::Global;

/// An expression: `conj {OR conj}`, of the levels NOT, comparison, sum, product, sign and brackets below it.
///
/// Answers `Fault::Syntax` with how many tokens are left from the first one on at which no expression goes on,
/// `Fault::TooDeep` where before that a token goes deeper, and `Fault::Memory`.
pub fn value(alloc: Global, tokens: &mut Cursor<'_>, depth: usize) -> Result<Expr, Fault>
    ensures { Reads (spec.expr depth Whole tokens.old) result tokens.new }
{
    expr(alloc, tokens, depth, Entry::Whole)
}

/// Values in brackets: `"(" expr {"," expr} ")"`. The faults are those of `value`.
pub fn tuple(alloc: Global, tokens: &mut Cursor<'_>, depth: usize) -> Result<Items<Expr>, Fault>
    ensures { Reads (spec.tuple (spec.expr depth) tokens.old) result tokens.new }
{
    Parser { alloc, depth, expr }.tuple(tokens)
}

/// A row's version: `CHANGETABLE "(" VERSION tname "," "(" name {"," name} ")" "," tuple ")"`. The faults are those of
/// `value`.
pub fn version(alloc: Global, tokens: &mut Cursor<'_>, depth: usize) -> Result<RowVersion, Fault>
    ensures { Reads (spec.version (spec.expr depth) tokens.old) result tokens.new }
{
    Parser { alloc, depth, expr }.version(tokens)
}

/// A row's version, from its word VERSION on. The faults are those of `value`.
pub fn version_tail(
    alloc: Global,
    tokens: &mut Cursor<'_>,
    depth: usize,
) -> Result<RowVersion, Fault>
    ensures { Reads (spec.version_tail (spec.expr depth) tokens.old) result tokens.new }
{
    Parser { alloc, depth, expr }.version_tail(tokens)
}
