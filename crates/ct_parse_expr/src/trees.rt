//! What the rules make of their parts.

ghost use Rattle.std.specs.Prelude.{◌≡◌, ◌∷◌, IfOk};
ghost use Rattle.ct_parse_expr.specs.Grammar as spec;

use crate::level::Test;
use ct_grammar::Kind;
use ct_types::{ColumnName, Comparison, Expr, List, Memory, Term, Text};
use sqlite_items::{Boxed, Items};
use std::alloc::Global;

/// The list with one item more before it.
pub fn with_first<T: Drop>(first: T, more: List<T>) -> Result<List<T>, Memory>
    ensures { IfOk result (λ all. all ≡ first ∷ more) }
{
    let mut items = more.into_vec();
    items.insert(0, first)?;
    Ok(List::from_vec(items))
}

/// The same list, as trees hold it where they lead back to themselves.
pub fn in_tree<T>(items: List<T>) -> Items<T>
    ensures { result ≡ items }
{
    Items::from_vec(items.into_vec())
}

/// A column's name, by its parts.
pub fn column_of(first: Text, second: Option<Text>) -> ColumnName
    ensures { result ≡ spec.column_of first second }
{
    match second {
        None => ColumnName {
            source: None,
            column: first,
        },
        Some(column) => ColumnName {
            source: Some(first),
            column,
        },
    }
}

/// Both in boxes.
fn two_boxes<T: Drop>(alloc: Global, first: T, second: T) -> Result<(Boxed<T>, Boxed<T>), Memory>
    ensures { IfOk result (λ boxes. (boxes.0 ≡ first) × (boxes.1 ≡ second)) }
{
    let first = Boxed::new(alloc, first)?;
    let second = Boxed::new(alloc, second)?;
    Ok((first, second))
}

/// A call with one argument, by the function's word.
pub fn call_one(alloc: Global, word: Kind, value: Expr) -> Result<Expr, Memory>
    ensures { IfOk result (λ call. call ≡ spec.call_one word value) }
{
    let value = Boxed::new(alloc, value)?;
    match word {
        Kind::ObjectId => Ok(Expr::ObjectId(value)),
        _ => Ok(Expr::MinValidVersion(value)),
    }
}

/// A call with two arguments, by the function's word.
pub fn call_two(alloc: Global, word: Kind, first: Expr, second: Expr) -> Result<Expr, Memory>
    ensures { IfOk result (λ call. call ≡ spec.call_two word first second) }
{
    let (first, second) = two_boxes(alloc, first, second)?;
    match word {
        Kind::IsNull => Ok(Expr::IfNull(first, second)),
        _ => Ok(Expr::IsColumnInMask(first, second)),
    }
}

/// An operand of a sum after the first, by the sign before it.
pub fn term_of(sign: Kind, value: Expr) -> Term
    ensures { result ≡ spec.term_of sign value }
{
    Term {
        subtracts: is_minus(sign),
        value,
    }
}

fn is_minus(sign: Kind) -> bool
    ensures { result ≡ spec.is_minus sign }
{
    match sign {
        Kind::Minus => true,
        _ => false,
    }
}

/// The operator of a comparison, by its sign.
pub fn comparison_of(sign: Kind) -> Comparison
    ensures { result ≡ spec.comparison_of sign }
{
    match sign {
        Kind::Equal => Comparison::Equal,
        Kind::Less => Comparison::Less,
        Kind::AtMost => Comparison::AtMost,
        Kind::More => Comparison::More,
        Kind::AtLeast => Comparison::AtLeast,
        _ => Comparison::NotEqual,
    }
}

/// The test that IS makes, by whether NOT is written.
pub fn null_test(denied: Option<()>) -> Test
    ensures { result ≡ spec.null_test denied }
{
    match denied {
        None => Test::Null,
        Some(_) => Test::NotNull,
    }
}

/// A sum, with the test behind it if there is one.
pub fn tested(alloc: Global, left: Expr, behind: Option<Test>) -> Result<Expr, Memory>
    ensures { IfOk result (λ value. value ≡ spec.tested left behind) }
{
    match behind {
        None => Ok(left),
        Some(Test::Compared(operator, right)) => {
            let (left, right) = two_boxes(alloc, left, right)?;
            Ok(Expr::Compare(operator, left, right))
        }
        Some(Test::Null) => Ok(Expr::IsNull(Boxed::new(alloc, left)?)),
        Some(Test::NotNull) => Ok(Expr::IsNotNull(Boxed::new(alloc, left)?)),
    }
}
