//! Chains, sums and tuples, whose parts are walked one by one.

ghost use Rattle.std.specs.Prelude.{◌≡◌};
ghost use Rattle.ct_types.specs.Answers.{Gives};
ghost use Rattle.ct_bind_expr.specs.Walked.{alone_in_sum, as_many as counted, asked, asked_term, begun, begun_sum, extended as one_more, made_of, of_chain, of_sum, two_asked};

use crate::kinds::of_kind;
use crate::made::{alone, boxed, extended, joined, pair};
use crate::place::{Typed, Walked};
use ct_bind_kinds::Kind;
use ct_bind_names::place_after;
use ct_types::{BoundExpr, BoundTerm, List, Refusal};
use sqlite_items::Items;
use std::alloc::Global;

/// An operand of this kind.
fn operand(wanted: Kind, answer: Walked) -> Result<BoundExpr, Refusal>
    ensures { result ≡ asked wanted answer }
{
    of_kind(wanted, answer?)
}

/// The operands so far, and one more of this kind.
pub(crate) fn with_operand(
    made: List<BoundExpr>,
    wanted: Kind,
    answer: Walked,
) -> Result<List<BoundExpr>, Refusal>
    ensures { Gives (one_more made (asked wanted answer)) result }
{
    extended(made, operand(wanted, answer))
}

/// An operand of a sum after the first.
fn term(subtracts: bool, answer: Walked) -> Result<BoundTerm, Refusal>
    ensures { result ≡ asked_term subtracts answer }
{
    let value = operand(Kind::Number, answer)?;
    Ok(BoundTerm { subtracts, value })
}

/// The operands of a sum so far, and one more.
pub(crate) fn with_term(
    made: List<BoundTerm>,
    subtracts: bool,
    answer: Walked,
) -> Result<List<BoundTerm>, Refusal>
    ensures { Gives (one_more made (asked_term subtracts answer)) result }
{
    extended(made, term(subtracts, answer))
}

/// The first two operands, of this kind, which are walked before the first operator is tested.
#[tactic(auto, unfolding(crate::specs::Walk::both_of_kind))]
fn two_operands(
    wanted: Kind,
    left: Walked,
    right: Walked,
) -> Result<(BoundExpr, BoundExpr), Refusal>
    ensures { result ≡ two_asked wanted left right }
{
    let (left, right) = joined(left, right)?;
    joined(of_kind(wanted, left), of_kind(wanted, right))
}

/// The first two operands of a chain.
pub(crate) fn first_two(
    alloc: Global,
    wanted: Kind,
    left: Walked,
    right: Walked,
) -> Result<List<BoundExpr>, Refusal>
    ensures { Gives (made_of begun (two_asked wanted left right)) result }
{
    let (left, right) = two_operands(wanted, left, right)?;
    pair(alloc, left, right)
}

/// The first two operands of a sum.
pub(crate) fn first_terms(
    alloc: Global,
    subtracts: bool,
    left: Walked,
    right: Walked,
) -> Result<(BoundExpr, List<BoundTerm>), Refusal>
    ensures { Gives (made_of (begun_sum subtracts) (two_asked Kind.Number left right)) result }
{
    let (left, value) = two_operands(Kind::Number, left, right)?;
    joined(Ok(left), alone(alloc, BoundTerm { subtracts, value }))
}

/// The one operand of a sum.
pub(crate) fn only_term(
    alloc: Global,
    answer: Walked,
) -> Result<(BoundExpr, List<BoundTerm>), Refusal>
    ensures { result ≡ made_of alone_in_sum (asked Kind.Number answer) }
{
    let first = operand(Kind::Number, answer)?;
    Ok((first, List::new(alloc)))
}

/// CountClash, unless there are as many values as were wanted.
pub(crate) fn as_many(wanted: usize, got: usize) -> Result<(), Refusal>
    ensures { Gives (counted wanted got) result }
{
    if got != wanted {
        return Err(Refusal::CountClash {
            wanted: place_after(0, wanted)?,
            got: place_after(0, got)?,
        });
    }
    Ok(())
}

/// A product.
pub(crate) fn product(operands: Result<List<BoundExpr>, Refusal>) -> Walked
    ensures { result ≡ of_chain Kind.Number BoundExpr.Product operands }
{
    let factors = Items::from_vec(operands?.into_vec());
    Ok(Typed {
        expr: BoundExpr::Product(factors),
        kind: Kind::Number,
    })
}

/// A conjunction.
pub(crate) fn conjunction(operands: Result<List<BoundExpr>, Refusal>) -> Walked
    ensures { result ≡ of_chain Kind.Condition BoundExpr.And operands }
{
    let operands = Items::from_vec(operands?.into_vec());
    Ok(Typed {
        expr: BoundExpr::And(operands),
        kind: Kind::Condition,
    })
}

/// A disjunction.
pub(crate) fn disjunction(operands: Result<List<BoundExpr>, Refusal>) -> Walked
    ensures { result ≡ of_chain Kind.Condition BoundExpr.Or operands }
{
    let operands = Items::from_vec(operands?.into_vec());
    Ok(Typed {
        expr: BoundExpr::Or(operands),
        kind: Kind::Condition,
    })
}

/// A sum.
pub(crate) fn sum(alloc: Global, operands: Result<(BoundExpr, List<BoundTerm>), Refusal>) -> Walked
    ensures { Gives (of_sum operands) result }
{
    let (first, more) = operands?;
    let (more, first) = joined(Ok(more), boxed(alloc, first))?;
    Ok(Typed {
        expr: BoundExpr::Sum(first, Items::from_vec(more.into_vec())),
        kind: Kind::Number,
    })
}
