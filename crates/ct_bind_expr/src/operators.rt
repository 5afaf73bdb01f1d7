ghost use Rattle.std.specs.Prelude.{◌≡◌, Ok};
ghost use Rattle.ct_types.specs.Answers.{Gives};
ghost use Rattle.ct_bind_expr.specs.Places.{of_kind as judged};
ghost use Rattle.ct_bind_expr.specs.Walk as spec;
ghost use Rattle.ct_bind_expr.specs.Walked.{of_one, of_two, of_three};

use crate::kinds::{any_value, go_together, of_kind};
use crate::made::{boxed, boxed_together, joined};
use crate::place::{Typed, Walked};
use ct_bind_kinds::{Kind, either};
use ct_bind_names::literal;
use ct_types::{Bin, BoundExpr, Comparison, Copies, Refusal, Text};
use sqlite_items::Boxed;
use std::alloc::Global;

fn number(expr: BoundExpr) -> Typed
    ensures { result ≡ record { expr = expr; kind = Kind.Number } }
{
    Typed {
        expr,
        kind: Kind::Number,
    }
}

fn condition(expr: BoundExpr) -> Typed
    ensures { result ≡ record { expr = expr; kind = Kind.Condition } }
{
    Typed {
        expr,
        kind: Kind::Condition,
    }
}

/// An operand of this kind, in a box.
fn boxed_as(alloc: Global, wanted: Kind, it: Typed) -> Result<Boxed<BoundExpr>, Refusal>
    ensures { Gives (judged wanted it) result }
{
    let expr = of_kind(wanted, it)?;
    boxed(alloc, expr)
}

#[tactic(auto, unfolding(crate::specs::Walk::min_valid_version))]
pub(crate) fn min_valid_version(alloc: Global, table: Walked) -> Walked
    ensures { Gives (of_one spec.min_valid_version table) result }
{
    let table = boxed_as(alloc, Kind::Number, table?)?;
    Ok(number(BoundExpr::MinValidVersion(table)))
}

#[tactic(auto, unfolding(crate::specs::Walk::is_column_in_mask))]
pub(crate) fn is_column_in_mask(alloc: Global, column: Walked, mask: Walked) -> Walked
    ensures { Gives (of_two spec.is_column_in_mask column mask) result }
{
    let (column, mask) = joined(column, mask)?;
    let (column, mask) = joined(
        boxed_as(alloc, Kind::Number, column),
        boxed_as(alloc, Kind::Bytes, mask),
    )?;
    Ok(number(BoundExpr::IsColumnInMask(column, mask)))
}

#[tactic(auto, unfolding(crate::specs::Walk::object_id))]
pub(crate) fn object_id(alloc: Global, name: Walked) -> Walked
    ensures { Gives (of_one spec.object_id name) result }
{
    let name = boxed_as(alloc, Kind::Text, name?)?;
    Ok(number(BoundExpr::ObjectId(name)))
}

pub(crate) fn column_property(
    alloc: Global,
    table: Walked,
    column: Walked,
    property: Walked,
) -> Walked
    ensures { Gives (of_three spec.column_property table column property) result }
{
    let (table, (column, property)) = joined(table, joined(column, property))?;
    property_of_column(alloc, table, column, property)
}

#[tactic(auto, unfolding(crate::specs::Walk::column_property))]
fn property_of_column(
    alloc: Global,
    table: Typed,
    column: Typed,
    property: Typed,
) -> Result<Typed, Refusal>
    ensures { Gives (spec.column_property table column property) result }
{
    let table = boxed_as(alloc, Kind::Number, table);
    let names = joined(
        boxed_as(alloc, Kind::Text, column),
        boxed_as(alloc, Kind::Text, property),
    );
    let (table, (column, property)) = joined(table, names)?;
    Ok(number(BoundExpr::ColumnProperty(table, column, property)))
}

#[tactic(auto, unfolding(crate::specs::Walk::if_null))]
pub(crate) fn if_null(alloc: Global, value: Walked, instead: Walked) -> Walked
    ensures { Gives (of_two spec.if_null value instead) result }
{
    let (value, instead) = joined(value, instead)?;
    let is_meant = go_together(value.kind, instead.kind);
    let kind = either(value.kind, instead.kind);
    let (value, instead) = boxed_together(alloc, is_meant, value.expr, instead.expr)?;
    Ok(Typed {
        expr: BoundExpr::IfNull(value, instead),
        kind,
    })
}

#[tactic(auto, unfolding(crate::specs::Walk::negative))]
pub(crate) fn negative(alloc: Global, operand: Walked) -> Walked
    ensures { Gives (of_one spec.negative operand) result }
{
    let operand = boxed_as(alloc, Kind::Number, operand?)?;
    Ok(number(BoundExpr::Negative(operand)))
}

#[tactic(auto, unfolding(crate::specs::Walk::compare))]
pub(crate) fn compare(alloc: Global, operator: Comparison, left: Walked, right: Walked) -> Walked
    ensures { Gives (of_two (spec.compare operator) left right) result }
{
    let (left, right) = joined(left, right)?;
    let is_meant = go_together(left.kind, right.kind);
    let (left, right) = boxed_together(alloc, is_meant, left.expr, right.expr)?;
    Ok(condition(BoundExpr::Compare(operator, left, right)))
}

#[tactic(auto, unfolding(crate::specs::Walk::is_null))]
pub(crate) fn is_null(alloc: Global, operand: Walked) -> Walked
    ensures { Gives (of_one spec.is_null operand) result }
{
    let operand = any_value(operand?)?;
    Ok(condition(BoundExpr::IsNull(boxed(alloc, operand)?)))
}

#[tactic(auto, unfolding(crate::specs::Walk::is_not_null))]
pub(crate) fn is_not_null(alloc: Global, operand: Walked) -> Walked
    ensures { Gives (of_one spec.is_not_null operand) result }
{
    let operand = any_value(operand?)?;
    Ok(condition(BoundExpr::IsNotNull(boxed(alloc, operand)?)))
}

#[tactic(auto, unfolding(crate::specs::Walk::negated))]
pub(crate) fn negated(alloc: Global, operand: Walked) -> Walked
    ensures { Gives (of_one spec.negated operand) result }
{
    let operand = boxed_as(alloc, Kind::Condition, operand?)?;
    Ok(condition(BoundExpr::Not(operand)))
}

#[tactic(auto, unfolding(crate::specs::Walk::number_literal))]
pub(crate) fn number_literal(digits: &Text) -> Walked
    ensures { result ≡ spec.number_literal digits.now }
{
    let value = literal(digits)?;
    Ok(number(BoundExpr::Number(value)))
}

pub(crate) fn text_literal(alloc: Global, text: &Text) -> Walked
    ensures { Gives (Ok (spec.text_typed text.now)) result }
{
    Ok(Typed {
        expr: BoundExpr::Text(text.copy(alloc)?),
        kind: Kind::Text,
    })
}

pub(crate) fn bytes_literal(alloc: Global, bytes: &Bin) -> Walked
    ensures { Gives (Ok (spec.bytes_typed bytes.now)) result }
{
    Ok(Typed {
        expr: BoundExpr::Bytes(bytes.copy(alloc)?),
        kind: Kind::Bytes,
    })
}
