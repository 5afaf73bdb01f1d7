ghost use Rattle.std.specs.Prelude.{◌≡◌, ◌≢◌, ◌+◌, ◌++◌, [], map, IfOk, MatchResult};
ghost use Rattle.ct_types.specs.declared.refusal.Refusal.TheVariants.{Memory as no_memory};
ghost use Rattle.ct_types.specs.Answers.{Gives, Adds, each, optional};
ghost use Rattle.ct_bind_expr.specs.Among.{among};
ghost use Rattle.ct_bind_expr.specs.Places.{row_of, any_value as value_of};
ghost use Rattle.ct_bind.specs.Sources.{condition as condition_at};
ghost use Rattle.ct_bind.specs.Queries as spec;

use crate::hold::{demanded, with_held};
use crate::sources::{Joined, join_sources, optional_as};
use ct_bind_expr::{Binder, Output, Place, Shape, Shown, Spot, Typed, any_value};
use ct_bind_kinds::{Kind, is_value};
use ct_bind_names::{place_after, same_name};
use ct_types::{
    BoundExpr, BoundSelect, BoundSource, Copies, Expr, FromClause, Join, List, Memory, OrderBy,
    OrderItem, Plan, Refusal, Select, SelectItem, Text, push,
};
use std::alloc::Global;

/// A bound item of an answer.
#[derive(Drop)]
struct Item {
    /// None where the item has neither an alias nor is a column.
    name: Option<Text>,
    value: Typed,
}

/// What stands behind FROM.
#[derive(Drop)]
struct Parts {
    items: List<Item>,
    /// WHERE
    filter: Option<BoundExpr>,
    /// ORDER BY
    order: List<OrderBy>,
}

/// Adds the columns of a source, whose first one has this place in the row.
#[tactic(auto, unfolding(crate::specs::Queries::columns_from))]
fn push_columns_from(
    alloc: Global,
    made: &mut List<Item>,
    at: u32,
    columns: &[Shown],
) -> Result<(), Memory>
    ensures { IfOk result (λ _. made.new ≡ made.old ++ spec.columns_from at columns.now) }
{
    let mut place = at;
    for column in columns {
        let name = Some(column.name.copy(alloc)?);
        let expr = BoundExpr::Column(place);
        let kind = column.kind;
        let value = Typed { expr, kind };
        push(made, Item { name, value })?;
        place = place_after(place, 1)?;
    }
    Ok(())
}

/// Adds the columns of all sources.
#[tactic(auto, unfolding(crate::specs::Queries::all_columns))]
fn push_all_columns(alloc: Global, made: &mut List<Item>, sources: &[Shape]) -> Result<(), Memory>
    ensures { IfOk result (λ _. made.new ≡ made.old ++ spec.all_columns 0 sources.now) }
{
    let mut at = 0;
    for source in sources {
        let columns = source.columns.as_slice();
        push_columns_from(alloc, made, at, columns)?;
        at = place_after(at, columns.len())?;
    }
    Ok(())
}

/// The name of an item: its alias, or that of a column.
#[tactic(auto, unfolding(crate::specs::Queries::item_name))]
fn item_name(alloc: Global, alias: &Option<Text>, value: &Expr) -> Result<Option<Text>, Memory>
    ensures { IfOk result (λ made. made ≡ spec.item_name alias.now value.now) }
{
    match alias {
        Some(alias) => Ok(Some(alias.copy(alloc)?)),
        None => match value {
            Expr::Column(name) => Ok(Some(name.column.copy(alloc)?)),
            _ => Ok(None),
        },
    }
}

/// The expression with its kind, where it is a value.
fn checked_value(it: Typed) -> Result<Typed, Refusal>
    ensures { MatchResult result (λ made. (value_of it ≡ Ok it.expr) × (made ≡ it)) (λ refusal. value_of it ≡ Err refusal) }
{
    demanded(is_value(it.kind), it)
}

/// An expression that is bound, under the name of its item.
fn named_item(
    alloc: Global,
    alias: &Option<Text>,
    written: &Expr,
    value: Typed,
) -> Result<Item, Memory>
    ensures { IfOk result (λ made. made ≡ spec.item (spec.item_name alias.now written.now) value) }
{
    let (name, value) = with_held(item_name(alloc, alias, written), value)?;
    Ok(Item { name, value })
}

#[tactic(auto, unfolding(crate::specs::Queries::one_item))]
fn push_one(
    binder: &Binder<'_>,
    made: &mut List<Item>,
    place: &Place,
    value: &Expr,
    alias: &Option<Text>,
) -> Result<(), Refusal>
    requires { place.now ≡ row_of place.now.sources }
    ensures { Adds (among binder.now spec.one_item place.now.sources value.now alias.now) made.old result made.new }
{
    let it = binder.walk(place, value)?;
    let bound = checked_value(it)?;
    let item = named_item(binder.alloc, alias, value, bound)?;
    push(made, item)?;
    Ok(())
}

/// Adds the columns of the source of that name: 207 where there is none.
#[tactic(auto, unfolding(crate::specs::Queries::columns_of))]
fn push_source(
    alloc: Global,
    made: &mut List<Item>,
    name: &Text,
    sources: &[Shape],
) -> Result<(), Refusal>
    ensures { Adds (spec.columns_of name.now 0 sources.now) made.old result made.new }
{
    let mut at = 0;
    for source in sources {
        let columns = source.columns.as_slice();
        if same_name(source.name.as_str(), name.as_str()) {
            push_columns_from(alloc, made, at, columns)?;
            return Ok(());
        }
        at = place_after(at, columns.len())?;
    }
    Err(Refusal::NoColumn {
        name: name.copy(alloc)?,
    })
}

/// Adds the bound items that an item gives.
#[tactic(auto, unfolding(crate::specs::Queries::bound_item))]
fn push_item(
    binder: &Binder<'_>,
    made: &mut List<Item>,
    place: &Place,
    item: &SelectItem,
) -> Result<(), Refusal>
    requires { place.now ≡ row_of place.now.sources }
    ensures { Adds (among binder.now spec.bound_item place.now.sources item.now) made.old result made.new }
{
    let sources = place.sources.as_slice();
    match item {
        SelectItem::All => match sources {
            [] => Err(Refusal::TypeClash),
            [_, ..] => Ok(push_all_columns(binder.alloc, made, sources)?),
        },
        SelectItem::AllOf(name) => push_source(binder.alloc, made, name, sources),
        SelectItem::One { value, alias } => push_one(binder, made, place, value, alias),
    }
}

/// The bound items.
#[tactic(auto, unfolding(crate::specs::Queries::items_of), using(crate::proofs::Items::items_onto, crate::proofs::Items::items_stop))]
fn items_of(binder: &Binder<'_>, place: &Place, items: &[SelectItem]) -> Result<List<Item>, Refusal>
    requires { place.now ≡ row_of place.now.sources }
    ensures { Gives (among binder.now spec.items_of place.now.sources items.now) result }
{
    let mut made = List::new(binder.alloc);
    for item in items {
        push_item(binder, &mut made, place, item)?;
    }
    Ok(made)
}

#[tactic(auto, unfolding(crate::specs::Queries::order_by))]
fn order_by(binder: &Binder<'_>, place: &Place, it: &OrderItem) -> Result<OrderBy, Refusal>
    ensures { Gives (among binder.now spec.order_by place.now it.now) result }
{
    let bound = binder.walk(place, &it.value)?;
    let expr = any_value(bound)?;
    Ok(OrderBy {
        expr,
        down: it.descending,
    })
}

#[tactic(auto, using(ct_bind_names::proofs::Walks::each_onto, ct_bind_names::proofs::Walks::each_stops))]
fn each_order_by(
    binder: &Binder<'_>,
    place: &Place,
    order: &[OrderItem],
) -> Result<List<OrderBy>, Refusal>
    ensures { Gives (each (among binder.now spec.order_by place.now) order.now) result }
{
    let mut made = List::new(binder.alloc);
    for it in order {
        let it = order_by(binder, place, it)?;
        push(&mut made, it)?;
    }
    Ok(made)
}

/// A condition, where one is written.
#[tactic(auto, unfolding(crate::specs::Sources::condition, ct_bind_expr::specs::Versions::operand))]
pub(crate) fn filter_of(
    binder: &Binder<'_>,
    place: &Place,
    filter: &Option<Expr>,
) -> Result<Option<BoundExpr>, Refusal>
    ensures { Gives (optional (among binder.now condition_at place.now) filter.now) result }
{
    optional_as(binder, Kind::Condition, place, filter)
}

/// The names of the columns of an answer.
fn names_of(alloc: Global, items: &[Item]) -> Result<List<Text>, Memory>
    ensures { IfOk result (λ made. made ≡ map (λ item. spec.shown_name item.name) items.now) }
{
    let mut made = List::new(alloc);
    for item in items {
        push(&mut made, shown_name(alloc, &item.name)?)?;
    }
    Ok(made)
}

fn shown_name(alloc: Global, name: &Option<Text>) -> Result<Text, Memory>
    ensures { IfOk result (λ made. made ≡ spec.shown_name name.now) }
{
    match name {
        Some(name) => name.copy(alloc),
        None => Text::of(alloc, "(no name)"),
    }
}

fn expr_of(item: Item) -> BoundExpr
    ensures { result ≡ item.value.expr }
{
    item.value.expr
}

/// The values of the columns of an answer.
fn values_of(alloc: Global, items: List<Item>) -> Result<List<BoundExpr>, Memory>
    ensures { IfOk result (λ made. made ≡ map (λ item. item.value.expr) items) }
{
    let mut values = List::new(alloc);
    for item in items.into_vec() {
        push(&mut values, expr_of(item))?;
    }
    Ok(values)
}

fn name_copy(alloc: Global, name: &Option<Text>) -> Result<Option<Text>, Memory>
    ensures { IfOk result (λ made. made ≡ name.now) }
{
    match name {
        Some(name) => Ok(Some(name.copy(alloc)?)),
        None => Ok(None),
    }
}

/// The items as ORDER BY names them, the first of which has this place in the row behind which their values stand.
#[tactic(auto, unfolding(crate::specs::Queries::outputs_from))]
fn outputs_from(alloc: Global, at: u32, items: &[Item]) -> Result<List<Output>, Memory>
    ensures { IfOk result (λ made. made ≡ spec.outputs_from at items.now) }
{
    let mut made = List::new(alloc);
    let mut place = at;
    for item in items {
        let name = name_copy(alloc, &item.name)?;
        let kind = item.value.kind;
        let spot = Spot { place, kind };
        push(&mut made, Output { name, spot })?;
        place = place_after(place, 1)?;
    }
    Ok(made)
}

fn left_width(shapes: &[Shape]) -> Result<u32, Memory>
    ensures { IfOk result (λ width. width ≡ spec.left_width shapes.now) }
{
    match shapes {
        [] => Ok(0),
        [left, ..] => place_after(0, left.columns.as_slice().len()),
    }
}

fn right_width(shapes: &[Shape]) -> Result<u32, Memory>
    ensures { IfOk result (λ width. width ≡ spec.right_width shapes.now) }
{
    match shapes {
        [] => Ok(0),
        [_, more @ ..] => left_width(more),
    }
}

fn from_of(binder: &Binder<'_>, from: &Option<FromClause>) -> Result<Joined, Refusal>
    ensures { Gives (among binder.now spec.from_of from.now) result }
{
    match from {
        None => Ok(Joined {
            left: None,
            right: None,
            join: Join::One,
            on: None,
            shapes: List::new(binder.alloc),
        }),
        Some(from) => join_sources(binder, from),
    }
}

/// The items as ORDER BY names them, behind the row of these sources.
fn outputs_behind(alloc: Global, sources: &[Shape], items: &[Item]) -> Result<List<Output>, Memory>
    ensures { IfOk result (λ made. made ≡ spec.outputs_from (spec.left_width sources.now + spec.right_width sources.now) items.now) }
{
    let (left, right) = widths_of(sources)?;
    let at = place_after(left, right as usize)?;
    outputs_from(alloc, at, items)
}

/// The place of ORDER BY.
fn order_place(alloc: Global, sources: List<Shape>, items: &[Item]) -> Result<Place, Memory>
    ensures { IfOk result (λ made. made ≡ spec.order_place sources items.now) }
{
    let outputs = outputs_behind(alloc, sources.as_slice(), items);
    let (outputs, sources) = with_held(outputs, sources)?;
    Ok(Place {
        is_closed: false,
        sources,
        outputs,
    })
}

/// ORDER BY, behind these items.
fn order_of(
    binder: &Binder<'_>,
    place: Place,
    items: &[Item],
    order: &[OrderItem],
) -> Result<List<OrderBy>, Refusal>
    ensures { Gives (each (among binder.now spec.order_by (spec.order_place place.sources items.now)) order.now) result }
{
    let place = order_place(binder.alloc, place.sources, items)?;
    each_order_by(binder, &place, order)
}

/// What stands behind FROM comes to this.
#[tactic(auto, unfolding(crate::specs::Queries::parts_of))]
fn parts_of(binder: &Binder<'_>, place: Place, it: &Select) -> Result<Parts, Refusal>
    requires { place ≡ row_of place.sources }
    ensures { Gives (among binder.now spec.parts_of place.sources it.now) result }
{
    let items = items_of(binder, &place, it.items.as_slice());
    let (items, place) = with_held(items, place)?;
    let filter = filter_of(binder, &place, &it.condition);
    let (filter, (items, place)) = with_held(filter, (items, place))?;
    let order = order_of(binder, place, items.as_slice(), it.order.as_slice());
    let (order, (items, filter)) = with_held(order, (items, filter))?;
    Ok(Parts {
        items,
        filter,
        order,
    })
}

/// The names of the columns of an answer, and their values.
fn answer_of(alloc: Global, items: List<Item>) -> Result<(List<Text>, List<BoundExpr>), Memory>
    ensures { IfOk result (λ made. (made.0 ≡ map (λ item. spec.shown_name item.name) items) × (made.1 ≡ map (λ item. item.value.expr) items)) }
{
    let (names, items) = with_held(names_of(alloc, items.as_slice()), items)?;
    let (values, names) = with_held(values_of(alloc, items), names)?;
    Ok((names, values))
}

/// The widths of the left source and of the right one.
fn widths_of(shapes: &[Shape]) -> Result<(u32, u32), Memory>
    ensures { IfOk result (λ widths. (widths.0 ≡ spec.left_width shapes.now) × (widths.1 ≡ spec.right_width shapes.now)) }
{
    Ok((left_width(shapes)?, right_width(shapes)?))
}

/// The widths of these sources, and what stands behind FROM.
fn sized_parts(
    binder: &Binder<'_>,
    shapes: List<Shape>,
    it: &Select,
) -> Result<((u32, u32), Parts), Refusal>
    ensures { MatchResult result
        (λ made. (made.0.0 ≡ spec.left_width shapes) × ((made.0.1 ≡ spec.right_width shapes) × (among binder.now spec.parts_of shapes it.now ≡ Ok made.1)))
        (λ refusal. refusal ≢ no_memory → among binder.now spec.parts_of shapes it.now ≡ Err refusal) }
{
    let (widths, shapes) = with_held(widths_of(shapes.as_slice()), shapes)?;
    let parts = parts_of(binder, Place::row(binder.alloc, shapes), it)?;
    Ok((widths, parts))
}

/// The SELECT of these sources and this plan.
fn planned(
    alloc: Global,
    sources: (Option<BoundSource>, Option<BoundSource>),
    widths: (u32, u32),
    join: Join,
    on: Option<BoundExpr>,
    parts: Parts,
) -> Result<BoundSelect, Memory>
    ensures { IfOk result (λ made. made ≡ record {
      left = sources.0;
      right = sources.1;
      plan = record {
        left = widths.0;
        right = widths.1;
        join = join;
        on = on;
        filter = parts.filter;
        order = parts.order;
        names = map (λ item. spec.shown_name item.name) parts.items;
        items = map (λ item. item.value.expr) parts.items;
      };
    }) }
{
    let held = (sources, (on, parts.filter, parts.order));
    let answer = answer_of(alloc, parts.items);
    let ((names, items), (sources, (on, filter, order))) = with_held(answer, held)?;
    let plan = Plan {
        left: widths.0,
        right: widths.1,
        names,
        items,
        join,
        on,
        filter,
        order,
    };
    let (left, right) = sources;
    Ok(BoundSelect { left, right, plan })
}

/// What stands behind FROM, on what FROM comes to.
fn select_from(binder: &Binder<'_>, from: Joined, it: &Select) -> Result<BoundSelect, Refusal>
    ensures { Gives (among binder.now spec.select_from from it.now) result }
{
    let Joined {
        left,
        right,
        join,
        on,
        shapes,
    } = from;
    let held = ((left, right), on);
    let ((widths, parts), (sources, on)) = with_held(sized_parts(binder, shapes, it), held)?;
    Ok(planned(binder.alloc, sources, widths, join, on, parts)?)
}

/// What a SELECT comes to.
#[tactic(auto, unfolding(crate::specs::Queries::select))]
pub(crate) fn select(binder: &Binder<'_>, it: &Select) -> Result<BoundSelect, Refusal>
    ensures { Gives (among binder.now spec.select it.now) result }
{
    let from = from_of(binder, &it.from)?;
    select_from(binder, from, it)
}
