ghost use Rattle.std.specs.Prelude.{◌≡◌, ◌++◌, count_by, find, IfOk};
ghost use Rattle.std.specs.Option.{option_copied};
ghost use Rattle.ct_types.specs.Answers.{Gives};
ghost use Rattle.ct_bind_expr.specs.Places as spec;

use crate::place::{Output, Place, Shape, Shown, Spot, Typed};
use ct_bind_names::{place_after, same_name};
use ct_types::{BoundExpr, ColumnName, Copies, List, Memory, Refusal, Text};
use std::alloc::Global;

/// Adds the columns of this name, by their places in the row, the first of which is `at`.
#[tactic(auto, unfolding(crate::specs::Places::named))]
fn push_named(found: &mut List<Spot>, name: &Text, at: u32, columns: &[Shown]) -> Result<(), Memory>
    ensures { IfOk result (λ _. found.new ≡ found.old ++ spec.named name.now at columns.now) }
{
    let mut place = at;
    for column in columns {
        if same_name(column.name.as_str(), name.as_str()) {
            found.push(Spot {
                place,
                kind: column.kind,
            })?;
        }
        place = place_after(place, 1)?;
    }
    Ok(())
}

/// The columns of this name in all sources.
#[tactic(auto, unfolding(crate::specs::Places::named_in))]
fn named_in(alloc: Global, name: &Text, sources: &[Shape]) -> Result<List<Spot>, Memory>
    ensures { IfOk result (λ found. found ≡ spec.named_in name.now 0 sources.now) }
{
    let mut found = List::new(alloc);
    let mut at = 0;
    for source in sources {
        let columns = source.columns.as_slice();
        push_named(&mut found, name, at, columns)?;
        at = place_after(at, columns.len())?;
    }
    Ok(found)
}

/// The columns of this name in the source of that name: 207 where there is no such source.
#[tactic(auto, unfolding(crate::specs::Places::named_of))]
fn named_of(
    alloc: Global,
    wanted: &Text,
    name: &Text,
    sources: &[Shape],
) -> Result<List<Spot>, Refusal>
    ensures { Gives (spec.named_of wanted.now name.now 0 sources.now) result }
{
    let mut at = 0;
    for source in sources {
        let columns = source.columns.as_slice();
        if same_name(source.name.as_str(), wanted.as_str()) {
            let mut found = List::new(alloc);
            push_named(&mut found, name, at, columns)?;
            return Ok(found);
        }
        at = place_after(at, columns.len())?;
    }
    Err(Refusal::NoColumn {
        name: wanted.copy(alloc)?,
    })
}

/// The column that stands there.
fn column_at(spot: Spot) -> Typed
    ensures { result ≡ spec.column_at spot }
{
    Typed {
        expr: BoundExpr::Column(spot.place),
        kind: spot.kind,
    }
}

/// The only one of these columns: 207 where there is none, ambiguous where there are several.
#[tactic(auto, unfolding(crate::specs::Places::only))]
fn only(alloc: Global, name: &Text, found: &[Spot]) -> Result<Typed, Refusal>
    ensures { Gives (spec.only name.now found.now) result }
{
    match found {
        [] => Err(Refusal::NoColumn {
            name: name.copy(alloc)?,
        }),
        [one] => Ok(column_at(*one)),
        _ => Err(Refusal::Ambiguous {
            name: name.copy(alloc)?,
        }),
    }
}

#[tactic(auto, unfolding(crate::specs::Places::is_output))]
fn is_output(name: &Text, output: &Output) -> bool
    ensures { result ≡ spec.is_output name.now output.now }
{
    match &output.name {
        None => false,
        Some(other) => same_name(other.as_str(), name.as_str()),
    }
}

fn count_outputs(name: &Text, outputs: &[Output]) -> usize
    ensures { result ≡ count_by (spec.is_output name.now) outputs.now }
{
    outputs
        .iter()
        .filter(|output| is_output(name, output))
        .count()
}

fn first_output<'a>(name: &Text, outputs: &'a [Output]) -> Option<&'a Output>
    ensures { option_copied result ≡ find (spec.is_output name.now) outputs.now }
{
    outputs.iter().find(|output| is_output(name, output))
}

/// The output that is named so, if it is the only one.
#[tactic(auto, unfolding(crate::specs::Places::output_at))]
fn output_at<'a>(name: &Text, outputs: &'a [Output]) -> Option<&'a Output>
    ensures { option_copied result ≡ spec.output_at name.now outputs.now }
{
    if count_outputs(name, outputs) == 1 {
        first_output(name, outputs)
    } else {
        None
    }
}

/// A name alone: the output that it names, else the one column of the row.
#[tactic(auto, unfolding(crate::specs::Places::plain_column))]
fn plain_column(alloc: Global, place: &Place, name: &Text) -> Result<Typed, Refusal>
    ensures { Gives (spec.plain_column place.now name.now) result }
{
    match output_at(name, place.outputs.as_slice()) {
        Some(output) => Ok(column_at(output.spot)),
        None => {
            let found = named_in(alloc, name, place.sources.as_slice())?;
            only(alloc, name, found.as_slice())
        }
    }
}

#[tactic(auto, unfolding(crate::specs::Places::column_of_source))]
fn column_of_source(
    alloc: Global,
    place: &Place,
    source: &Text,
    name: &Text,
) -> Result<Typed, Refusal>
    ensures { Gives (spec.column_of_source place.now source.now name.now) result }
{
    let found = named_of(alloc, source, name, place.sources.as_slice())?;
    only(alloc, name, found.as_slice())
}

/// What a column's name means at a place.
#[tactic(auto, unfolding(crate::specs::Places::column))]
pub(crate) fn column(alloc: Global, place: &Place, name: &ColumnName) -> Result<Typed, Refusal>
    ensures { Gives (spec.column place.now name.now) result }
{
    if place.is_closed {
        return Err(Refusal::TypeClash);
    }
    match &name.source {
        None => plain_column(alloc, place, &name.column),
        Some(source) => column_of_source(alloc, place, source, &name.column),
    }
}
