use ct_bind_kinds::Kind;
use ct_types::{BoundExpr, List, Refusal, Text};
use std::alloc::Global;

/// A bound expression with its kind.
#[derive(Debug, Drop)]
pub struct Typed {
    pub expr: BoundExpr,
    pub kind: Kind,
}

/// What an expression comes to at a place: bound, with its kind, or the first refusal.
pub type Walked = Result<Typed, Refusal>;

/// A column that a source shows.
#[derive(Debug, Drop)]
pub struct Shown {
    pub name: Text,
    pub kind: Kind,
}

/// A source as names see it.
#[derive(Debug, Drop)]
pub struct Shape {
    /// Its alias, or the last part of its table's name.
    pub name: Text,
    pub columns: List<Shown>,
}

/// Where a column stands in a row, counted from 0, with its kind.
#[derive(Clone, Copy, Debug, PartialEq, Eq)]
pub struct Spot {
    pub place: u32,
    pub kind: Kind,
}

/// A column of an answer.
#[derive(Debug, Drop)]
pub struct Output {
    /// None where the item has neither an alias nor is a column.
    pub name: Option<Text>,
    /// Its place in the row of the sources followed by the values of the items.
    pub spot: Spot,
}

/// A place of a statement at which an expression stands: what names of columns mean there.
#[derive(Debug, Drop)]
pub struct Place {
    /// Whether no column may be named.
    pub is_closed: bool,
    /// The sources of the row, whose columns follow one another.
    pub sources: List<Shape>,
    /// For ORDER BY the columns of the answer: a name means one of them before it means a column of the sources.
    pub outputs: List<Output>,
}

impl Place {
    ghost use Rattle.std.specs.Prelude.{◌≡◌};
    ghost use Rattle.ct_bind_expr.specs.Places as spec;

    /// A place at which no column may be named.
    pub fn closed(alloc: Global) -> Place
        ensures { result ≡ spec.closed }
    {
        Place {
            is_closed: true,
            sources: List::new(alloc),
            outputs: List::new(alloc),
        }
    }

    /// A place on a row of these sources.
    pub fn row(alloc: Global, sources: List<Shape>) -> Place
        ensures { result ≡ spec.row_of sources }
    {
        Place {
            is_closed: false,
            sources,
            outputs: List::new(alloc),
        }
    }
}
