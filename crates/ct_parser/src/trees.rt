//! What the rules make of their parts.

ghost use Rattle.std.specs.Prelude.{◌≡◌};
ghost use Rattle.ct_parser.specs.Statements as spec;

use crate::parts::ChangeTable;
use ct_grammar::Kind;
use ct_types::{List, Source, Text, VersionSource};
use std::alloc::Global;

/// The list that is written, or the empty one.
pub fn list_in<T: Drop>(alloc: Global, items: Option<List<T>>) -> List<T>
    ensures { result ≡ spec.list_in items }
{
    match items {
        None => List::new(alloc),
        Some(items) => items,
    }
}

/// A form of CHANGETABLE as a source.
pub fn source_of(form: ChangeTable, alias: Text) -> Source
    ensures { result ≡ spec.source_of form alias }
{
    match form {
        ChangeTable::Changes(table, since) => Source::Changes {
            table,
            since,
            alias,
        },
        ChangeTable::Version(version) => Source::Version(VersionSource { version, alias }),
    }
}

/// Whether DESC is written.
pub fn descends(direction: Option<Kind>) -> bool
    ensures { result ≡ spec.descends direction }
{
    match direction {
        Some(Kind::Desc) => true,
        _ => false,
    }
}
