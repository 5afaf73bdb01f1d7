ghost use Rattle.std.specs.Prelude.{◌≡◌, IfOk};
ghost use Rattle.std.specs.Option.{option_copied};
ghost use Rattle.ct_expr.specs.Tables as spec;

use ct_bind_names::table_name;
use ct_types::{Catalogued, Memory, ObjectName};
use std::alloc::Global;

/// The name of a table that a text is.
fn text_name(alloc: Global, text: &str) -> Result<Option<ObjectName>, Memory>
    ensures { IfOk result (λ name. name ≡ spec.text_name text.now) }
{
    ct_grammar::text_name(alloc, text)
}

/// The table that a text names: its tokens are one name, or two with a full stop between them, of which a first one `dbo` is
/// dropped, and the table has that name, with ASCII letters folded. None where the text is no name of a table, or there is
/// no such table. `Memory` is the only error.
#[tactic(auto, unfolding(crate::specs::Tables::table_named))]
pub fn table_named<'a>(
    alloc: Global,
    tables: &'a [Catalogued],
    text: &str,
) -> Result<Option<&'a Catalogued>, Memory>
    ensures { IfOk result (λ found. option_copied found ≡ spec.table_named tables.now text.now) }
{
    match text_name(alloc, text)? {
        Some(name) => Ok(ct_bind_names::table_named(tables, &table_name(alloc, &name)?)),
        None => Ok(None),
    }
}
