//! The tables and variables among which statements are bound.

ghost use Rattle.std.specs.Prelude.{◌≤◌, length, IfOk};
ghost use Rattle.ct_bind.specs.Limits.{HaveFewColumns};

use crate::binding::read;
use ct_bind::bind;
use ct_types::{
    Bound, Catalogued, ColType, List, Memory, Refusal, Schema, Text, Tracked, Value, Variable,
    Variables, push,
};
use std::alloc::Global;

/// The definitions of the tables.
const T: &str = "CREATE TABLE t (id INT PRIMARY KEY, a INT, b NVARCHAR(10), c VARBINARY(8))";

const U: &str = "CREATE TABLE u (id BIGINT PRIMARY KEY, x INT)";

const A_B: &str = "CREATE TABLE [a.b] (k INT PRIMARY KEY)";

/// The definition that a CREATE TABLE among these tables comes to.
fn schema(alloc: Global, tables: &[Catalogued], text: &str) -> Result<Schema, Refusal>
    requires { HaveFewColumns tables.now }
    ensures { IfOk result (λ schema. length schema.columns ≤ 64) }
{
    let stmt = read(alloc, text)?;
    match bind(alloc, &stmt, tables, None, &Variables(List::new(alloc)))? {
        Bound::CreateTable(schema) => Ok(schema),
        _ => Err(Refusal::NotBuilt),
    }
}

/// The table of a definition among these.
fn table(
    alloc: Global,
    tables: &[Catalogued],
    text: &str,
    tracked: Option<Tracked>,
) -> Result<Catalogued, Refusal>
    requires { HaveFewColumns tables.now }
    ensures { IfOk result (λ made. length made.schema.columns ≤ 64) }
{
    let schema = schema(alloc, tables, text)?;
    Ok(Catalogued { schema, tracked })
}

/// The tables: `t`, which is tracked, `u` and `[a.b]`.
pub(crate) fn tables(alloc: Global) -> Result<List<Catalogued>, Refusal>
    ensures { IfOk result (λ made. HaveFewColumns made) }
{
    let tracked = Tracked {
        min: 0,
        masks: false,
    };
    let mut tables = List::new(alloc);
    let t = table(alloc, tables.as_slice(), T, Some(tracked))?;
    push(&mut tables, t)?;
    let u = table(alloc, tables.as_slice(), U, None)?;
    push(&mut tables, u)?;
    let a_b = table(alloc, tables.as_slice(), A_B, None)?;
    push(&mut tables, a_b)?;
    Ok(tables)
}

fn variable(alloc: Global, name: &str, kind: ColType) -> Result<Variable, Memory> {
    Ok(Variable {
        name: Text::of(alloc, name)?,
        kind,
        value: Value::Null,
    })
}

/// The variables: `@n` and `@s`.
pub(crate) fn variables(alloc: Global) -> Result<Variables, Memory> {
    let mut variables = List::new(alloc);
    variables.push(variable(alloc, "@n", ColType::Int)?)?;
    variables.push(variable(alloc, "@s", ColType::NVarChar(5))?)?;
    Ok(Variables(variables))
}
