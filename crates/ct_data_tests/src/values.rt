use crate::hold::let_go;
use ct_expr::{Env, Versions};
use ct_mask::Mask;
use ct_query::select;
use ct_source::Source;
use ct_types::{
    BoundExpr, Grid, Join, Key, List, Memory, Plan, Refusal, Row, Value, Variables, VersionRow,
    push,
};
use std::alloc::Global;
use std::test::Fail;

/// No key has a change.
struct Unchanged;

impl Versions for Unchanged {
    ghost use Rattle.std.specs.Prelude.{None};

    ghost row_of = { λ _ _ _. record { version = None; context = None } };

    fn version(&self, _alloc: Global, _table: u32, _key: &Key) -> Result<VersionRow, Memory> {
        Ok(VersionRow {
            version: None,
            context: None,
        })
    }
}

fn empty_env(variables: &Variables) -> Env<'_> {
    Env {
        variables,
        current: None,
        tables: &[],
    }
}

// ---- masks

/// Ids, and the bytes that their set is spelled with. A statement sets no key and no column twice.
const SPELLED: [(&[u16], &[u8]); 4] = [
    (&[], &[]),
    (&[64, 1], &[1, 0, 0, 0, 64, 0, 0, 0]),
    (&[3, 3, 2], &[2, 0, 0, 0, 3, 0, 0, 0]),
    (&[17], &[17, 0, 0, 0]),
];

#[test]
fn spells_the_ids_in_rising_order(rt: HostRuntime) -> Result<(), Fail> {
    for (ids, bytes) in SPELLED {
        let mut mask = Mask::from_bits(0);
        for id in ids {
            if 1 <= *id && *id <= 64 {
                mask = mask.union(Mask::of(&[*id]));
                assert!(rt; mask.has(*id));
            }
        }
        let made = mask.bytes(rt.alloc())?;
        assert_eq!(rt; made.as_bytes(), bytes, "{ids:?}");
        assert_eq!(rt; Mask::from_bits(mask.bits()), mask);
    }
    Ok(())
}

// ---- CROSS APPLY, whose rows stand side by side

/// The rows of the sources: a key and a number.
const LEFT: [(Option<i64>, i64); 4] = [(Some(1), 10), (None, 20), (Some(2), 30), (Some(1), 40)];

const RIGHT: [(Option<i64>, i64); 4] = [(Some(1), 7), (None, 8), (Some(3), 9), (Some(1), 6)];

fn row(alloc: Global, key: Option<i64>, number: i64) -> Result<Row, Memory> {
    let mut values = List::new(alloc);
    let key = match key {
        Some(key) => Value::Int(key),
        None => Value::Null,
    };
    push(&mut values, key)?;
    push(&mut values, Value::Int(number))?;
    Ok(Row(values))
}

fn rows(alloc: Global, source: &[(Option<i64>, i64)]) -> Result<List<Row>, Memory> {
    let mut made = List::new(alloc);
    for (key, number) in source {
        push(&mut made, row(alloc, *key, *number)?)?;
    }
    Ok(made)
}

/// The plan of CROSS APPLY that shows the four columns of both sources.
fn plan(alloc: Global) -> Result<Plan, Memory> {
    let mut items = List::new(alloc);
    for column in 0..4 {
        push(&mut items, BoundExpr::Column(column))?;
    }
    Ok(Plan {
        left: 2,
        right: 2,
        names: List::new(alloc),
        items,
        join: Join::Apply,
        on: None,
        filter: None,
        order: List::new(alloc),
    })
}

fn answer(alloc: Global, left: &[Row], right: &[Row]) -> Result<Grid, Refusal> {
    let plan = plan(alloc)?;
    let variables = Variables(List::new(alloc));
    let answer = select(
        alloc,
        &plan,
        Source::Listed(left),
        Source::Listed(right),
        &empty_env(&variables),
        &Unchanged,
    );
    let_go(plan);
    answer
}

fn answer_beside(alloc: Global, left: &[Row]) -> Result<Grid, Refusal> {
    let right = rows(alloc, &RIGHT)?;
    answer(alloc, left, right.as_slice())
}

fn answer_of(alloc: Global) -> Result<Grid, Refusal> {
    let left = rows(alloc, &LEFT)?;
    answer_beside(alloc, left.as_slice())
}

/// The rows; `-` is NULL.
fn shown(alloc: Global, grid: &Grid) -> Result<String, Memory> {
    let mut text = String::new(alloc);
    for row in grid.rows.as_slice() {
        let mut gap = "";
        for value in row.0.as_slice() {
            text.push_str(gap)?;
            match value {
                Value::Int(number) => text.push_str(number.to_string(alloc)?.as_str())?,
                _ => text.push_str("-")?,
            }
            gap = " ";
        }
        text.push_str(";")?;
    }
    Ok(text)
}

fn answered(alloc: Global) -> Result<String, Memory> {
    match answer_of(alloc) {
        Ok(grid) => shown(alloc, &grid),
        Err(_) => Err(Memory),
    }
}

#[test]
fn applies_row_by_row(rt: HostRuntime) -> Result<(), Fail> {
    let text = answered(rt.alloc())?;
    assert_eq!(rt; text.as_str(), "1 10 1 7;- 20 - 8;2 30 3 9;1 40 1 6;");
    Ok(())
}
