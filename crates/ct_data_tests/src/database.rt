use crate::hold::let_go;
use ct_applies::applies;
use ct_model::{Db, apply, find_table, has_row, key_of_row, net};
use ct_types::{
    Act, Bin, ColType, Column, Entry, Keep, Key, List, Memory, Min, NetRow, Op, Row, Schema, Text,
    Value, Write, push,
};
use std::alloc::Global;
use std::test::Fail;

// ---- acts

fn column(alloc: Global, name: &str, kind: ColType, nullable: bool) -> Result<Column, Memory> {
    Ok(Column {
        name: Text::of(alloc, name)?,
        kind,
        nullable,
    })
}

fn columns(alloc: Global) -> Result<List<Column>, Memory> {
    let mut columns = List::new(alloc);
    push(&mut columns, column(alloc, "id", ColType::Int, false)?)?;
    push(&mut columns, column(alloc, "a", ColType::Int, true)?)?;
    push(
        &mut columns,
        column(alloc, "b", ColType::NVarChar(20), true)?,
    )?;
    Ok(columns)
}

/// `t (id INT PRIMARY KEY, a INT, b NVARCHAR(20))`
fn schema(alloc: Global) -> Result<Schema, Memory> {
    let columns = columns(alloc)?;
    let name = Text::of(alloc, "t")?;
    let mut key = List::new(alloc);
    key.push(1)?;
    Ok(Schema {
        id: 1,
        name,
        columns,
        key,
    })
}

fn define(alloc: Global) -> Result<Act, Memory> {
    Ok(Act::Define(schema(alloc)?))
}

fn number(n: Option<i64>) -> Value {
    match n {
        Some(n) => Value::Int(n),
        None => Value::Null,
    }
}

fn key(alloc: Global, id: Option<i64>) -> Result<Key, Memory> {
    let mut values = List::new(alloc);
    push(&mut values, number(id))?;
    Ok(Key(values))
}

/// The row of an id, 5 and NULL.
fn row(alloc: Global, id: Option<i64>) -> Result<Row, Memory> {
    let mut values = List::new(alloc);
    push(&mut values, number(id))?;
    push(&mut values, Value::Int(5))?;
    push(&mut values, Value::Null)?;
    Ok(Row(values))
}

fn commit(alloc: Global, write: Write) -> Result<Act, Memory> {
    let mut writes = List::new(alloc);
    push(&mut writes, write)?;
    Ok(Act::Commit(writes))
}

fn write_of(op: Op, key: Key, row: Row, mask: u64, context: Option<Bin>) -> Write {
    Write {
        table: 1,
        op,
        key,
        row: Some(row),
        tracked: true,
        mask,
        context,
    }
}

/// The commit of an insert of a row with this id.
fn insert(alloc: Global, id: Option<i64>) -> Result<Act, Memory> {
    let key = key(alloc, id)?;
    let row = row(alloc, id)?;
    commit(alloc, write_of(Op::Insert, key, row, 0, None))
}

/// The commit of an update of the row with id 1.
fn update(alloc: Global, mask: u64, context: Option<Bin>) -> Result<Act, Memory> {
    let key = key(alloc, Some(1))?;
    let row = row(alloc, Some(1))?;
    commit(alloc, write_of(Op::Update, key, row, mask, context))
}

// ---- databases

/// The database after an act as its next entry, which has to apply.
fn entered(alloc: Global, mut db: Db, draws: bool, act: Act) -> Result<Db, Memory> {
    let entry = Entry {
        version: db.version.saturating_add(u64::from(draws)),
        draws,
        xdes: db.last_xdes.saturating_add(1),
        time: db.time,
        act,
    };
    let fits = applies(alloc, &db, &entry);
    let done = apply(alloc, &mut db, &entry);
    let_go(entry);
    if matches!(fits, Ok(true)) && done.is_ok() {
        return Ok(db);
    }
    let_go(db);
    Err(Memory)
}

/// The database after an act that was made.
fn after(alloc: Global, db: Db, draws: bool, act: Result<Act, Memory>) -> Result<Db, Memory> {
    match act {
        Ok(act) => entered(alloc, db, draws, act),
        Err(Memory) => {
            let_go(db);
            Err(Memory)
        }
    }
}

/// The database with one table.
fn with_table(alloc: Global) -> Result<Db, Memory> {
    let keep = Keep {
        retention: 172_800,
        auto: true,
    };
    let db = entered(alloc, Db::empty(alloc)?, false, Act::Database(Some(keep)))?;
    after(alloc, db, false, define(alloc))
}

/// The database with one table, which is tracked with its columns from version 1 on.
fn with_tracking(alloc: Global) -> Result<Db, Memory> {
    entered(
        alloc,
        with_table(alloc)?,
        true,
        Act::Enable {
            table: 1,
            masks: true,
        },
    )
}

/// The same, and in version 2 the row with id 1.
fn with_row(alloc: Global) -> Result<Db, Memory> {
    after(alloc, with_tracking(alloc)?, true, insert(alloc, Some(1)))
}

fn tagged(alloc: Global) -> Result<Act, Memory> {
    let context = Bin::of(alloc, &[0xAB])?;
    update(alloc, 2, Some(context))
}

/// The same, and in version 3 an update with a context.
fn with_context(alloc: Global) -> Result<Db, Memory> {
    after(alloc, with_row(alloc)?, true, tagged(alloc))
}

/// The same, and in version 4 an update without one.
fn without_context(alloc: Global) -> Result<Db, Memory> {
    after(alloc, with_context(alloc)?, true, update(alloc, 4, None))
}

// ---- net changes

/// What a net row shows beside its key: version, creation, operation, mask, and whether there is a context.
type Shown = (u64, Option<u64>, Op, Option<u64>, bool);

fn show(row: &NetRow) -> Shown {
    (
        row.version,
        row.creation,
        row.op,
        row.mask,
        row.context.is_some(),
    )
}

/// The net row since version 2, which has to be the only one.
fn net_row(alloc: Global, db: Result<Db, Memory>) -> Result<Option<Shown>, Memory> {
    let db = db?;
    let rows = net(alloc, &db, 1, Some(2));
    let_go(db);
    match rows?.as_slice() {
        [row] => Ok(Some(show(row))),
        _ => Ok(None),
    }
}

/// A net row has the context of the last change alone. Other net changes are cases of `ct_cases`.
#[test]
fn net_changes_with_contexts(rt: HostRuntime) -> Result<(), Fail> {
    let alloc = rt.alloc();
    let tagged = net_row(alloc, with_context(alloc))?;
    assert_eq!(rt; tagged, Some((3, None, Op::Update, Some(2), true)));
    let untagged = net_row(alloc, without_context(alloc))?;
    assert_eq!(rt; untagged, Some((4, None, Op::Update, Some(6), false)));
    Ok(())
}

// ---- entries that apply

/// Whether an act of such an entry applies.
fn is_next(alloc: Global, db: &Db, numbers: (u64, bool, u64), act: Act) -> Result<bool, Memory> {
    let entry = Entry {
        version: numbers.0,
        draws: numbers.1,
        xdes: numbers.2,
        time: 0,
        act,
    };
    let told = applies(alloc, db, &entry);
    let_go(entry);
    told
}

/// Version, transaction number and id of an inserted row, and whether the entry applies.
const INSERTS: [(u64, u64, Option<i64>, bool); 8] = [
    (3, 5, Some(2), true),
    (3, 5, Some(1), false),
    (2, 5, Some(2), false),
    (4, 5, Some(2), false),
    (3, 4, Some(2), false),
    (3, 0, Some(2), false),
    (3, 5, None, false),
    (3, 5, Some(2_147_483_648), false),
];

fn are_told(alloc: Global, db: &Db) -> Result<bool, Memory> {
    let mut holds = true;
    for (version, xdes, id, wanted) in INSERTS {
        let act = insert(alloc, id)?;
        let told = is_next(alloc, db, (version, true, xdes), act)?;
        holds = holds && told == wanted;
    }
    Ok(holds)
}

/// An act: raises the minimum, truncates or disables a table, switches tracking off, or defines the table once more.
#[derive(Clone, Copy)]
enum What {
    Raise(u64),
    Truncate(u32),
    Disable,
    Off,
    Define,
}

fn raise(alloc: Global, min: u64) -> Result<Act, Memory> {
    let mut minima = List::new(alloc);
    minima.push(Min { table: 1, min })?;
    Ok(Act::Raise(minima))
}

fn act_of(alloc: Global, what: What) -> Result<Act, Memory> {
    match what {
        What::Raise(min) => raise(alloc, min),
        What::Truncate(table) => Ok(Act::Truncate(table)),
        What::Disable => Ok(Act::Disable(1)),
        What::Off => Ok(Act::Database(None)),
        What::Define => define(alloc),
    }
}

/// An act, whether it draws a version, its transaction number, and whether it applies.
const ACTS: [(What, bool, u64, bool); 8] = [
    (What::Raise(2), false, 0, true),
    (What::Raise(1), false, 0, false),
    (What::Raise(3), false, 0, false),
    (What::Truncate(1), true, 5, true),
    (What::Truncate(2), true, 5, false),
    (What::Disable, false, 5, true),
    (What::Off, false, 5, false),
    (What::Define, false, 5, false),
];

fn acts_are_told(alloc: Global, db: &Db) -> Result<bool, Memory> {
    let mut holds = true;
    for (what, draws, xdes, wanted) in ACTS {
        let act = act_of(alloc, what)?;
        let version = if draws { 3 } else { 2 };
        let told = is_next(alloc, db, (version, draws, xdes), act)?;
        holds = holds && told == wanted;
    }
    Ok(holds)
}

/// Whether the table has the row with id 1, and none with the key of a row with id 7.
fn rows_are_found(alloc: Global, db: &Db) -> Result<bool, Memory> {
    let Some(table) = find_table(db.tables.as_slice(), 1) else {
        return Ok(false);
    };
    let row = row(alloc, Some(7))?;
    let made = key_of_row(alloc, &table.schema, &row);
    let_go(row);
    let one = key(alloc, Some(1))?;
    let rows = table.rows.as_slice();
    let has_one = has_row(&table.schema, rows, &one);
    let_go(one);
    let made = made?;
    let is_seven = matches!(made.0.as_slice(), [Value::Int(7)]);
    Ok(is_seven && has_one && !has_row(&table.schema, rows, &made))
}

#[test]
fn entries_apply_and_rows_are_found(rt: HostRuntime) -> Result<(), Fail> {
    let alloc = rt.alloc();
    let db = with_row(alloc)?;
    let inserts = are_told(alloc, &db);
    let acts = acts_are_told(alloc, &db);
    let rows = rows_are_found(alloc, &db);
    let_go(db);
    assert_eq!(rt; inserts, Ok(true));
    assert_eq!(rt; acts, Ok(true));
    assert_eq!(rt; rows, Ok(true));
    Ok(())
}
