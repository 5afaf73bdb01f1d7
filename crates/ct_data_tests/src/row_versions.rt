use crate::trees::key;
use ct_rows::Rows;
use ct_types::{List, Memory, Row, Value, push};
use std::alloc::Global;
use std::process::Abort;
use std::test::Fail;

fn row(alloc: Global, number: i64) -> Result<Row, Memory> {
    let mut values = List::new(alloc);
    push(&mut values, Value::Int(number))?;
    Ok(Row(values))
}

/// The numbers of the rows at a view.
fn numbers(rows: &Rows, alloc: Global, view: u64) -> Result<Vec<i64>, Memory> {
    let mut made = Vec::new(alloc);
    for row in rows.rows(view) {
        for value in row.0.as_slice() {
            if let Value::Int(number) = value {
                made.push(*number)?;
            }
        }
    }
    Ok(made)
}

/// Key 2 is written at 1, 3 and 6, key 1 at 4, and key 2 is deleted at 8, by the transactions 11, 13, 16, 14 and 18.
fn written(alloc: Global) -> Result<Rows, Memory> {
    let mut rows = Rows::new(alloc);
    rows.put(1, 11, key(alloc, 2)?, Some(row(alloc, 21)?))?;
    rows.put(3, 13, key(alloc, 2)?, Some(row(alloc, 23)?))?;
    rows.put(4, 14, key(alloc, 1)?, Some(row(alloc, 14)?))?;
    rows.put(6, 16, key(alloc, 2)?, Some(row(alloc, 26)?))?;
    rows.put(8, 18, key(alloc, 2)?, None)?;
    Ok(rows)
}

/// What each call answers of one key at a view.
fn answers(
    alloc: Global,
    rows: &Rows,
    view: u64,
    number: i64,
) -> Result<(bool, Option<u64>), Memory> {
    let key = key(alloc, number)?;
    Ok((
        rows.at(view, &key).is_some(),
        rows.written_after(view, &key),
    ))
}

#[test]
fn rows_at_views(rt: HostRuntime) -> Result<(), Fail> {
    let alloc = rt.alloc();
    let mut rows = written(alloc)?;
    let share = rows.share()?;
    rows.prune(5)?;
    for (rows, view, want) in [
        (&share, 0, [].as_slice()),
        (&share, 2, [21].as_slice()),
        (&rows, 5, [14, 23].as_slice()),
        (&rows, 7, [14, 26].as_slice()),
        (&rows, 8, [14].as_slice()),
    ] {
        assert_eq!(rt; numbers(rows, alloc, view)?.as_slice(), want);
        assert_eq!(rt; rows.scan(view)?.as_slice().len(), want.len());
    }
    Ok(())
}

#[test]
fn keys_at_views(rt: HostRuntime) -> Result<(), Fail> {
    let alloc = rt.alloc();
    let rows = written(alloc)?;
    for (view, number, want) in [
        (7, 2, (true, Some(18))),
        (8, 2, (false, None)),
        (0, 1, (false, Some(14))),
        (4, 1, (true, None)),
    ] {
        assert_eq!(rt; answers(alloc, &rows, view, number)?, want);
    }
    Ok(())
}
