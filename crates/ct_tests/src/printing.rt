use crate::hold::let_go;
use ct_print::{print_block, print_value};
use ct_types::{
    Bin, Command, Copies, CopyOut, Journaled, Key, List, Memory, Op, Refusal, Reply, Row, Text,
    Touched, Value, Verdict, push,
};
use std::alloc::Global;
use std::test::Fail;

/// Whether the block of this reply, whose head is `[7] 2.3`, has this text. No statement gives such a reply yet; those that
/// statements give are cases of `ct_cases`.
fn prints(alloc: Global, reply: Reply, wanted: &str) -> Result<bool, Memory> {
    let entry = Journaled {
        session: 2,
        number: 3,
        what: Command::Wrong(Refusal::NotBuilt),
        reply,
    };
    let printed = print_block(alloc, 7, &entry);
    let_go(entry);
    Ok(printed?.as_bytes() == wanted.as_bytes())
}

fn tells(alloc: Global, verdict: Verdict, wanted: &str) -> Result<bool, Memory> {
    prints(alloc, Reply::Verdict(verdict), wanted)
}

fn refuses(alloc: Global, refusal: Refusal, wanted: &str) -> Result<bool, Memory> {
    prints(alloc, Reply::Refused(refusal), wanted)
}

/// A number.
fn one(alloc: Global, number: i64) -> Result<List<Value>, Memory> {
    let mut values = List::new(alloc);
    push(&mut values, Value::Int(number))?;
    Ok(values)
}

/// A number and a text.
fn two(alloc: Global, number: i64, named: &str) -> Result<List<Value>, Memory> {
    let mut values = one(alloc, number)?;
    push(&mut values, Value::Text(Text::of(alloc, named)?))?;
    Ok(values)
}

/// A row of a number and NULL.
fn half_row(alloc: Global) -> Result<Row, Memory> {
    let mut values = one(alloc, 1)?;
    push(&mut values, Value::Null)?;
    Ok(Row(values))
}

fn copied(alloc: Global) -> Result<Reply, Memory> {
    let mut rows = List::new(alloc);
    push(&mut rows, half_row(alloc)?)?;
    push(&mut rows, Row(two(alloc, 2, "x")?))?;
    Ok(Reply::Copied(Some(CopyOut { noted: 7, rows })))
}

fn touched(op: Op, values: List<Value>) -> Touched {
    Touched {
        op,
        key: Key(values),
    }
}

fn synced(alloc: Global) -> Result<Verdict, Memory> {
    let mut changes = List::new(alloc);
    push(&mut changes, touched(Op::Insert, one(alloc, 1)?))?;
    push(&mut changes, touched(Op::Delete, two(alloc, 2, "b")?))?;
    Ok(Verdict::Synced {
        from: 3,
        to: 7,
        changes,
    })
}

fn blocked(alloc: Global) -> Result<Refusal, Memory> {
    let key = Key(two(alloc, 1, "a")?);
    match Text::of(alloc, "t") {
        Ok(table) => Ok(Refusal::Blocked {
            table,
            key,
            holder: 9,
        }),
        Err(Memory) => Err(Memory),
    }
}

fn conflict(alloc: Global) -> Result<Refusal, Memory> {
    let table = Text::of(alloc, "t")?;
    Ok(Refusal::Conflict { table, xdes: 12 })
}

#[test]
fn replies_of_clients_print(rt: HostRuntime) -> Result<(), Fail> {
    let alloc = rt.alloc();
    assert!(rt; prints(alloc, Reply::Raised(1), "[7] 2.3\nraised 1\n")?);
    assert!(rt;
        prints(
            alloc,
            copied(alloc)?,
            "[7] 2.3\ncopy version 7 rows 2\n1 | NULL\n2 | 'x'\n"
        )?
    );
    assert!(rt; prints(alloc, Reply::Copied(None), "[7] 2.3\ncopy none\n")?);
    let first = Verdict::Initialised {
        version: 7,
        rows: 2,
    };
    assert!(rt; tells(alloc, first, "[7] 2.3\nInitialised version 7 rows 2\n")?);
    assert!(rt;
        tells(
            alloc,
            synced(alloc)?,
            "[7] 2.3\nSynced from 3 to 7 changes 2\nI 1\nD 2, 'b'\n"
        )?
    );
    let looked = Verdict::Looked { version: 7, min: 4 };
    assert!(rt; tells(alloc, looked, "[7] 2.3\nLooked version 7 minimum 4\n")?);
    let old = Verdict::Reinitialise { noted: 2, min: 4 };
    assert!(rt; tells(alloc, old, "[7] 2.3\nReinitialise noted 2 minimum 4\n")?);
    assert!(rt; tells(alloc, Verdict::NotTracked, "[7] 2.3\nNotTracked\n")?);
    Ok(())
}

#[test]
fn refusals_that_no_statement_gives_print(rt: HostRuntime) -> Result<(), Fail> {
    let alloc = rt.alloc();
    assert!(rt;
        refuses(
            alloc,
            blocked(alloc)?,
            "[7] 2.3\nMsg 1222 t key 1, 'a' holder 9\n"
        )?
    );
    assert!(rt; refuses(alloc, Refusal::NoRollback, "[7] 2.3\nMsg 3903\n")?);
    assert!(rt; refuses(alloc, conflict(alloc)?, "[7] 2.3\nMsg 3960 t by 12\n")?);
    let full = Refusal::LogFull {
        used: 900,
        needed: 200,
    };
    assert!(rt; refuses(alloc, full, "[7] 2.3\nMsg 9002 used 900 needed 200\n")?);
    let tracked = Refusal::TablesTracked { count: 2 };
    assert!(rt; refuses(alloc, tracked, "[7] 2.3\nRefused TablesTracked 2\n")?);
    let busy = Refusal::CheckpointBusy { owner: 3 };
    assert!(rt; refuses(alloc, busy, "[7] 2.3\nRefused CheckpointBusy 3\n")?);
    let stopped = Refusal::Stopped { event: 5 };
    assert!(rt; refuses(alloc, stopped, "[7] 2.3\nRefused Stopped at 5\n")?);
    Ok(())
}

/// A value by itself.
#[test]
fn values_print(rt: HostRuntime) -> Result<(), Fail> {
    let alloc = rt.alloc();
    let value = print_value(alloc, &Value::Int(-5))?;
    assert_eq!(rt; value.as_bytes(), b"-5".as_slice());
    Ok(())
}

/// A copy of a refusal with a text and a key.
fn blocked_again(alloc: Global) -> Result<Reply, Memory> {
    let reply = Reply::Refused(blocked(alloc)?);
    let copied = reply.copy(alloc);
    let_go(reply);
    copied
}

#[test]
fn copies_equal_their_sources(rt: HostRuntime) -> Result<(), Fail> {
    let alloc = rt.alloc();
    let copied = Bin::of(alloc, b"\x00\xff")?.copy(alloc)?;
    assert_eq!(rt; copied.as_bytes(), b"\x00\xff".as_slice());
    assert!(rt;
        prints(
            alloc,
            blocked_again(alloc)?,
            "[7] 2.3\nMsg 1222 t key 1, 'a' holder 9\n"
        )?
    );
    Ok(())
}
