ghost use Rattle.std.specs.Prelude.{◌≡◌, ◌++◌, OnOk, codes, string_bytes, flat_map};
ghost use Rattle.std.specs.Fmt.{decimal};
ghost use Rattle.ct_machine.specs.Reads.{op_name};
ghost use Rattle.ct_machine.specs.Transcript.{joined, touched_text, verdict_text, copy_text, grid_text, reply_text};

use crate::refusal::{add_count, add_refusal};
use crate::value::{add_key, add_rows, add_words};
use ct_types::{CopyOut, Grid, List, Op, Reply, Text, Touched, Verdict};
use std::alloc::AllocError;

/// Adds a line of words and two numbers.
fn add_pair(
    out: &mut String,
    before: &str,
    first: u64,
    between: &str,
    second: u64,
) -> Result<(), AllocError>
    ensures { OnOk result (string_bytes out.new ≡ string_bytes out.old
        ++ (before.now ++ decimal first ++ between.now ++ decimal second ++ codes "\n")) }
{
    out.push_str(before)?;
    write!(out, "{first}")?;
    out.push_str(between)?;
    write!(out, "{second}\n")
}

fn letter(op: Op) -> &'static str
    ensures { result.now ≡ op_name op }
{
    match op {
        Op::Insert => "I",
        Op::Update => "U",
        Op::Delete => "D",
    }
}

fn add_touched(out: &mut String, touched: &Touched) -> Result<(), AllocError>
    ensures { OnOk result (string_bytes out.new ≡ string_bytes out.old ++ touched_text touched.now) }
{
    out.push_str(letter(touched.op))?;
    out.push_str(" ")?;
    add_key(out, &touched.key)?;
    out.push_str("\n")
}

fn add_changes(out: &mut String, changes: &[Touched]) -> Result<(), AllocError>
    ensures { OnOk result (string_bytes out.new ≡ string_bytes out.old ++ flat_map touched_text changes.now) }
{
    for touched in changes {
        add_touched(out, touched)?;
    }
    Ok(())
}

fn add_synced_head(out: &mut String, from: u64, to: u64, count: u64) -> Result<(), AllocError>
    ensures { OnOk result (string_bytes out.new ≡ string_bytes out.old
        ++ (codes "Synced from " ++ decimal from ++ codes " to " ++ decimal to ++ codes " changes " ++ decimal count ++ codes "\n")) }
{
    write!(out, "Synced from {from} to {to} changes {count}\n")
}

#[tactic(auto, unfolding(ct_machine::specs::Transcript::verdict_text))]
fn add_synced(
    out: &mut String,
    from: u64,
    to: u64,
    changes: &List<Touched>,
) -> Result<(), AllocError>
    ensures { OnOk result (string_bytes out.new ≡ string_bytes out.old ++ verdict_text (Verdict.Synced from to changes.now)) }
{
    let changes = changes.as_slice();
    add_synced_head(out, from, to, changes.len() as u64)?;
    add_changes(out, changes)
}

#[tactic(auto, unfolding(ct_machine::specs::Transcript::verdict_text))]
fn add_verdict(out: &mut String, verdict: &Verdict) -> Result<(), AllocError>
    ensures { OnOk result (string_bytes out.new ≡ string_bytes out.old ++ verdict_text verdict.now) }
{
    match verdict {
        Verdict::Initialised { version, rows } => {
            add_pair(out, "Initialised version ", *version, " rows ", *rows)
        }
        Verdict::Synced { from, to, changes } => add_synced(out, *from, *to, changes),
        Verdict::Looked { version, min } => {
            add_pair(out, "Looked version ", *version, " minimum ", *min)
        }
        Verdict::Reinitialise { noted, min } => {
            add_pair(out, "Reinitialise noted ", *noted, " minimum ", *min)
        }
        Verdict::NotTracked => add_words(out, "NotTracked\n"),
    }
}

fn add_copy(out: &mut String, copied: &Option<CopyOut>) -> Result<(), AllocError>
    ensures { OnOk result (string_bytes out.new ≡ string_bytes out.old ++ copy_text copied.now) }
{
    match copied {
        None => add_words(out, "copy none\n"),
        Some(copied) => {
            let rows = copied.rows.as_slice();
            add_pair(
                out,
                "copy version ",
                copied.noted,
                " rows ",
                rows.len() as u64,
            )?;
            add_rows(out, rows)
        }
    }
}

fn add_names(out: &mut String, names: &[Text]) -> Result<(), AllocError>
    ensures { OnOk result (string_bytes out.new ≡ string_bytes out.old ++ joined (codes " | ") names.now) }
{
    if let [first, more @ ..] = names {
        out.push_str(first.as_str())?;
        for name in more {
            out.push_str(" | ")?;
            out.push_str(name.as_str())?;
        }
    }
    Ok(())
}

fn add_grid(out: &mut String, grid: &Grid) -> Result<(), AllocError>
    ensures { OnOk result (string_bytes out.new ≡ string_bytes out.old ++ grid_text grid.now) }
{
    add_names(out, grid.names.as_slice())?;
    out.push_str("\n")?;
    add_rows(out, grid.rows.as_slice())?;
    add_count(out, "rows ", grid.rows.as_slice().len() as u64)
}

/// Adds the lines of a reply.
#[tactic(auto, unfolding(ct_machine::specs::Transcript::reply_text))]
pub(crate) fn add_reply(out: &mut String, reply: &Reply) -> Result<(), AllocError>
    ensures { OnOk result (string_bytes out.new ≡ string_bytes out.old ++ reply_text reply.now) }
{
    match reply {
        Reply::Done => add_words(out, "OK\n"),
        Reply::Count(count) => add_count(out, "rows ", *count),
        Reply::Rows(grid) => add_grid(out, grid),
        Reply::Raised(count) => add_count(out, "raised ", u64::from(*count)),
        Reply::Verdict(verdict) => add_verdict(out, verdict),
        Reply::Copied(copied) => add_copy(out, copied),
        Reply::Refused(refusal) => add_refusal(out, refusal),
    }
}
