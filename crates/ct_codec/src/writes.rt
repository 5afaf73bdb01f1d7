ghost use Rattle.std.specs.Prelude.{◌≡◌, ◌++◌, ◌<◌, ◌^◌, length, OnOk};
ghost use Rattle.ct_codec.specs.EntryReaders as entry;
ghost use Rattle.ct_codec.specs.Readers as reading;
ghost use Rattle.ct_codec.specs.Readers.{Reads};
ghost use Rattle.ct_codec.specs.Spellings.{bare_key, bare_write, spell_flag, spell_op, spell_context, ContextFits, spell_target, TargetFits, spell_notes, NotesFit, spell_write, WriteFits, spell_min, MinFits, spell_change, ChangeFits};

use crate::output::{put_bytes, put_flag, put_u8, put_u32, put_u64};
use crate::spelled::Spelled;
use crate::values::{get_key, put_key, size_key};
use crate::{CodecError, Input};
use ct_types::{Bin, Change, Key, List, Memory, Min, Op, Row, Write};
use std::alloc::Global;

#[tactic(auto, unfolding(crate::specs::EntryReaders::op))]
fn get_op(input: &mut Input<'_>) -> Result<Op, CodecError>
    ensures { Reads (entry.op input.old) result input.new }
{
    match input.u8()? {
        1 => Ok(Op::Insert),
        2 => Ok(Op::Update),
        3 => Ok(Op::Delete),
        _ => Err(CodecError::NotCanonical),
    }
}

fn put_op(out: &mut Vec<u8>, op: Op) -> Result<(), Memory>
    ensures { OnOk result (out.new.items ≡ out.old.items ++ spell_op op) }
{
    match op {
        Op::Insert => put_u8(out, 1),
        Op::Update => put_u8(out, 2),
        Op::Delete => put_u8(out, 3),
    }
}

#[tactic(auto, unfolding(crate::specs::EntryReaders::context_of))]
fn get_context_of(
    alloc: Global,
    length: u8,
    input: &mut Input<'_>,
) -> Result<Option<Bin>, CodecError>
    ensures { Reads (entry.context_of length input.old) result input.new }
{
    if length == 255 {
        return Ok(None);
    }
    if length > 128 {
        return Err(CodecError::NotCanonical);
    }
    let bytes = input.take(usize::from(length))?;
    Ok(Some(Bin::of(alloc, bytes)?))
}

#[tactic(auto, unfolding(crate::specs::EntryReaders::context))]
fn get_context(alloc: Global, input: &mut Input<'_>) -> Result<Option<Bin>, CodecError>
    ensures { Reads (entry.context input.old) result input.new }
{
    let length = input.u8()?;
    get_context_of(alloc, length, input)
}

fn put_context(out: &mut Vec<u8>, context: &Option<Bin>) -> Result<(), Memory>
    requires { ContextFits context.now }
    ensures { OnOk result (out.new.items ≡ out.old.items ++ spell_context context.now) }
{
    match context {
        None => put_u8(out, 255),
        Some(context) => {
            let bytes = context.as_bytes();
            put_u8(out, bytes.len() as u8)?;
            put_bytes(out, bytes)
        }
    }
}

fn size_context(context: &Option<Bin>) -> u64
    requires { ContextFits context.now }
    ensures { result ≡ length (spell_context context.now) }
{
    match context {
        None => 1,
        Some(context) => 1 + context.as_bytes().len() as u64,
    }
}

fn get_row(alloc: Global, input: &mut Input<'_>) -> Result<(Key, Option<Row>), CodecError>
    ensures { Reads (reading.making entry.with_row entry.row input.old) result input.new }
{
    let row = Row::get(alloc, input)?;
    Ok((Key(List::new(alloc)), Some(row)))
}

fn get_only_key(alloc: Global, input: &mut Input<'_>) -> Result<(Key, Option<Row>), CodecError>
    ensures { Reads (reading.making entry.with_key entry.key input.old) result input.new }
{
    let key = get_key(alloc, input)?;
    Ok((key, None))
}

#[tactic(auto, unfolding(crate::specs::EntryReaders::target))]
fn get_target(
    alloc: Global,
    op: Op,
    input: &mut Input<'_>,
) -> Result<(Key, Option<Row>), CodecError>
    ensures { Reads (entry.target op input.old) result input.new }
{
    match op {
        Op::Insert | Op::Update => get_row(alloc, input),
        Op::Delete => get_only_key(alloc, input),
    }
}

fn put_target(out: &mut Vec<u8>, op: Op, key: &Key, row: &Option<Row>) -> Result<(), Memory>
    requires { TargetFits op (bare_key key.now row.now) row.now }
    ensures { OnOk result (out.new.items ≡ out.old.items ++ spell_target (bare_key key.now row.now) row.now) }
{
    match row {
        None => put_key(out, key),
        Some(row) => row.put(out),
    }
}

fn size_target(op: Op, key: &Key, row: &Option<Row>) -> u64
    requires fits { TargetFits op (bare_key key.now row.now) row.now }
    requires short { length (spell_target (bare_key key.now row.now) row.now) < 2 ^ 64 }
    ensures { result ≡ length (spell_target (bare_key key.now row.now) row.now) }
{
    match row {
        None => size_key(key),
        Some(row) => row.size(),
    }
}

fn get_marks(alloc: Global, input: &mut Input<'_>) -> Result<(u64, Option<Bin>), CodecError>
    ensures { Reads (reading.pair (reading.number 8) (λ mask. entry.context) input.old) result input.new }
{
    let mask = input.u64()?;
    let context = get_context(alloc, input)?;
    Ok((mask, context))
}

#[tactic(auto, unfolding(crate::specs::EntryReaders::notes))]
fn get_notes(
    alloc: Global,
    tracked: bool,
    input: &mut Input<'_>,
) -> Result<(u64, Option<Bin>), CodecError>
    ensures { Reads (entry.notes tracked input.old) result input.new }
{
    if tracked {
        get_marks(alloc, input)
    } else {
        Ok((0, None))
    }
}

fn get_tracking(
    alloc: Global,
    input: &mut Input<'_>,
) -> Result<(bool, (u64, Option<Bin>)), CodecError>
    ensures { Reads (entry.tracking input.old) result input.new }
{
    let tracked = input.flag()?;
    let notes = get_notes(alloc, tracked, input)?;
    Ok((tracked, notes))
}

fn put_tracking(
    out: &mut Vec<u8>,
    tracked: bool,
    mask: u64,
    context: &Option<Bin>,
) -> Result<(), Memory>
    requires { NotesFit tracked mask context.now }
    ensures { OnOk result (out.new.items ≡ out.old.items ++ (spell_flag tracked ++ spell_notes tracked mask context.now)) }
{
    put_flag(out, tracked)?;
    if tracked {
        put_u64(out, mask)?;
        put_context(out, context)
    } else {
        Ok(())
    }
}

fn size_tracking(tracked: bool, mask: u64, context: &Option<Bin>) -> u64
    requires { NotesFit tracked mask context.now }
    ensures { result ≡ length (spell_flag tracked ++ spell_notes tracked mask context.now) }
{
    if tracked {
        9 + size_context(context)
    } else {
        1
    }
}

impl Spelled for Write {
    ghost reader = { entry.write };

    ghost spell = { λ write. spell_write (bare_write write) };

    ghost fits = { λ write. WriteFits (bare_write write) };

    #[tactic(auto, unfolding(crate::specs::EntryReaders::write))]
    fn get(alloc: Global, input: &mut Input<'_>) -> Result<Write, CodecError> {
        let table = input.u32()?;
        let op = get_op(input)?;
        let (key, row) = get_target(alloc, op, input)?;
        let (tracked, (mask, context)) = get_tracking(alloc, input)?;
        Ok(Write {
            table,
            op,
            key,
            row,
            tracked,
            mask,
            context,
        })
    }

    fn put(&self, out: &mut Vec<u8>) -> Result<(), Memory> {
        put_u32(out, self.table)?;
        put_op(out, self.op)?;
        put_target(out, self.op, &self.key, &self.row)?;
        put_tracking(out, self.tracked, self.mask, &self.context)
    }

    fn size(&self) -> u64 {
        5 + size_target(self.op, &self.key, &self.row)
            + size_tracking(self.tracked, self.mask, &self.context)
    }
}

impl Spelled for Min {
    ghost reader = { entry.min };

    ghost spell = { spell_min };

    ghost fits = { MinFits };

    #[tactic(auto, unfolding(crate::specs::EntryReaders::min))]
    fn get(_alloc: Global, input: &mut Input<'_>) -> Result<Min, CodecError> {
        let table = input.u32()?;
        let min = input.u64()?;
        Ok(Min { table, min })
    }

    fn put(&self, out: &mut Vec<u8>) -> Result<(), Memory> {
        put_u32(out, self.table)?;
        put_u64(out, self.min)
    }

    fn size(&self) -> u64 {
        12
    }
}

impl Spelled for Change {
    ghost reader = { entry.change };

    ghost spell = { spell_change };

    ghost fits = { ChangeFits };

    #[tactic(auto, unfolding(crate::specs::EntryReaders::change))]
    fn get(alloc: Global, input: &mut Input<'_>) -> Result<Change, CodecError> {
        let table = input.u32()?;
        let op = get_op(input)?;
        let key = get_key(alloc, input)?;
        let (mask, context) = get_marks(alloc, input)?;
        Ok(Change {
            table,
            key,
            op,
            mask,
            context,
        })
    }

    fn put(&self, out: &mut Vec<u8>) -> Result<(), Memory> {
        put_u32(out, self.table)?;
        put_op(out, self.op)?;
        put_key(out, &self.key)?;
        put_u64(out, self.mask)?;
        put_context(out, &self.context)
    }

    fn size(&self) -> u64 {
        13 + size_key(&self.key) + size_context(&self.context)
    }
}
