ghost use Rattle.std.specs.Prelude.{◌≡◌, ◌++◌, ◌<◌, ◌^◌, Some, length, IfOk, OnOk};
ghost use Rattle.ct_codec.specs.EntryReaders as readers;
ghost use Rattle.ct_codec.specs.Readers.{Reads, Gives};
ghost use Rattle.ct_codec.specs.Spellings.{act_byte, spell_act, ActFits, spell_entry, EntryFits, bare, bare_act};

use crate::input::at_end;
use crate::output::{put_flag, put_u8, put_u32, put_u64};
use crate::schemas::{get_keep, get_schema, put_keep, put_schema, size_schema};
use crate::spelled::{get_few, get_many, put_few, put_many, size_all};
use crate::{CodecError, Input};
use ct_types::{Act, Bin, Entry, Memory};
use std::alloc::Global;

#[tactic(auto, unfolding(crate::specs::EntryReaders::act))]
fn get_act(alloc: Global, kind: u8, input: &mut Input<'_>) -> Result<Act, CodecError>
    ensures { Reads (readers.act kind input.old) result input.new }
{
    match kind {
        1 => Ok(Act::Commit(get_many(alloc, input)?)),
        2 => Ok(Act::Define(get_schema(alloc, input)?)),
        3 => Ok(Act::Truncate(input.u32()?)),
        4 => {
            let table = input.u32()?;
            let masks = input.flag()?;
            Ok(Act::Enable { table, masks })
        }
        5 => Ok(Act::Disable(input.u32()?)),
        6 => Ok(Act::Database(get_keep(input)?)),
        7 => Ok(Act::Raise(get_few(alloc, input)?)),
        _ => Err(CodecError::NotCanonical),
    }
}

fn kind_of(act: &Act) -> u8
    ensures { result ≡ act_byte (bare_act act.now) }
{
    match act {
        Act::Commit(_) => 1,
        Act::Define(_) => 2,
        Act::Truncate(_) => 3,
        Act::Enable { .. } => 4,
        Act::Disable(_) => 5,
        Act::Database(_) => 6,
        Act::Raise(_) => 7,
    }
}

#[tactic(auto, using(crate::proofs::Bare::spell_bare_writes, crate::proofs::Bare::bare_writes_fit))]
fn put_act(out: &mut Vec<u8>, act: &Act) -> Result<(), Memory>
    requires { ActFits (bare_act act.now) }
    ensures { OnOk result (out.new.items ≡ out.old.items ++ spell_act (bare_act act.now)) }
{
    match act {
        Act::Commit(writes) => put_many(out, writes.as_slice()),
        Act::Define(schema) => put_schema(out, schema),
        Act::Truncate(table) => put_u32(out, *table),
        Act::Enable { table, masks } => {
            put_u32(out, *table)?;
            put_flag(out, *masks)
        }
        Act::Disable(table) => put_u32(out, *table),
        Act::Database(keep) => put_keep(out, *keep),
        Act::Raise(minima) => put_few(out, minima.as_slice()),
    }
}

#[tactic(auto, using(crate::proofs::Bare::spell_bare_writes, crate::proofs::Bare::bare_writes_fit))]
fn size_act(act: &Act) -> u64
    requires fits { ActFits (bare_act act.now) }
    requires short { length (spell_act (bare_act act.now)) < 2 ^ 64 }
    ensures { result ≡ length (spell_act (bare_act act.now)) }
{
    match act {
        Act::Commit(writes) => 4 + size_all(writes.as_slice()),
        Act::Define(schema) => size_schema(schema),
        Act::Truncate(_) => 4,
        Act::Enable { .. } => 5,
        Act::Disable(_) => 4,
        Act::Database(_) => 10,
        Act::Raise(minima) => 2 + size_all(minima.as_slice()),
    }
}

#[tactic(auto, unfolding(crate::specs::EntryReaders::entry))]
fn read_entry(alloc: Global, input: &mut Input<'_>) -> Result<Entry, CodecError>
    ensures { Reads (readers.entry input.old) result input.new }
{
    let kind = input.u8()?;
    let draws = input.flag()?;
    let version = input.u64()?;
    let xdes = input.u64()?;
    let time = input.u64()?;
    let act = get_act(alloc, kind, input)?;
    Ok(Entry {
        version,
        draws,
        xdes,
        time,
        act,
    })
}

/// The bytes of an entry, without the keys of writes that have a row: such a key is that of the row.
///
/// The entry can be spelled: its counts and lengths fit their fields, a write has a row exactly where it is no delete,
/// and one that is not tracked has neither columns nor context.
#[tactic(auto, using(crate::proofs::EntryLaws::law_entry, crate::proofs::Combined::whole_of))]
pub fn put_entry(alloc: Global, entry: &Entry) -> Result<Bin, Memory>
    requires { EntryFits (bare entry.now) }
    ensures spelled { IfOk result (λ bytes. bytes ≡ spell_entry (bare entry.now)) }
    ensures reads_back { IfOk result (λ bytes. readers.entry_of bytes ≡ Some (bare entry.now)) }
{
    let mut out = Vec::new(alloc);
    put_u8(&mut out, kind_of(&entry.act))?;
    put_flag(&mut out, entry.draws)?;
    put_u64(&mut out, entry.version)?;
    put_u64(&mut out, entry.xdes)?;
    put_u64(&mut out, entry.time)?;
    put_act(&mut out, &entry.act)?;
    Ok(Bin::from_vec(out))
}

/// How many bytes `put_entry` gives.
pub fn entry_size(entry: &Entry) -> u64
    requires fits { EntryFits (bare entry.now) }
    requires short { length (spell_entry (bare entry.now)) < 2 ^ 64 }
    ensures { result ≡ length (spell_entry (bare entry.now)) }
{
    26 + size_act(&entry.act)
}

/// The entry whose spelling the bytes are, without the keys of writes that have a row. `NotCanonical` comes exactly
/// where they are the spelling of none.
pub fn get_entry(alloc: Global, bytes: &[u8]) -> Result<Entry, CodecError>
    ensures { Gives (readers.entry_of bytes.now) result }
{
    let mut input = Input::new(bytes);
    let entry = read_entry(alloc, &mut input)?;
    at_end(entry, &input)
}
