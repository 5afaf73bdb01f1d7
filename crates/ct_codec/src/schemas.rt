ghost use Rattle.std.specs.Prelude.{◌≡◌, ◌++◌, ◌<◌, ◌^◌, length, OnOk};
ghost use Rattle.byteorder.specs.Endian.{little_bytes};
ghost use Rattle.ct_codec.specs.EntryReaders as entry;
ghost use Rattle.ct_codec.specs.Readers as reading;
ghost use Rattle.ct_codec.specs.Readers.{Reads, Gives};
ghost use Rattle.ct_codec.specs.Spellings.{IsIn, most_of, spell_type, spell_column, ColumnFits, spell_schema, SchemaFits, spell_keep, KeepFits, spell_tracked, TrackedFits};

use crate::output::{put_flag, put_u8, put_u16, put_u32, put_u64};
use crate::spelled::{Spelled, get_few, put_all, put_few, size_all};
use crate::values::{get_name, get_one, put_name};
use crate::{CodecError, Input};
use ct_types::{ColType, Column, Keep, Memory, Schema, Tracked};
use std::alloc::Global;

impl Spelled for u16 {
    ghost reader = { reading.number 2 };

    ghost spell = { little_bytes 2 };

    ghost fits = { IsIn 2 };

    fn get(_alloc: Global, input: &mut Input<'_>) -> Result<u16, CodecError> {
        input.u16()
    }

    fn put(&self, out: &mut Vec<u8>) -> Result<(), Memory> {
        put_u16(out, *self)
    }

    fn size(&self) -> u64 {
        2
    }
}

fn type_of(byte: u8, most: u16) -> Result<ColType, CodecError>
    ensures { Gives (entry.type_of (byte, most)) result }
{
    match (byte, most) {
        (1, 0) => Ok(ColType::Int),
        (2, 0) => Ok(ColType::BigInt),
        (3, _) => Ok(ColType::NVarChar(most)),
        (4, _) => Ok(ColType::VarBinary(most)),
        _ => Err(CodecError::NotCanonical),
    }
}

#[tactic(auto, unfolding(crate::specs::EntryReaders::type_))]
fn get_type(input: &mut Input<'_>) -> Result<ColType, CodecError>
    ensures { Reads (entry.type_ input.old) result input.new }
{
    let byte = input.u8()?;
    let most = input.u16()?;
    type_of(byte, most)
}

fn put_type(out: &mut Vec<u8>, kind: ColType) -> Result<(), Memory>
    ensures { OnOk result (out.new.items ≡ out.old.items ++ spell_type kind) }
{
    let (byte, most) = match kind {
        ColType::Int => (1, 0),
        ColType::BigInt => (2, 0),
        ColType::NVarChar(most) => (3, most),
        ColType::VarBinary(most) => (4, most),
    };
    put_u8(out, byte)?;
    put_u16(out, most)
}

fn get_kind(input: &mut Input<'_>) -> Result<(ColType, bool), CodecError>
    ensures { Reads (reading.pair entry.type_ (λ kind. entry.flag) input.old) result input.new }
{
    let kind = get_type(input)?;
    let nullable = input.flag()?;
    Ok((kind, nullable))
}

impl Spelled for Column {
    ghost reader = { entry.column };

    ghost spell = { spell_column };

    ghost fits = { ColumnFits };

    #[tactic(auto, unfolding(crate::specs::EntryReaders::column))]
    fn get(alloc: Global, input: &mut Input<'_>) -> Result<Column, CodecError> {
        let name = get_name(alloc, input)?;
        let (kind, nullable) = get_kind(input)?;
        Ok(Column {
            name,
            kind,
            nullable,
        })
    }

    fn put(&self, out: &mut Vec<u8>) -> Result<(), Memory> {
        put_name(out, &self.name)?;
        put_type(out, self.kind)?;
        put_flag(out, self.nullable)
    }

    fn size(&self) -> u64 {
        6 + self.name.as_str().len() as u64
    }
}

/// Reads a definition.
#[tactic(auto, unfolding(crate::specs::EntryReaders::schema))]
pub fn get_schema(alloc: Global, input: &mut Input<'_>) -> Result<Schema, CodecError>
    ensures { Reads (entry.schema input.old) result input.new }
{
    let id = input.u32()?;
    let name = get_name(alloc, input)?;
    let columns = get_few(alloc, input)?;
    let key = get_one(alloc, input)?;
    Ok(Schema {
        id,
        name,
        columns,
        key,
    })
}

/// Appends a definition.
#[tactic(auto, using(crate::proofs::Ones::all_of_one))]
pub fn put_schema(out: &mut Vec<u8>, schema: &Schema) -> Result<(), Memory>
    requires { SchemaFits schema.now }
    ensures { OnOk result (out.new.items ≡ out.old.items ++ spell_schema schema.now) }
{
    put_u32(out, schema.id)?;
    put_name(out, &schema.name)?;
    put_few(out, schema.columns.as_slice())?;
    put_all(out, schema.key.as_slice())
}

/// The length of a definition's spelling.
#[tactic(auto, using(crate::proofs::Ones::all_of_one))]
pub fn size_schema(schema: &Schema) -> u64
    requires fits { SchemaFits schema.now }
    requires short { length (spell_schema schema.now) < 2 ^ 64 }
    ensures { result ≡ length (spell_schema schema.now) }
{
    8 + schema.name.as_str().len() as u64
        + size_all(schema.columns.as_slice())
        + size_all(schema.key.as_slice())
}

#[tactic(auto, unfolding(crate::specs::EntryReaders::keep_of))]
fn get_keep_of(on: bool, input: &mut Input<'_>) -> Result<Option<Keep>, CodecError>
    ensures { Reads (entry.keep_of on input.old) result input.new }
{
    let retention = input.u64()?;
    let auto = input.flag()?;
    if on {
        Ok(Some(Keep { retention, auto }))
    } else if retention == 0 && !auto {
        Ok(None)
    } else {
        Err(CodecError::NotCanonical)
    }
}

/// Reads the settings.
#[tactic(auto, unfolding(crate::specs::EntryReaders::keep))]
pub fn get_keep(input: &mut Input<'_>) -> Result<Option<Keep>, CodecError>
    ensures { Reads (entry.keep input.old) result input.new }
{
    let on = input.flag()?;
    get_keep_of(on, input)
}

/// Appends the settings.
pub fn put_keep(out: &mut Vec<u8>, keep: Option<Keep>) -> Result<(), Memory>
    requires { KeepFits keep }
    ensures { OnOk result (out.new.items ≡ out.old.items ++ spell_keep keep) }
{
    let (on, retention, auto) = match keep {
        None => (false, 0, false),
        Some(keep) => (true, keep.retention, keep.auto),
    };
    put_flag(out, on)?;
    put_u64(out, retention)?;
    put_flag(out, auto)
}

#[tactic(auto, unfolding(crate::specs::EntryReaders::tracked_of))]
fn get_tracked_of(is_tracked: bool, input: &mut Input<'_>) -> Result<Option<Tracked>, CodecError>
    ensures { Reads (entry.tracked_of is_tracked input.old) result input.new }
{
    if !is_tracked {
        return Ok(None);
    }
    let min = input.u64()?;
    let masks = input.flag()?;
    Ok(Some(Tracked { min, masks }))
}

/// Reads how a table is tracked.
#[tactic(auto, unfolding(crate::specs::EntryReaders::tracked))]
pub fn get_tracked(input: &mut Input<'_>) -> Result<Option<Tracked>, CodecError>
    ensures { Reads (entry.tracked input.old) result input.new }
{
    let is_tracked = input.flag()?;
    get_tracked_of(is_tracked, input)
}

/// Appends how a table is tracked.
pub fn put_tracked(out: &mut Vec<u8>, tracked: Option<Tracked>) -> Result<(), Memory>
    requires { TrackedFits tracked }
    ensures { OnOk result (out.new.items ≡ out.old.items ++ spell_tracked tracked) }
{
    match tracked {
        None => put_flag(out, false),
        Some(tracked) => {
            put_flag(out, true)?;
            put_u64(out, tracked.min)?;
            put_flag(out, tracked.masks)
        }
    }
}
