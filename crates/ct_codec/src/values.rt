ghost use Rattle.std.specs.Prelude.{◌≡◌, ◌++◌, ◌<◌, ◌^◌, length, OnOk};
ghost use Rattle.ct_codec.specs.EntryReaders as entry;
ghost use Rattle.ct_codec.specs.Readers as reading;
ghost use Rattle.ct_codec.specs.Readers.{Reads};
ghost use Rattle.ct_codec.specs.Spellings.{spell_measured, TextFits, IsIn, tag_of, spell_value, ValueFits, spell_row, RowFits, spell_key, KeyFits};

use crate::input::utf8;
use crate::output::{put_bytes, put_i64, put_u8, put_u16, put_u32};
use crate::spelled::{Spelled, get_few, put_all, put_few, size_all};
use crate::{CodecError, Input};
use ct_types::{Bin, Key, List, Memory, Row, Text, Value, push};
use std::alloc::Global;

fn get_blob(alloc: Global, input: &mut Input<'_>) -> Result<Bin, CodecError>
    ensures { Reads (reading.measured 4 input.old) result input.new }
{
    let length = input.u32()?;
    let bytes = input.take(length as usize)?;
    Ok(Bin::of(alloc, bytes)?)
}

fn get_text(alloc: Global, input: &mut Input<'_>) -> Result<Text, CodecError>
    ensures { Reads (reading.text 4 input.old) result input.new }
{
    let length = input.u32()?;
    let bytes = input.take(length as usize)?;
    utf8(alloc, bytes)
}

/// Reads a name: a text with a length of two bytes.
pub fn get_name(alloc: Global, input: &mut Input<'_>) -> Result<Text, CodecError>
    ensures { Reads (reading.text 2 input.old) result input.new }
{
    let length = input.u16()?;
    let bytes = input.take(usize::from(length))?;
    utf8(alloc, bytes)
}

fn put_blob(out: &mut Vec<u8>, bytes: &[u8]) -> Result<(), Memory>
    requires { IsIn 4 (length bytes.now) }
    ensures { OnOk result (out.new.items ≡ out.old.items ++ spell_measured 4 bytes.now) }
{
    put_u32(out, bytes.len() as u32)?;
    put_bytes(out, bytes)
}

/// Appends a name.
pub fn put_name(out: &mut Vec<u8>, name: &Text) -> Result<(), Memory>
    requires { TextFits 2 name.now }
    ensures { OnOk result (out.new.items ≡ out.old.items ++ spell_measured 2 name.now) }
{
    let bytes = name.as_str().as_bytes();
    put_u16(out, bytes.len() as u16)?;
    put_bytes(out, bytes)
}

#[tactic(auto, unfolding(crate::specs::EntryReaders::content))]
fn get_content(alloc: Global, tag: u8, input: &mut Input<'_>) -> Result<Value, CodecError>
    ensures { Reads (entry.content tag input.old) result input.new }
{
    match tag {
        0 => Ok(Value::Null),
        1 => Ok(Value::Int(input.i64()?)),
        2 => Ok(Value::Text(get_text(alloc, input)?)),
        3 => Ok(Value::Bytes(get_blob(alloc, input)?)),
        _ => Err(CodecError::NotCanonical),
    }
}

impl Spelled for Value {
    ghost reader = { entry.value };

    ghost spell = { spell_value };

    ghost fits = { ValueFits };

    #[tactic(auto, unfolding(crate::specs::EntryReaders::value))]
    fn get(alloc: Global, input: &mut Input<'_>) -> Result<Value, CodecError> {
        let tag = input.u8()?;
        get_content(alloc, tag, input)
    }

    fn put(&self, out: &mut Vec<u8>) -> Result<(), Memory> {
        match self {
            Value::Null => put_u8(out, 0),
            Value::Int(number) => {
                put_u8(out, 1)?;
                put_i64(out, *number)
            }
            Value::Text(text) => {
                put_u8(out, 2)?;
                put_blob(out, text.as_str().as_bytes())
            }
            Value::Bytes(bytes) => {
                put_u8(out, 3)?;
                put_blob(out, bytes.as_bytes())
            }
        }
    }

    fn size(&self) -> u64 {
        match self {
            Value::Null => 1,
            Value::Int(_) => 9,
            Value::Text(text) => 5 + text.as_str().len() as u64,
            Value::Bytes(bytes) => 5 + bytes.as_bytes().len() as u64,
        }
    }
}

impl Spelled for Row {
    ghost reader = { entry.row };

    ghost spell = { spell_row };

    ghost fits = { RowFits };

    #[tactic(auto, unfolding(crate::specs::EntryReaders::row))]
    fn get(alloc: Global, input: &mut Input<'_>) -> Result<Row, CodecError> {
        Ok(Row(get_few(alloc, input)?))
    }

    fn put(&self, out: &mut Vec<u8>) -> Result<(), Memory> {
        put_few(out, self.0.as_slice())
    }

    fn size(&self) -> u64 {
        2 + size_all(self.0.as_slice())
    }
}

/// Reads a list of the one value that stands here.
pub fn get_one<T: Spelled>(alloc: Global, input: &mut Input<'_>) -> Result<List<T>, CodecError>
    ensures { Reads (entry.one T.reader input.old) result input.new }
{
    let item = T::get(alloc, input)?;
    let mut list = List::new(alloc);
    push(&mut list, item)?;
    Ok(list)
}

/// Reads a key.
#[tactic(auto, unfolding(crate::specs::EntryReaders::key))]
pub fn get_key(alloc: Global, input: &mut Input<'_>) -> Result<Key, CodecError>
    ensures { Reads (entry.key input.old) result input.new }
{
    Ok(Key(get_one(alloc, input)?))
}

/// Appends a key.
#[tactic(auto, using(crate::proofs::Ones::all_of_one))]
pub fn put_key(out: &mut Vec<u8>, key: &Key) -> Result<(), Memory>
    requires { KeyFits key.now }
    ensures { OnOk result (out.new.items ≡ out.old.items ++ spell_key key.now) }
{
    put_all(out, key.0.as_slice())
}

/// The length of a key's spelling.
#[tactic(auto, using(crate::proofs::Ones::all_of_one))]
pub fn size_key(key: &Key) -> u64
    requires fits { KeyFits key.now }
    requires short { length (spell_key key.now) < 2 ^ 64 }
    ensures { result ≡ length (spell_key key.now) }
{
    size_all(key.0.as_slice())
}
