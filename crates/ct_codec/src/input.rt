ghost use Rattle.std.specs.Prelude.{◌≡◌, ◌≤◌, Some, None, IfOk, IfErr, OnErr, drop, length};
ghost use Rattle.ct_codec.specs.EntryReaders as entry;
ghost use Rattle.ct_codec.specs.Readers.{Reads, Gives, number, taken, if_at_end, if_utf8};

use crate::CodecError;
use byteorder::{ByteOrder, LittleEndian};
use ct_types::Text;
use std::alloc::Global;
use std::marker::Model;

/// The bytes that are not read yet, which contracts see as the list of them.
#[derive(Drop)]
pub struct Input<'a> {
    bytes: &'a [u8],
}

impl<'a> Model for Input<'a> {
    ghost use Rattle.std.specs.Prelude.{List, ℕ};

    ghost Value = { List ℕ };

    ghost view = { λ input. input.bytes.now };
}

impl<'a> Input<'a> {
    /// All of the bytes.
    pub fn new(bytes: &'a [u8]) -> Input<'a>
        ensures { result ≡ bytes.now }
    {
        Input { bytes }
    }

    /// How many bytes are left.
    pub fn left(&self) -> usize
        ensures { result ≡ length self.now }
    {
        self.bytes.len()
    }

    /// Reads so many bytes.
    #[tactic(auto, unfolding(crate::specs::Readers::taken))]
    pub fn take(&mut self, count: usize) -> Result<&'a [u8], CodecError>
        ensures ok { IfOk result (λ bytes. taken count self.old ≡ Some (bytes.now, self.new)) }
        ensures err { OnErr result (taken count self.old ≡ None) }
        ensures cause { IfErr result (λ e. e ≡ CodecError.NotCanonical) }
    {
        if count > self.bytes.len() {
            return Err(CodecError::NotCanonical);
        }
        let (front, rest) = self.bytes.split_at(count);
        self.bytes = rest;
        Ok(front)
    }

    /// Reads a number of one byte.
    #[tactic(auto, unfolding(crate::specs::Readers::number))]
    pub fn u8(&mut self) -> Result<u8, CodecError>
        ensures { Reads (number 1 self.old) result self.new }
    {
        match self.bytes {
            [byte, rest @ ..] => {
                let byte = *byte;
                self.bytes = rest;
                Ok(byte)
            }
            [] => Err(CodecError::NotCanonical),
        }
    }

    /// Reads a number of two bytes.
    #[tactic(auto, unfolding(crate::specs::Readers::number))]
    pub fn u16(&mut self) -> Result<u16, CodecError>
        ensures { Reads (number 2 self.old) result self.new }
    {
        if self.bytes.len() < 2 {
            return Err(CodecError::NotCanonical);
        }
        let number = u16_of(self.bytes);
        let (_, rest) = self.bytes.split_at(2);
        self.bytes = rest;
        Ok(number)
    }

    /// Reads a number of four bytes.
    #[tactic(auto, unfolding(crate::specs::Readers::number))]
    pub fn u32(&mut self) -> Result<u32, CodecError>
        ensures { Reads (number 4 self.old) result self.new }
    {
        if self.bytes.len() < 4 {
            return Err(CodecError::NotCanonical);
        }
        let number = u32_of(self.bytes);
        let (_, rest) = self.bytes.split_at(4);
        self.bytes = rest;
        Ok(number)
    }

    /// Reads a number of eight bytes.
    #[tactic(auto, unfolding(crate::specs::Readers::number))]
    pub fn u64(&mut self) -> Result<u64, CodecError>
        ensures { Reads (number 8 self.old) result self.new }
    {
        if self.bytes.len() < 8 {
            return Err(CodecError::NotCanonical);
        }
        let number = u64_of(self.bytes);
        let (_, rest) = self.bytes.split_at(8);
        self.bytes = rest;
        Ok(number)
    }

    /// Reads a number of eight bytes with a sign.
    #[tactic(auto, unfolding(crate::specs::EntryReaders::integer))]
    pub fn i64(&mut self) -> Result<i64, CodecError>
        ensures { Reads (entry.integer self.old) result self.new }
    {
        Ok(self.u64()?.cast_signed())
    }

    /// Reads a flag.
    #[tactic(auto, unfolding(crate::specs::EntryReaders::flag))]
    pub fn flag(&mut self) -> Result<bool, CodecError>
        ensures { Reads (entry.flag self.old) result self.new }
    {
        match self.u8()? {
            0 => Ok(false),
            1 => Ok(true),
            _ => Err(CodecError::NotCanonical),
        }
    }
}

fn u16_of(bytes: &[u8]) -> u16
    requires { 2 ≤ length bytes.now }
    ensures { number 2 bytes.now ≡ Some (result, drop 2 bytes.now) }
{
    LittleEndian::read_u16(bytes)
}

fn u32_of(bytes: &[u8]) -> u32
    requires { 4 ≤ length bytes.now }
    ensures { number 4 bytes.now ≡ Some (result, drop 4 bytes.now) }
{
    LittleEndian::read_u32(bytes)
}

fn u64_of(bytes: &[u8]) -> u64
    requires { 8 ≤ length bytes.now }
    ensures { number 8 bytes.now ≡ Some (result, drop 8 bytes.now) }
{
    LittleEndian::read_u64(bytes)
}

/// The value, where no byte is left behind it.
pub fn at_end<T: Drop>(value: T, input: &Input<'_>) -> Result<T, CodecError>
    ensures { Gives (if_at_end value input.now) result }
{
    if input.left() == 0 {
        Ok(value)
    } else {
        Err(CodecError::NotCanonical)
    }
}

/// A copy of bytes that are UTF-8.
pub fn utf8(alloc: Global, bytes: &[u8]) -> Result<Text, CodecError>
    ensures { Gives (if_utf8 bytes.now) result }
{
    match str::from_utf8(bytes) {
        Ok(text) => Ok(Text::of(alloc, text)?),
        Err(_) => Err(CodecError::NotCanonical),
    }
}
