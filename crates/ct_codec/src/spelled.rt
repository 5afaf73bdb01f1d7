ghost use Rattle.std.specs.Prelude.{◌≡◌, ◌++◌, ◌<◌, ◌^◌, ℕ, List as Listed, length, OnOk};
ghost use Rattle.std.specs.List.{AllByRecursion, flat_map};
ghost use Rattle.ct_codec.specs.Readers.{Reader, Reads, repeated, counted};
ghost use Rattle.ct_codec.specs.Spellings.{CountedFit, spell_counted};

use crate::output::{put_u16, put_u32};
use crate::{CodecError, Input};
use ct_types::{List, Memory, push};
use std::alloc::Global;

/// What stands in lists: it is read, appended and measured by itself.
pub trait Spelled: Sized + Drop {
    /// How it is read.
    ghost reader: { Reader Self };

    /// Its spelling.
    ghost spell: { Self → Listed ℕ };

    /// Whether it can be spelled.
    ghost fits: { Self → Type 0 };

    /// Reads one.
    fn get(alloc: Global, input: &mut Input<'_>) -> Result<Self, CodecError>
        ensures { Reads (reader input.old) result input.new };

    /// Appends its spelling.
    fn put(&self, out: &mut Vec<u8>) -> Result<(), Memory>
        requires { fits self.now }
        ensures { OnOk result (out.new.items ≡ out.old.items ++ spell self.now) };

    /// The length of its spelling.
    fn size(&self) -> u64
        requires fits { fits self.now }
        requires short { length (spell self.now) < 2 ^ 64 }
        ensures { result ≡ length (spell self.now) };
}

/// Reads so many.
pub fn get_all<T: Spelled>(
    alloc: Global,
    count: usize,
    input: &mut Input<'_>,
) -> Result<List<T>, CodecError>
    ensures { Reads (repeated T.reader count input.old) result input.new }
{
    let mut found = List::new(alloc);
    for _turn in 0..count {
        push(&mut found, T::get(alloc, input)?)?;
    }
    Ok(found)
}

/// Reads a count of two bytes, and as many.
pub fn get_few<T: Spelled>(alloc: Global, input: &mut Input<'_>) -> Result<List<T>, CodecError>
    ensures { Reads (counted 2 T.reader input.old) result input.new }
{
    let count = input.u16()?;
    get_all(alloc, usize::from(count), input)
}

/// Reads a count of four bytes, and as many.
pub fn get_many<T: Spelled>(alloc: Global, input: &mut Input<'_>) -> Result<List<T>, CodecError>
    ensures { Reads (counted 4 T.reader input.old) result input.new }
{
    let count = input.u32()?;
    get_all(alloc, count as usize, input)
}

/// Appends the spellings of all.
pub fn put_all<T: Spelled>(out: &mut Vec<u8>, items: &[T]) -> Result<(), Memory>
    requires { AllByRecursion T.fits items.now }
    ensures { OnOk result (out.new.items ≡ out.old.items ++ flat_map T.spell items.now) }
{
    for item in items {
        item.put(out)?;
    }
    Ok(())
}

/// Appends a count of two bytes, and the spellings of all.
pub fn put_few<T: Spelled>(out: &mut Vec<u8>, items: &[T]) -> Result<(), Memory>
    requires { CountedFit 2 T.fits items.now }
    ensures { OnOk result (out.new.items ≡ out.old.items ++ spell_counted 2 T.spell items.now) }
{
    put_u16(out, items.len() as u16)?;
    put_all(out, items)
}

/// Appends a count of four bytes, and the spellings of all.
pub fn put_many<T: Spelled>(out: &mut Vec<u8>, items: &[T]) -> Result<(), Memory>
    requires { CountedFit 4 T.fits items.now }
    ensures { OnOk result (out.new.items ≡ out.old.items ++ spell_counted 4 T.spell items.now) }
{
    put_u32(out, items.len() as u32)?;
    put_all(out, items)
}

/// The length of the spellings of all.
#[tactic(auto, using(crate::proofs::Turns::size_more, crate::proofs::Turns::front_is_short))]
pub fn size_all<T: Spelled>(items: &[T]) -> u64
    requires fits { AllByRecursion T.fits items.now }
    requires short { length (flat_map T.spell items.now) < 2 ^ 64 }
    ensures { result ≡ length (flat_map T.spell items.now) }
{
    let mut total = 0;
    for item in items {
        total += item.size();
    }
    total
}
