ghost use Rattle.std.specs.Prelude.{◌≡◌, ◌<◌, ◌≤◌, ◌+◌, ◌-◌, [], ◌∷◌, ℕ, length, take, set, vec_capacity, IfOk, OnOk, vec_len};
ghost use Rattle.ct_faults.specs.Disk.{overwritten};
ghost use Rattle.ct_disk.specs.Areas.{area_at, contents_of, HaveRoom};

use std::alloc::{AllocError, Global};

/// Six empty areas.
pub(crate) fn empty_areas(alloc: Global) -> Result<Vec<Vec<u8>>, AllocError>
    ensures { IfOk result (λ made. contents_of made.items ≡ [] ∷ [] ∷ [] ∷ [] ∷ [] ∷ [] ∷ []) }
{
    let mut made = Vec::new(alloc);
    made.push(Vec::new(alloc))?;
    made.push(Vec::new(alloc))?;
    made.push(Vec::new(alloc))?;
    made.push(Vec::new(alloc))?;
    made.push(Vec::new(alloc))?;
    made.push(Vec::new(alloc))?;
    Ok(made)
}

/// A copy of all areas.
pub(crate) fn copy_areas(alloc: Global, areas: &[Vec<u8>]) -> Result<Vec<Vec<u8>>, AllocError>
    ensures { IfOk result (λ made. contents_of made.items ≡ contents_of areas.now) }
{
    let mut made = Vec::new(alloc);
    for i in 0..areas.len() {
        made.push(Vec::from_slice(alloc, areas[i].as_slice())?)?;
    }
    Ok(made)
}

/// Writes over what is there and past the end, for which there is memory.
pub(crate) fn overwrite(bytes_there: &mut Vec<u8>, at: usize, bytes: &[u8])
    requires at { at ≤ length bytes_there.old.items }
    requires room { length bytes_there.old.items + length bytes.now ≤ vec_capacity bytes_there.old }
    ensures written { bytes_there.new.items ≡ overwritten at bytes.now bytes_there.old.items }
    ensures capacity { vec_capacity bytes_there.old ≤ vec_capacity bytes_there.new }
{
    let end = at + bytes.len();
    if end > bytes_there.len() {
        match bytes_there.resize(end, 0) {
            Ok(()) => {}
            Err(_) => unreachable!(),
        }
    }
    bytes_there[at..end].copy_from_slice(bytes);
}

/// Writes into an area, where each area has room for so many bytes.
pub(crate) fn put_at(areas: &mut Vec<Vec<u8>>, area: u8, at: usize, bytes: &[u8], room: usize)
    requires area { area < length areas.old.items }
    requires at { at ≤ length (area_at areas.old.items area) }
    requires room { HaveRoom room areas.old.items }
    requires fits { length bytes.now ≤ room }
    ensures written { area_at areas.new.items area ≡ overwritten at bytes.now (area_at areas.old.items area) }
    ensures others { (other : ℕ) → (other ≡ area → ⊥) → area_at areas.new.items other ≡ area_at areas.old.items other }
    ensures room { HaveRoom (room - length bytes.now) areas.new.items }
    ensures count { length areas.new.items ≡ length areas.old.items }
{
    let there = &mut areas[area as usize];
    overwrite(there, at, bytes);
}

/// Cuts an area.
pub(crate) fn cut_at(areas: &mut Vec<Vec<u8>>, area: u8, len: usize, room: usize)
    requires area { area < length areas.old.items }
    requires room { HaveRoom room areas.old.items }
    ensures written { area_at areas.new.items area ≡ take len (area_at areas.old.items area) }
    ensures others { (other : ℕ) → (other ≡ area → ⊥) → area_at areas.new.items other ≡ area_at areas.old.items other }
    ensures room { HaveRoom room areas.new.items }
    ensures count { length areas.new.items ≡ length areas.old.items }
{
    let there = &mut areas[area as usize];
    there.truncate(len);
}

/// Makes room for so many bytes in each area.
pub(crate) fn reserve_all(areas: &mut Vec<Vec<u8>>, room: usize) -> Result<(), AllocError>
    ensures items { contents_of areas.new.items ≡ contents_of areas.old.items }
    ensures room { OnOk result (HaveRoom room areas.new.items) }
    ensures keeps { (n : ℕ) → HaveRoom n areas.old.items → HaveRoom n areas.new.items }
    ensures count { length areas.new.items ≡ length areas.old.items }
{
    for i in 0..areas.len() {
        let there = &mut areas[i];
        there.reserve(room)?;
    }
    Ok(())
}
