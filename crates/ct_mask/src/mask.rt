ghost use Rattle.std.specs.Prelude.{◌≡◌, ℕ, ◌==◌, ◌||◌, ◌≢◌, ◌++◌, ◌<◌, true, IfOk, OnOk};
ghost use Rattle.std.specs.List.{All};
ghost use Rattle.ct_mask.specs.Masks.{IsId, has_id, HasExactly, bytes_of, spelled, id_upto};

use ct_types::{Bin, Memory};
use std::alloc::{AllocError, Global};
use std::marker::Model;

/// A set of column ids, each from 1 to 64. Contracts see it as the number whose bit c - 1 stands for the id c, which is
/// how a change keeps it.
#[derive(Clone, Copy, Debug, PartialEq, Eq)]
pub struct Mask {
    bits: u64,
}

impl Model for Mask {
    ghost use Rattle.std.specs.Prelude.{ℕ};

    ghost Value = { ℕ };

    ghost view = { λ mask. mask.bits };

    ghost inverse = { λ bits. record { bits = bits } };
}

impl Mask {
    /// The set that a change keeps as this number.
    pub fn from_bits(bits: u64) -> Mask
        ensures { result ≡ bits }
    {
        Mask { bits }
    }

    /// The number that a change keeps of the set.
    pub fn bits(self) -> u64
        ensures { result ≡ self }
    {
        self.bits
    }

    /// The set of these ids, each from 1 to 64.
    pub fn of(ids: &[u16]) -> Mask
        requires { All IsId ids.now }
        ensures { HasExactly result ids.now }
    {
        let mut mask = Mask { bits: 0 };
        for id in ids {
            mask = mask.with(*id);
        }
        mask
    }

    /// The set with one id more.
    #[tactic(auto, using(crate::proofs::Bits::set_steps))]
    fn with(self, id: u16) -> Mask
        requires { IsId id }
        ensures same { has_id result id ≡ true }
        ensures others { (other : ℕ) → IsId other → other ≢ id → has_id result other ≡ has_id self other }
    {
        Mask {
            bits: self.bits | 1u64 << (id - 1),
        }
    }

    /// The ids of both sets.
    #[tactic(auto, using(crate::proofs::Bits::union_steps))]
    pub fn union(self, other: Mask) -> Mask
        ensures { (id : ℕ) → has_id result id ≡ (has_id self id || has_id other id) }
    {
        Mask {
            bits: self.bits | other.bits,
        }
    }

    /// Whether the set has an id from 1 to 64.
    pub fn has(self, id: u16) -> bool
        requires { IsId id }
        ensures { result ≡ has_id self id }
    {
        (self.bits >> (id - 1)) & 1 == 1
    }

    /// What SYS_CHANGE_COLUMNS shows of the set: its ids in rising order, each as four bytes, the low one first.
    /// `Memory` is the only error. That a mask is bytes is T-SQL's; their form is this project's own.
    #[tactic(auto, using(crate::proofs::Groups::bytes_steps))]
    pub fn bytes(self, alloc: Global) -> Result<Bin, Memory>
        ensures { IfOk result (λ made. made ≡ bytes_of self) }
    {
        let mut bytes = Vec::new(alloc);
        for place in 0..64u16 {
            self.push_id(&mut bytes, place + 1)?;
        }
        Ok(Bin::from_vec(bytes))
    }

    /// Adds the bytes of an id where the set has it.
    fn push_id(self, bytes: &mut Vec<u8>, id: u16) -> Result<(), AllocError>
        requires { IsId id }
        ensures { OnOk result (bytes.new.items ≡ bytes.old.items ++ spelled (id_upto id self)) }
    {
        if self.has(id) {
            bytes.extend_from_slice(&u32::from(id).to_le_bytes())?;
        }
        Ok(())
    }
}
