ghost use Rattle.std.specs.Prelude.{◌≡◌, Some};
ghost use Rattle.ct_types.specs.declared.entry.Entry.{Entry};
ghost use Rattle.ct_codec.specs.Codes.{IsCode, IsExact, BeginsNoOther};
ghost use Rattle.ct_codec.specs.EntryReaders.{entry_of, piece_of};
ghost use Rattle.ct_codec.specs.Spellings.{spell_entry, EntryFits, bare, spell_piece, PieceFits};

/// An entry is found in bytes exactly where they are the spelling of one that can be spelled.
pub fn entry_is_exact()
    ensures { IsExact entry_of spell_entry EntryFits }
{}

/// An entry's spelling read back is the entry, without the keys of writes that have a row.
pub fn entry_reads_back()
    ensures { (entry : Entry) → EntryFits (bare entry) → entry_of (spell_entry (bare entry)) ≡ Some (bare entry) }
{}

/// The spelling of an entry begins the spelling of no other.
pub fn entry_begins_no_other()
    ensures { BeginsNoOther spell_entry EntryFits }
{}

/// A piece is read exactly where bytes begin with the spelling of one that can be spelled, and what is left is behind it.
pub fn piece_is_exact()
    ensures { IsCode piece_of spell_piece PieceFits }
{}

/// The spelling of a piece begins the spelling of no other.
pub fn piece_begins_no_other()
    ensures { BeginsNoOther spell_piece PieceFits }
{}
