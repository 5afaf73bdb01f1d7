ghost use Rattle.ct_spelling_laws.specs.Laws.{EntriesFit, ShortEntriesFit, EntriesAreShort, FramesAreShort, PiecesFit, CommitsStayShort, ReplaysStayShort, FewChangesAreShort, StandingPiecesFit};

/// An entry that applies to a valid database can be spelled, where it has fewer than 2^32 writes.
pub fn entries_fit()
    ensures { EntriesFit }
{}

/// It can where its spelling would have fewer than 2^32 bytes, however many writes it has.
pub fn short_entries_fit()
    ensures { ShortEntriesFit }
{}

/// The spelling of an entry that applies to a valid database has at most 2^20 bytes for each write, and 2^14 beside.
pub fn entries_are_short()
    ensures { EntriesAreShort }
{}

/// With the five bytes of its frame it has fewer than 2^64, where there are fewer than 2^32 writes.
pub fn frames_are_short()
    ensures { FramesAreShort }
{}

/// The pieces of a valid database can be spelled exactly where each kept commit has a spelling of fewer than 2^32 bytes.
pub fn pieces_fit()
    ensures { PiecesFit }
{}

/// After an entry that applies and has a spelling of fewer than 2^32 bytes, kept commits have so if they had before.
pub fn commits_stay_short()
    ensures { CommitsStayShort }
{}

/// After entries that apply in turn and have spellings of fewer than 2^32 bytes, kept commits have so if they had before.
pub fn replays_stay_short()
    ensures { ReplaysStayShort }
{}

/// The kept commits of a valid database that have fewer than 2^18 changes have spellings of fewer than 2^32 bytes.
pub fn few_changes_are_short()
    ensures { FewChangesAreShort }
{}

/// The pieces of a database for which a disk stands can be spelled.
pub fn standing_pieces_fit()
    ensures { StandingPiecesFit }
{}
