ghost use Rattle.ct_machine_laws.specs.Schemas.{CreatesDefinable};
ghost use Rattle.ct_machine_laws.specs.Acts.{CreatesApply, EnablesApply, DisablesApply, TruncatesApply, SettingsApply};
ghost use Rattle.ct_machine_laws.specs.Grammar.{ParsedAreSpelled};
ghost use Rattle.ct_machine_laws.specs.Writes.{WritesSuitTheirTable, SetsSuitTheirVariable, DeclaresSuitTheirVariable};
ghost use Rattle.ct_machine_laws.specs.Laws.{OpensSound, SoundIsValid, EntriesApply, StaysSound, PlaysKeepValid, SeenIsValid, PendingApplies, OneHolds};
ghost use Rattle.ct_machine_laws.specs.Laws.{SettingsCommitWell, CreatesCommitWell, EnablesCommitWell, DisablesCommitWell, TruncatesCommitWell, WrongCommitsWell, SelectsCommitWell, TransactionsCommitWell, SetsCommitWell, DeclaresCommitWell, CommandsCommitWell, WritesCommitWell};
ghost use Rattle.ct_machine_laws.specs.Keeping.{KeepsSound};

/// A table that CREATE TABLE makes is one that may be defined, has the next id, and no table of the catalogue has its name.
pub fn creates_definable()
    ensures { CreatesDefinable }
{}

/// What CREATE TABLE comes to in the catalogue of a database applies to it.
pub fn creates_apply()
    ensures { CreatesApply }
{}

/// What ENABLE comes to in the catalogue of a database applies to it.
pub fn enables_apply()
    ensures { EnablesApply }
{}

/// What DISABLE comes to in the catalogue of a database applies to it.
pub fn disables_apply()
    ensures { DisablesApply }
{}

/// What TRUNCATE comes to in the catalogue of a database applies to it, and draws a version exactly where the table is tracked.
pub fn truncates_apply()
    ensures { TruncatesApply }
{}

/// What ALTER DATABASE comes to in the catalogue and the settings of a database applies to it.
pub fn settings_apply()
    ensures { SettingsApply }
{}

/// Of a tree that was read from a text, CREATE TABLE gives its table and its columns names of 1 to 128 characters from space to `~`
/// without `]`, and UPDATE sets one column at least.
pub fn parsed_are_spelled()
    ensures { ParsedAreSpelled }
{}

/// In the catalogue of a valid database, the SET list of a bound write names columns of its table, one at least and none of
/// the key, and each value that is put into a column is of the column's kind.
pub fn writes_suit_their_table()
    ensures { WritesSuitTheirTable }
{}

/// What SET gives a variable is of the variable's kind.
pub fn sets_suit_their_variable()
    ensures { SetsSuitTheirVariable }
{}

/// What DECLARE gives a variable is of the variable's kind.
pub fn declares_suit_their_variable()
    ensures { DeclaresSuitTheirVariable }
{}

/// The opening of a valid database is sound.
pub fn opens_sound()
    ensures { OpensSound }
{}

/// The database of a sound machine is valid.
pub fn sound_is_valid()
    ensures { SoundIsValid }
{}

/// In a sound machine a statement whose act applies gives an entry that applies.
pub fn entries_apply()
    ensures { EntriesApply }
{}

/// A sound machine is sound after each statement that is well, whatever it was answered; the session's number is a byte.
pub fn stays_sound()
    ensures { StaysSound }
{}

/// A play of such statements from the empty database keeps it valid.
pub fn plays_keep_valid()
    ensures { PlaysKeepValid }
{}

/// A session of a sound machine sees a valid database: the newest one or that of its view, with its own writes that wait.
pub fn seen_is_valid()
    ensures { SeenIsValid }
{}

/// The writes that wait in a session of a sound machine apply to its newest database as one commit, whatever others committed since
/// they were made.
pub fn pending_applies()
    ensures { PendingApplies }
{}

/// No two sessions of a sound machine hold one key.
pub fn one_holds()
    ensures { OneHolds }
{}

/// What ALTER DATABASE commits applies.
pub fn settings_commit_well()
    ensures { SettingsCommitWell }
{}

/// What CREATE TABLE commits applies, where names are names.
pub fn creates_commit_well()
    ensures { CreatesCommitWell }
{}

/// What ENABLE commits applies.
pub fn enables_commit_well()
    ensures { EnablesCommitWell }
{}

/// What DISABLE commits applies.
pub fn disables_commit_well()
    ensures { DisablesCommitWell }
{}

/// What TRUNCATE commits applies.
pub fn truncates_commit_well()
    ensures { TruncatesCommitWell }
{}

/// A text that is no sentence commits nothing.
pub fn wrong_commits_well()
    ensures { WrongCommitsWell }
{}

/// A SELECT commits nothing.
pub fn selects_commit_well()
    ensures { SelectsCommitWell }
{}

/// COMMIT commits what waits in its transaction, which applies; BEGIN, ROLLBACK, levels and the lock limit commit nothing.
pub fn transactions_commit_well()
    ensures { TransactionsCommitWell }
{}

/// SET gives its variable a value of the variable's kind.
pub fn sets_commit_well()
    ensures { SetsCommitWell }
{}

/// DECLARE gives its variable a value of the variable's kind.
pub fn declares_commit_well()
    ensures { DeclaresCommitWell }
{}

/// A command of a script commits nothing, since none is built.
pub fn commands_commit_well()
    ensures { CommandsCommitWell }
{}

/// What INSERT, UPDATE and DELETE commit applies, where binding keeps its promise of columns and kinds, and where the rows
/// that are written fit.
pub fn writes_commit_well()
    ensures { WritesCommitWell }
{}

/// A statement that the grammar gives leaves a sound machine sound, whatever it is answered, where the rows that it writes
/// fit; the session's number is a byte.
pub fn keeps_sound()
    ensures { KeepsSound }
{}
