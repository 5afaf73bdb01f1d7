ghost use Rattle.ct_run.specs.Laws.{Completes, OneCommand, OneRun, OneTranscript};
ghost use Rattle.ct_run.specs.Soundness.{KeepsSoundAlone, MeantAreRead, MeantPlaysKeepValid, ReadPlaysKeepValid, SoundRowsFit};

/// A call with the word `run`, whose source leaves a script and whose source and sink do not fail, comes to status 0 or
/// to want of memory.
pub fn completes()
    ensures { Completes }
{}

/// A text is at most one command.
pub fn one_command()
    ensures { OneCommand }
{}

/// Bytes have at most one run in which memory was never wanting.
pub fn one_run()
    ensures { OneRun }
{}

/// Two calls of status 0 whose sources had left the same bytes have added the same transcript to their sinks.
pub fn one_transcript()
    ensures { OneTranscript }
{}

/// In a sound machine, whose variables have representable values, the rows that a statement writes fit their table.
pub fn sound_rows_fit()
    ensures { SoundRowsFit }
{}

/// A statement that is read from a text of code points leaves a sound machine sound, and its variables representable,
/// whatever it is answered; the session's number is a byte.
pub fn keeps_sound_alone()
    ensures { KeepsSoundAlone }
{}

/// A play of such statements from the empty database keeps it valid.
pub fn read_plays_keep_valid()
    ensures { ReadPlaysKeepValid }
{}

/// What a text of code points means is a sentence of the grammar, whose text literals are of code points.
pub fn meant_are_read()
    ensures { MeantAreRead }
{}

/// A play of what texts of code points mean keeps the database valid, from the empty one on.
pub fn meant_plays_keep_valid()
    ensures { MeantPlaysKeepValid }
{}
