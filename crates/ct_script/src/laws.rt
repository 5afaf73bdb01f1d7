ghost use Rattle.ct_script.specs.Laws.{AreReadBack, AreAnswered, AreWrittenApart, HasPlainForm, OneAnswer, AreWithin};

/// Phases of statements that are written out in the plain form are read back: no line is at fault, the lines have these
/// phases, and what `read_script` may answer is their script. So phases that differ are written differently.
pub fn plain_scripts_are_read_back()
    ensures phases { AreReadBack }
    ensures answer { AreAnswered }
    ensures apart { AreWrittenApart }
{}

/// A script that `read_script` takes has a plain form, which it reads as the same script, where no line has a CR but the one
/// before its LF.
pub fn scripts_have_a_plain_form()
    ensures { HasPlainForm }
{}

/// Bytes have one answer, but for want of memory.
pub fn one_answer()
    ensures { OneAnswer }
{}

/// The script of so many bytes at most has at most so many statements. They are numbered up to that, and no text of theirs
/// is longer than 65,536 bytes.
pub fn scripts_are_within()
    ensures { AreWithin }
{}
