ghost use Rattle.ct_print.specs.Laws.{TranscriptsGoOn, TranscriptsGrow};

/// A transcript goes on by the block of the next entry, whose place is the next one; what stands there stays.
pub fn transcripts_go_on()
    ensures { TranscriptsGoOn }
{}

/// A transcript that grew phase by phase and block by block is the text of the journals of the phases.
pub fn transcripts_grow()
    ensures { TranscriptsGrow }
{}
