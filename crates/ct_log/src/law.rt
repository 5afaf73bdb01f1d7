ghost use Rattle.ct_log.specs.Laws.{OneLog, OneBreak, LogsDoNotBreak};

/// Bytes are one log at most: its payloads and what is used of the bytes are determined by them.
pub fn one_log()
    ensures { OneLog }
{}

/// The reading of bytes breaks off at one place at most.
pub fn one_break()
    ensures { OneBreak }
{}

/// Of a log the reading breaks off nowhere.
pub fn logs_do_not_break()
    ensures { LogsDoNotBreak }
{}
