ghost use Rattle.std.specs.Prelude.{◌≡◌, ◌++◌, OnOk, codes, string_bytes};
ghost use Rattle.ct_machine.specs.Transcript.{named, counted, key_text, refusal_text};

use crate::value::{add_key, add_words};
use ct_types::{Key, Refusal, Text};
use std::alloc::AllocError;

/// Adds a line of words and a name.
fn add_named(out: &mut String, words: &str, name: &Text) -> Result<(), AllocError>
    ensures { OnOk result (string_bytes out.new ≡ string_bytes out.old ++ named words.now name.now) }
{
    out.push_str(words)?;
    out.push_str(name.as_str())?;
    out.push_str("\n")
}

/// Adds a line of words and a number.
pub(crate) fn add_count(out: &mut String, words: &str, count: u64) -> Result<(), AllocError>
    ensures { OnOk result (string_bytes out.new ≡ string_bytes out.old ++ counted words.now count) }
{
    out.push_str(words)?;
    write!(out, "{count}\n")
}

/// Adds words, a table's name and a key of it, with no end of line.
fn add_table_key(out: &mut String, words: &str, table: &Text, key: &Key) -> Result<(), AllocError>
    ensures { OnOk result (string_bytes out.new ≡ string_bytes out.old ++ (words.now ++ table.now ++ codes " key " ++ key_text key.now)) }
{
    out.push_str(words)?;
    out.push_str(table.as_str())?;
    out.push_str(" key ")?;
    add_key(out, key)
}

#[tactic(auto, unfolding(ct_machine::specs::Transcript::refusal_text))]
fn add_blocked(out: &mut String, table: &Text, key: &Key, holder: u8) -> Result<(), AllocError>
    ensures { OnOk result (string_bytes out.new ≡ string_bytes out.old ++ refusal_text (Refusal.Blocked table.now key.now holder)) }
{
    add_table_key(out, "Msg 1222 ", table, key)?;
    write!(out, " holder {holder}\n")
}

#[tactic(auto, unfolding(ct_machine::specs::Transcript::refusal_text))]
fn add_duplicate(out: &mut String, table: &Text, key: &Key) -> Result<(), AllocError>
    ensures { OnOk result (string_bytes out.new ≡ string_bytes out.old ++ refusal_text (Refusal.Duplicate table.now key.now)) }
{
    add_table_key(out, "Msg 2627 ", table, key)?;
    out.push_str("\n")
}

#[tactic(auto, unfolding(ct_machine::specs::Transcript::refusal_text))]
fn add_conflict(out: &mut String, table: &Text, xdes: u64) -> Result<(), AllocError>
    ensures { OnOk result (string_bytes out.new ≡ string_bytes out.old ++ refusal_text (Refusal.Conflict table.now xdes)) }
{
    out.push_str("Msg 3960 ")?;
    out.push_str(table.as_str())?;
    write!(out, " by {xdes}\n")
}

#[tactic(auto, unfolding(ct_machine::specs::Transcript::refusal_text))]
fn add_log_full(out: &mut String, used: u64, needed: u64) -> Result<(), AllocError>
    ensures { OnOk result (string_bytes out.new ≡ string_bytes out.old ++ refusal_text (Refusal.LogFull used needed)) }
{
    write!(out, "Msg 9002 used {used} needed {needed}\n")
}

#[tactic(auto, unfolding(ct_machine::specs::Transcript::refusal_text))]
fn add_tables_tracked(out: &mut String, count: u32) -> Result<(), AllocError>
    ensures { OnOk result (string_bytes out.new ≡ string_bytes out.old ++ refusal_text (Refusal.TablesTracked count)) }
{
    write!(out, "Refused TablesTracked {count}\n")
}

#[tactic(auto, unfolding(ct_machine::specs::Transcript::refusal_text))]
fn add_checkpoint_busy(out: &mut String, owner: u8) -> Result<(), AllocError>
    ensures { OnOk result (string_bytes out.new ≡ string_bytes out.old ++ refusal_text (Refusal.CheckpointBusy owner)) }
{
    write!(out, "Refused CheckpointBusy {owner}\n")
}

#[tactic(auto, unfolding(ct_machine::specs::Transcript::refusal_text))]
fn add_count_clash(out: &mut String, wanted: u32, got: u32) -> Result<(), AllocError>
    ensures { OnOk result (string_bytes out.new ≡ string_bytes out.old ++ refusal_text (Refusal.CountClash wanted got)) }
{
    write!(out, "Refused CountClash {wanted} {got}\n")
}

/// Adds the line of a refusal.
#[tactic(auto, unfolding(ct_machine::specs::Transcript::refusal_text))]
pub(crate) fn add_refusal(out: &mut String, refusal: &Refusal) -> Result<(), AllocError>
    ensures { OnOk result (string_bytes out.new ≡ string_bytes out.old ++ refusal_text refusal.now) }
{
    match refusal {
        Refusal::Syntax { at } => add_count(out, "Msg 102 at ", u64::from(*at)),
        Refusal::NoColumn { name } => add_named(out, "Msg 207 ", name),
        Refusal::NoObject { name } => add_named(out, "Msg 208 ", name),
        Refusal::NotNull { column } => add_named(out, "Msg 515 ", column),
        Refusal::Victim => add_words(out, "Msg 1205\n"),
        Refusal::Blocked { table, key, holder } => add_blocked(out, table, key, *holder),
        Refusal::Duplicate { table, key } => add_duplicate(out, table, key),
        Refusal::Exists { name } => add_named(out, "Msg 2714 ", name),
        Refusal::NoCommit => add_words(out, "Msg 3902\n"),
        Refusal::NoRollback => add_words(out, "Msg 3903\n"),
        Refusal::Conflict { table, xdes } => add_conflict(out, table, *xdes),
        Refusal::Overflow => add_words(out, "Msg 8115\n"),
        Refusal::TooLong { column } => add_named(out, "Msg 8152 ", column),
        Refusal::LogFull { used, needed } => add_log_full(out, *used, *needed),
        Refusal::NotTracked { name } => add_named(out, "Refused NotTracked ", name),
        Refusal::AlreadyTracked { name } => add_named(out, "Refused AlreadyTracked ", name),
        Refusal::TrackingOff => add_words(out, "Refused TrackingOff\n"),
        Refusal::InTransaction => add_words(out, "Refused InTransaction\n"),
        Refusal::NoCheckpoint => add_words(out, "Refused NoCheckpoint\n"),
        Refusal::NoLook => add_words(out, "Refused NoLook\n"),
        Refusal::TypeClash => add_words(out, "Refused TypeClash\n"),
        Refusal::BadRetention => add_words(out, "Refused BadRetention\n"),
        Refusal::DiskFault => add_words(out, "Refused DiskFault\n"),
        Refusal::Memory => add_words(out, "Refused Memory\n"),
        Refusal::TablesTracked { count } => add_tables_tracked(out, *count),
        Refusal::CheckpointBusy { owner } => add_checkpoint_busy(out, *owner),
        Refusal::BadTable { rule } => add_count(out, "Refused BadTable ", u64::from(*rule)),
        Refusal::Ambiguous { name } => add_named(out, "Refused Ambiguous ", name),
        Refusal::NoVariable { name } => add_named(out, "Refused NoVariable ", name),
        Refusal::VariableExists { name } => add_named(out, "Refused VariableExists ", name),
        Refusal::KeyUpdate { name } => add_named(out, "Refused KeyUpdate ", name),
        Refusal::CountClash { wanted, got } => add_count_clash(out, *wanted, *got),
        Refusal::TooMany { limit } => add_count(out, "Refused TooMany ", u64::from(*limit)),
        Refusal::Exhausted { limit } => add_count(out, "Refused Exhausted ", *limit),
        Refusal::Stopped { event } => add_count(out, "Refused Stopped at ", *event),
        Refusal::NotBuilt => add_words(out, "Refused NotBuilt\n"),
    }
}
