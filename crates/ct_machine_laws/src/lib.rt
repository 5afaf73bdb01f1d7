//! The laws of sound machines: what the grammar and binding promise of a statement, that the acts which statements commit apply, that what
//! waits in a transaction goes on to apply whatever other sessions commit, and that plays keep the database valid.
#![tactic(auto)]

mod laws;

pub use laws::{
    commands_commit_well, creates_apply, creates_commit_well, creates_definable,
    declares_commit_well, declares_suit_their_variable, disables_apply, disables_commit_well,
    enables_apply, enables_commit_well, entries_apply, keeps_sound, one_holds, opens_sound,
    parsed_are_spelled, pending_applies, plays_keep_valid, seen_is_valid, selects_commit_well,
    sets_commit_well, sets_suit_their_variable, settings_apply, settings_commit_well,
    sound_is_valid, stays_sound, transactions_commit_well, truncates_apply, truncates_commit_well,
    writes_commit_well, writes_suit_their_table, wrong_commits_well,
};
