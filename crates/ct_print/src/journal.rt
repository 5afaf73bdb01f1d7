ghost use Rattle.std.specs.Prelude.{◌≡◌, ◌++◌, OnOk, IfOk, string_bytes};
ghost use Rattle.ct_machine.specs.Transcript.{head_text, block_text};

use crate::reply::add_reply;
use ct_types::{Bin, Journaled, Memory};
use std::alloc::{AllocError, Global};

#[tactic(auto, unfolding(ct_machine::specs::Transcript::head_text))]
fn add_head(out: &mut String, place: u64, session: u8, number: u32) -> Result<(), AllocError>
    ensures { OnOk result (string_bytes out.new ≡ string_bytes out.old ++ head_text place session number) }
{
    write!(out, "[{place}] {session}.{number}\n")
}

pub(crate) fn add_block(out: &mut String, place: u64, entry: &Journaled) -> Result<(), AllocError>
    ensures { OnOk result (string_bytes out.new ≡ string_bytes out.old ++ block_text place entry.now) }
{
    add_head(out, place, entry.session, entry.number)?;
    add_reply(out, &entry.reply)
}

/// The text of a journal's entry at its place in the journal, in UTF-8: the line `[place] session.number`, then the
/// lines of its reply. Only memory may be wanting.
///
/// The form is this project's own.
pub fn print_block(alloc: Global, place: u64, entry: &Journaled) -> Result<Bin, Memory>
    ensures { IfOk result (λ text. text ≡ block_text place entry.now) }
{
    let mut out = String::new(alloc);
    add_block(&mut out, place, entry)?;
    Ok(Bin::from_vec(out.into_bytes()))
}
