ghost use Rattle.std.specs.Prelude.{◌≡◌, ◌≤◌, true, drop, length, IfOk, IsOk, OnOk, OnErr};
ghost use Rattle.ct_database.specs.Waiting.{AreStoredIn};
ghost use Rattle.ct_state.specs.Seen.{with_writes};
ghost use Rattle.ct_sessions.specs.Seats.{has_writes as has_some, is_snapshot as under_snapshot, needs_own as needs, reads_at as read_at};
ghost use Rattle.ct_sessions.specs.Steps.{is_at, own_at as own_of, share_at};

use ct_database::Database;
use ct_session::{Session, Tran};
use ct_types::{Memory, Write};
use std::alloc::Global;

/// A share of the newest database, or of the one that was the newest once, with writes of a session.
#[derive(Drop)]
pub(crate) struct Own {
    pub(crate) db: Database,
    /// How many entries it had when it was shared.
    pub(crate) at: u64,
    /// How many of the writes that wait were put into it.
    pub(crate) written: usize,
}

/// A share of the newest database, without a write.
fn share(alloc: Global, newest: &Database, entries: u64) -> Result<Own, Memory>
    ensures { IfOk result (λ made. made ≡ share_at newest.now entries) }
{
    Ok(Own {
        db: newest.share(alloc)?,
        at: entries,
        written: 0,
    })
}

/// What a session had, where that is of the right count of entries, else a share of the newest database. Where it had that, it takes no
/// memory.
pub(crate) fn own_at(
    alloc: Global,
    had: Option<Own>,
    at: u64,
    newest: &Database,
    entries: u64,
) -> Result<Own, Memory>
    ensures is { IfOk result (λ own. own ≡ own_of newest.now entries at had) }
    ensures kept { is_at at had ≡ true → IsOk result }
{
    match had {
        None => share(alloc, newest, entries),
        Some(own) => {
            if own.at == at {
                Ok(own)
            } else {
                share(alloc, newest, entries)
            }
        }
    }
}

/// Puts the writes that are not there yet. Want of memory leaves it as it was.
pub(crate) fn catch_up(own: &mut Own, pending: &[Write]) -> Result<(), Memory>
    requires written { own.old.written ≤ length pending.now }
    requires stored { AreStoredIn own.old.db.tables pending.now }
    ensures ok { OnOk result (own.new ≡ record own.old { db = with_writes own.old.db (drop own.old.written pending.now); written = length pending.now }) }
    ensures err { OnErr result (own.new ≡ own.old) }
{
    let (_, rest) = pending.split_at(own.written);
    own.db.put_rows(rest)?;
    own.written = pending.len();
    Ok(())
}

/// Whether a transaction is under SNAPSHOT.
fn is_snapshot(tran: Tran) -> bool
    ensures { result ≡ under_snapshot tran }
{
    match tran {
        Tran::Snapshot | Tran::Viewed(_) => true,
        Tran::None | Tran::Committed => false,
    }
}

/// Whether a write waits.
fn has_writes(pending: &[Write]) -> bool
    ensures { result ≡ has_some pending.now }
{
    !pending.is_empty()
}

/// Whether the next statement of a session reads a database of its own.
pub(crate) fn needs_own(session: &Session) -> bool
    ensures { result ≡ needs session.now.state }
{
    is_snapshot(session.tran()) || has_writes(session.pending())
}

/// The count of entries of the database that a transaction reads.
pub(crate) fn reads_at(entries: u64, tran: Tran) -> u64
    ensures { result ≡ read_at entries tran }
{
    match tran {
        Tran::Viewed(view) => view.at,
        Tran::None | Tran::Committed | Tran::Snapshot => entries,
    }
}
