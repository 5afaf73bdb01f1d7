ghost use Rattle.std.specs.Prelude.{◌≡◌, ◌++◌, ◌∷◌, [], IfOk, OnOk, filter, map};
ghost use Rattle.ct_model.specs.Apply.{commit_stays, trim};
ghost use Rattle.ct_database.specs.Commits.{committed};
ghost use Rattle.ct_database.specs.Steps.{commits_of, newest_of, pointed};

use crate::chunk::Chunk;
use crate::committed::Committed;
use crate::needed::is_needed;
use ct_ptree::Tree;
use ct_source::Stored;
use ct_types::{Kept, List, Memory, push};
use std::alloc::Global;
use std::sync::Arc;

/// Adds what is told of a commit, if some tracked table needs that.
fn push_told(made: &mut List<Committed>, tables: &[Stored], one: &Kept) -> Result<(), Memory>
    ensures { OnOk result (made.new ≡ made.old ++ map committed (filter (commit_stays tables.now) (one.now ∷ []))) }
{
    if is_needed(tables, one) {
        push(
            made,
            Committed {
                version: one.version,
                xdes: one.xdes,
                time: one.time,
            },
        )?;
    }
    Ok(())
}

/// Adds what is told of the commits that some tracked table needs.
fn push_all_told(
    made: &mut List<Committed>,
    tables: &[Stored],
    commits: &[Arc<Kept>],
) -> Result<(), Memory>
    ensures { OnOk result (made.new ≡ made.old ++ map committed (filter (commit_stays tables.now) (pointed commits.now))) }
{
    for one in commits {
        push_told(made, tables, one)?;
    }
    Ok(())
}

/// What is told of the commits of chunks that some tracked table needs.
pub(crate) fn told(
    alloc: Global,
    tables: &[Stored],
    sealed: &Tree<Arc<Chunk>>,
) -> Result<List<Committed>, Memory>
    ensures { IfOk result (λ made. made ≡ map committed (trim tables.now (commits_of sealed.now))) }
{
    let mut made = List::new(alloc);
    for pair in sealed.pairs() {
        push_all_told(&mut made, tables, pair.value.pointers())?;
    }
    Ok(made)
}

/// Adds what is told of the commits of a chunk that some tracked table needs.
pub(crate) fn told_recent(
    made: &mut List<Committed>,
    tables: &[Stored],
    recent: &Chunk,
) -> Result<(), Memory>
    ensures { OnOk result (made.new ≡ made.old ++ map committed (trim tables.now recent.now)) }
{
    push_all_told(made, tables, recent.pointers())
}

/// Adds what is told of the newest commit, if there is one that some tracked table needs.
pub(crate) fn told_newest(
    made: &mut List<Committed>,
    tables: &[Stored],
    newest: &Option<Arc<Kept>>,
) -> Result<(), Memory>
    ensures { OnOk result (made.new ≡ made.old ++ map committed (trim tables.now (newest_of newest.now))) }
{
    match newest {
        None => Ok(()),
        Some(newest) => push_told(made, tables, newest),
    }
}
