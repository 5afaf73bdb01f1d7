ghost use Rattle.std.specs.Prelude.{◌≡◌, ◌++◌, ◌∷◌, [], IfOk, OnOk, OnErr, MatchOption, nat_le, length, filter};
ghost use Rattle.std.specs.List.{find};
ghost use Rattle.std.specs.Option.{option_copied};
ghost use Rattle.ct_source.specs.Rows.{lent};
ghost use Rattle.ct_database.specs.Steps.{EndsWith, is_later, is_version, pointed};

use ct_types::{Kept, List, Memory, push};
use std::alloc::Global;
use std::marker::Model;
use std::sync::Arc;

/// The number of commits of a full chunk.
const FULL: usize = 64;

/// Some commits in their order, each behind a counted pointer.
#[derive(Drop)]
pub(crate) struct Chunk {
    commits: Vec<Arc<Kept>>,
}

impl Model for Chunk {
    ghost use Rattle.std.specs.Prelude.{List};
    ghost use Rattle.ct_types.specs.declared.entry.Kept.{Kept};
    ghost use Rattle.ct_database.specs.Steps.{pointed};

    ghost Value = { List Kept };

    ghost view = { λ it. pointed it.commits.items };
}

/// The same pointers once more.
fn shares(alloc: Global, commits: &[Arc<Kept>]) -> Result<Vec<Arc<Kept>>, Memory>
    ensures { IfOk result (λ made. pointed made.items ≡ pointed commits.now) }
{
    let mut made = Vec::with_capacity(alloc, commits.len())?;
    for one in commits {
        made.push(Arc::try_clone(one)?)?;
    }
    Ok(made)
}

/// Adds a commit at the end. Want of memory leaves the list as it was.
fn push_pointer(commits: &mut Vec<Arc<Kept>>, one: Arc<Kept>) -> Result<(), Memory>
    ensures ok { OnOk result (pointed commits.new.items ≡ pointed commits.old.items ++ one.value ∷ []) }
    ensures err { OnErr result (pointed commits.new.items ≡ pointed commits.old.items) }
{
    commits.push(one)?;
    Ok(())
}

/// The last commit, if there is one.
fn last_of(commits: &[Arc<Kept>]) -> Option<&Kept>
    ensures { MatchOption result (pointed commits.now ≡ []) (λ one. EndsWith one.now (pointed commits.now)) }
{
    let count = commits.len();
    if count == 0 {
        None
    } else {
        Some(&*commits[count - 1])
    }
}

/// The commit of a version, if it is there.
fn commit_at(commits: &[Arc<Kept>], version: u64) -> Option<&Kept>
    ensures { option_copied result ≡ find (is_version version) (pointed commits.now) }
{
    for one in commits {
        if one.version == version {
            return Some(&**one);
        }
    }
    None
}

/// Lends the commits above a version.
fn push_later<'a>(
    made: &mut List<&'a Kept>,
    commits: &'a [Arc<Kept>],
    version: u64,
) -> Result<(), Memory>
    ensures { OnOk result (lent made.new ≡ lent made.old ++ filter (is_later version) (pointed commits.now)) }
{
    for one in commits {
        if version < one.version {
            push(made, &**one)?;
        }
    }
    Ok(())
}

impl Chunk {
    /// No commit. It takes no memory.
    pub(crate) fn new(alloc: Global) -> Chunk
        ensures { result ≡ [] }
    {
        Chunk {
            commits: Vec::new(alloc),
        }
    }

    /// The same commits once more, with no copy of one: it costs a pointer a commit.
    pub(crate) fn share(&self, alloc: Global) -> Result<Chunk, Memory>
        ensures { IfOk result (λ made. made ≡ self.now) }
    {
        Ok(Chunk {
            commits: shares(alloc, self.commits.as_slice())?,
        })
    }

    /// The pointers to the commits.
    pub(crate) fn pointers(&self) -> &[Arc<Kept>]
        ensures { pointed result.now ≡ self.now }
    {
        self.commits.as_slice()
    }

    /// Whether there are as many commits as a chunk is to have.
    pub(crate) fn is_full(&self) -> bool
        ensures { result ≡ nat_le 64 (length self.now) }
    {
        FULL <= self.commits.len()
    }

    /// The last commit, if there is one.
    pub(crate) fn last(&self) -> Option<&Kept>
        ensures { MatchOption result (self.now ≡ []) (λ one. EndsWith one.now self.now) }
    {
        last_of(self.commits.as_slice())
    }

    /// The commit of a version, if it is there.
    pub(crate) fn at(&self, version: u64) -> Option<&Kept>
        ensures { option_copied result ≡ find (is_version version) self.now }
    {
        commit_at(self.commits.as_slice(), version)
    }

    /// Lends the commits above a version.
    pub(crate) fn push_later<'a>(
        &'a self,
        made: &mut List<&'a Kept>,
        version: u64,
    ) -> Result<(), Memory>
        ensures { OnOk result (lent made.new ≡ lent made.old ++ filter (is_later version) self.now) }
    {
        push_later(made, self.commits.as_slice(), version)
    }

    /// Adds a commit at the end. Want of memory leaves the chunk as it was.
    pub(crate) fn push(&mut self, one: Arc<Kept>) -> Result<(), Memory>
        ensures ok { OnOk result (self.new ≡ self.old ++ one.value ∷ []) }
        ensures err { OnErr result (self.new ≡ self.old) }
    {
        push_pointer(&mut self.commits, one)
    }

    /// Removes all commits, and keeps the room that they took.
    pub(crate) fn clear(&mut self)
        ensures { self.new ≡ [] }
    {
        self.commits.clear();
    }
}
