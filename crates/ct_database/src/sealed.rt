ghost use Rattle.std.specs.Prelude.{◌≡◌, ◌++◌, true, Some, IfOk, OnErr, filter};
ghost use Rattle.std.specs.List.{find};
ghost use Rattle.std.specs.Option.{IfSome, option_copied};
ghost use Rattle.ct_ptree.specs.Pairs.{Ascends};
ghost use Rattle.ct_source.specs.Rows.{lent};
ghost use Rattle.ct_database.specs.Steps.{AreAtLasts, AreByTable, AreUnneeded, BeginsUnneeded, EndsAt, Rise, commits_of, gone_of, is_later, is_version, older_of};

use crate::by_table::with_commits;
use crate::chunk::Chunk;
use crate::needed::is_needed;
use crate::version::version_key;
use ct_ptree::{Pair, Tree};
use ct_source::Stored;
use ct_types::{Copies, Kept, Key, List, Memory};
use std::alloc::Global;
use std::sync::Arc;

/// The commits of chunks that are above a version, lent. It costs those of the chunks that end at or above it.
pub(crate) fn later(
    alloc: Global,
    sealed: &Tree<Arc<Chunk>>,
    version: u64,
) -> Result<List<&Kept>, Memory>
    requires keyed { AreAtLasts sealed.now }
    requires rising { Rise (commits_of sealed.now) }
    ensures { IfOk result (λ made. lent made ≡ filter (is_later version) (commits_of sealed.now)) }
{
    let from = version_key(alloc, version)?;
    let mut made = List::new(alloc);
    for pair in sealed.range(&from) {
        pair.value.push_later(&mut made, version)?;
    }
    Ok(made)
}

/// The commit of a version in chunks or behind them, if it is there: only the first chunk that ends at or above it can have it.
pub(crate) fn older_at<'a>(
    alloc: Global,
    sealed: &'a Tree<Arc<Chunk>>,
    recent: &'a Chunk,
    version: u64,
) -> Result<Option<&'a Kept>, Memory>
    requires keyed { AreAtLasts sealed.now }
    requires rising { Rise (older_of sealed.now recent.now) }
    ensures { IfOk result (λ made. option_copied made ≡ find (is_version version) (older_of sealed.now recent.now)) }
{
    let from = version_key(alloc, version)?;
    let mut chunks = sealed.range(&from);
    match chunks.next() {
        None => Ok(recent.at(version)),
        Some(pair) => Ok(pair.value.at(version)),
    }
}

/// The key of the version of the last commit, if there is one.
fn last_key(alloc: Global, recent: &Chunk) -> Result<Option<Key>, Memory>
    ensures { IfOk result (λ made. IfSome made (λ key. EndsAt key recent.now)) }
{
    match recent.last() {
        None => Ok(None),
        Some(one) => Ok(Some(version_key(alloc, one.version)?)),
    }
}

/// Makes a chunk of the recent commits, if there are some, and puts it to those of the tables that it changes. Want of memory
/// leaves all as it was.
pub(crate) fn seal(
    alloc: Global,
    sealed: &mut Tree<Arc<Chunk>>,
    by_table: &mut Tree<Tree<Arc<Chunk>>>,
    recent: &mut Chunk,
) -> Result<(), Memory>
    requires keyed { AreAtLasts sealed.old }
    requires listed { AreByTable sealed.old by_table.old }
    requires rising { Rise (older_of sealed.old recent.old) }
    ensures keyed { AreAtLasts sealed.new }
    ensures listed { AreByTable sealed.new by_table.new }
    ensures same { older_of sealed.new recent.new ≡ older_of sealed.old recent.old }
{
    match last_key(alloc, recent)? {
        None => Ok(()),
        Some(key) => {
            let chunk = Arc::new(alloc, recent.share(alloc)?)?;
            let own = with_commits(alloc, by_table, recent, &key, Some(&chunk))?;
            sealed.put(key, chunk)?;
            *by_table = own;
            recent.clear();
            Ok(())
        }
    }
}

/// Whether it is known that no tracked table needs a commit of a chunk: none needs the last one.
fn is_unneeded(tables: &[Stored], chunk: &Chunk) -> bool
    requires { Rise chunk.now }
    ensures { result ≡ true → AreUnneeded tables.now chunk.now }
{
    match chunk.last() {
        None => true,
        Some(one) => !is_needed(tables, one),
    }
}

/// The first chunk and its key, if there is one and no tracked table needs a commit of it.
fn first_unneeded(
    alloc: Global,
    sealed: &Tree<Arc<Chunk>>,
    tables: &[Stored],
) -> Result<Option<Pair<Arc<Chunk>>>, Memory>
    requires { Rise (commits_of sealed.now) }
    ensures rising { Ascends sealed.now }
    ensures first { IfOk result (λ made. IfSome made (BeginsUnneeded tables.now sealed.now)) }
{
    let mut pairs = sealed.pairs();
    match pairs.next() {
        None => Ok(None),
        Some(pair) => {
            if is_unneeded(tables, &pair.value) {
                Ok(Some(Pair {
                    key: pair.key.copy(alloc)?,
                    value: Arc::try_clone(&pair.value)?,
                }))
            } else {
                Ok(None)
            }
        }
    }
}

/// Takes the first chunk out, if no tracked table needs a commit of it, also of those of the tables that it changes. Want of
/// memory leaves the chunks as they were.
pub(crate) fn take_unneeded(
    alloc: Global,
    sealed: &mut Tree<Arc<Chunk>>,
    by_table: &mut Tree<Tree<Arc<Chunk>>>,
    tables: &[Stored],
) -> Result<Option<Arc<Chunk>>, Memory>
    requires keyed { AreAtLasts sealed.old }
    requires listed { AreByTable sealed.old by_table.old }
    requires rising { Rise (commits_of sealed.old) }
    ensures keyed { AreAtLasts sealed.new }
    ensures listed { AreByTable sealed.new by_table.new }
    ensures parts { IfOk result (λ gone. commits_of sealed.old ≡ gone_of gone ++ commits_of sealed.new) }
    ensures unneeded { IfOk result (λ gone. AreUnneeded tables.now (gone_of gone)) }
    ensures err { OnErr result (commits_of sealed.new ≡ commits_of sealed.old) }
{
    match first_unneeded(alloc, sealed, tables)? {
        None => Ok(None),
        Some(first) => {
            let own = with_commits(alloc, by_table, &first.value, &first.key, None)?;
            sealed.take(&first.key)?;
            *by_table = own;
            Ok(Some(first.value))
        }
    }
}
