ghost use Rattle.std.specs.Prelude.{◌≡◌, ◌-◌, ◌<◌, ◌≤◌, ◌++◌, ◌∷◌, [], None, IfOk, OnOk, length, drop};
ghost use Rattle.std.specs.Option.{option_copied};
ghost use Rattle.ct_rows.specs.Versions.{version_at, versions_of, IsSeenAt, row_seen, written_later};
ghost use Rattle.ct_rows.specs.Prunes.{behind, kept};

use crate::version::Version;
use ct_types::{Memory, Row};
use std::alloc::Global;
use std::marker::Model;
use std::sync::Arc;

/// The versions of one key, the oldest first.
#[derive(Drop)]
pub(crate) struct Versions {
    items: Vec<Arc<Version>>,
}

impl Model for Versions {
    ghost use Rattle.std.specs.Prelude.{List};
    ghost use Rattle.ct_rows.specs.declared.version.Version.{Version};
    ghost use Rattle.ct_rows.specs.Versions.{versions_of};

    ghost Value = { List Version };

    ghost view = { λ it. versions_of it.items.items };
}

/// How many versions stand up to the last one at or before a view, 0 where there is none.
fn seen_up_to(versions: &[Arc<Version>], view: u64) -> usize
    ensures within { result ≤ length versions.now }
    ensures none { result ≡ 0 → version_at (versions_of versions.now) view ≡ None }
    ensures last { 0 < result → IsSeenAt versions.now view (result - 1) }
    ensures behind { behind (versions_of versions.now) view ≡ versions_of (drop result versions.now) }
{
    let mut end = versions.len();
    while end > 0 {
        if versions[end - 1].at <= view {
            return end;
        }
        end -= 1;
    }
    end
}

/// Adds shares of versions at the end of a list.
fn push_shares(made: &mut Vec<Arc<Version>>, versions: &[Arc<Version>]) -> Result<(), Memory>
    ensures { OnOk result (versions_of made.new.items ≡ versions_of made.old.items ++ versions_of versions.now) }
{
    for version in versions {
        made.push(Arc::try_clone(version)?)?;
    }
    Ok(())
}

impl Versions {
    /// One version.
    pub(crate) fn one(alloc: Global, version: Version) -> Result<Versions, Memory>
        ensures { IfOk result (λ made. made ≡ version ∷ []) }
    {
        let mut items = Vec::new(alloc);
        items.push(Arc::new(alloc, version)?)?;
        Ok(Versions { items })
    }

    /// These versions and a later one.
    pub(crate) fn with(&self, alloc: Global, version: Version) -> Result<Versions, Memory>
        ensures { IfOk result (λ made. made ≡ self.now ++ version ∷ []) }
    {
        let mut items = Vec::with_capacity(alloc, self.items.len().saturating_add(1))?;
        push_shares(&mut items, self.items.as_slice())?;
        items.push(Arc::new(alloc, version)?)?;
        Ok(Versions { items })
    }

    /// The versions from a place on.
    pub(crate) fn from(&self, alloc: Global, place: usize) -> Result<Versions, Memory>
        requires { place ≤ length self.now }
        ensures { IfOk result (λ made. made ≡ drop place self.now) }
    {
        let mut items = Vec::new(alloc);
        push_shares(&mut items, &self.items[place..])?;
        Ok(Versions { items })
    }

    /// How many versions there are.
    pub(crate) fn len(&self) -> usize
        ensures { result ≡ length self.now }
    {
        self.items.len()
    }

    /// The row that a view sees.
    pub(crate) fn row_seen(&self, view: u64) -> Option<&Row>
        ensures { option_copied result ≡ row_seen view self.now }
    {
        let versions = self.items.as_slice();
        let end = seen_up_to(versions, view);
        if end > 0 {
            versions[end - 1].row.as_ref()
        } else {
            None
        }
    }

    /// The transaction of the last version, where that is after a view.
    pub(crate) fn written_later(&self, view: u64) -> Option<u64>
        ensures { result ≡ written_later view self.now }
    {
        match self.items.as_slice() {
            [] => None,
            [.., last] => {
                if view < last.at {
                    Some(last.xdes)
                } else {
                    None
                }
            }
        }
    }

    /// How many versions, from the first on, no view from a least one on needs.
    pub(crate) fn outdated(&self, least: u64) -> usize
        ensures within { result ≤ length self.now }
        ensures rest { kept self.now least ≡ drop result self.now }
    {
        let versions = self.items.as_slice();
        let end = seen_up_to(versions, least);
        if end == 0 {
            return 0;
        }
        if versions[end - 1].row.is_some() {
            end - 1
        } else {
            end
        }
    }
}
