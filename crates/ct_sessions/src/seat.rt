ghost use Rattle.std.specs.Prelude.{◌≡◌};
ghost use Rattle.ct_sessions.specs.Owns.{own_or};

use crate::own::Own;
use ct_database::Database;
use ct_session::Session;

/// A session, with the database of its own that it reads, where it has one.
#[derive(Drop)]
pub(crate) struct Seat {
    pub(crate) session: Session,
    pub(crate) own: Option<Own>,
}

impl Seat {
    /// Its own database, where it has one, else the newest.
    pub(crate) fn sees<'a>(&'a self, newest: &'a Database) -> &'a Database
        ensures { result.now ≡ own_or newest.now self.now.own }
    {
        match &self.own {
            None => newest,
            Some(own) => &own.db,
        }
    }
}
