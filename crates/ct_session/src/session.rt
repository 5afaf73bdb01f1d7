ghost use Rattle.std.specs.Prelude.{◌≡◌, ◌+◌, ◌≤◌, not, [], ◌∷◌, ◌++◌, None, Some, IfOk, IfErr, OnOk, OnErr};
ghost use Rattle.ct_types.specs.Answers.{Gives, demand};
ghost use Rattle.ct_types.specs.declared.refusal.Refusal.TheVariants.{InTransaction};
ghost use Rattle.ct_session.specs.declared.tran.Tran.TheVariants as tran;
ghost use Rattle.ct_session.specs.Sessions.{fresh, is_open, begun, ended, pended};
ghost use Rattle.ct_session.specs.SetDeclare.{may_set, may_declare, with_value, with_variable};

use crate::tran::Tran;
use crate::variables::{place_of, put_value};
use ct_bind_names::is_declared;
use ct_types::{
    ColType, Copies, List, Memory, Refusal, Text, Value, Variable, Variables, View, Write,
};
use std::alloc::Global;
use std::marker::Model;

/// A session, which contracts see as its number, its state, and the room for more writes. The state has the level of the
/// transactions that begin from now on, the variables, and the transaction with its number and the writes that wait for the commit.
#[derive(Drop)]
pub struct Session {
    alloc: Global,
    number: u8,
    snapshot: bool,
    variables: Variables,
    tran: Tran,
    pending: Vec<Write>,
    xdes: Option<u64>,
}

impl Model for Session {
    ghost use Rattle.std.specs.Prelude.{◌-◌, vec_len, vec_capacity};
    ghost use Rattle.ct_session.specs.Sessions.{SessionState, Seated};

    ghost Value = { Seated };

    ghost view = { λ it. record { number = it.number; state = record { snapshot = it.snapshot; variables = it.variables.0; tran = it.tran; pending = it.pending.items; xdes = it.xdes }; room = vec_capacity it.pending - vec_len it.pending } };
}

impl Session {
    /// A fresh session, 1 to 32: its transactions are READ COMMITTED, and none is open. `Memory` is the only error.
    ///
    /// T-SQL: SET TRANSACTION ISOLATION LEVEL has READ COMMITTED as its default.
    pub fn new(alloc: Global, number: u8) -> Result<Session, Memory>
        ensures { IfOk result (λ made. made ≡ record { number = number; state = fresh; room = 0 }) }
    {
        Ok(Session {
            alloc,
            number,
            snapshot: false,
            variables: Variables(List::new(alloc)),
            tran: Tran::None,
            pending: Vec::new(alloc),
            xdes: None,
        })
    }

    /// The number that it was made with.
    pub fn number(&self) -> u8
        ensures { result ≡ self.now.number }
    {
        self.number
    }

    /// Begins a transaction at the session's level. `InTransaction` exactly where one is open; the session is then as before.
    ///
    /// T-SQL: BEGIN TRANSACTION. That transactions do not nest is this project's own.
    pub fn begin(&mut self) -> Result<(), Refusal>
        ensures answers { result ≡ demand (not (is_open self.old.state.tran)) InTransaction }
        ensures ok { OnOk result (self.new ≡ record self.old { state = record self.old.state { tran = begun self.old.state.snapshot } }) }
        ensures err { OnErr result (self.new ≡ self.old) }
    {
        if !matches!(self.tran, Tran::None) {
            return Err(Refusal::InTransaction);
        }
        self.tran = if self.snapshot {
            Tran::Snapshot
        } else {
            Tran::Committed
        };
        Ok(())
    }

    /// Ends the transaction: there is then none, no write that waits and no transaction number. The memory of the writes is
    /// given back. Whether they were committed before is the caller's affair.
    ///
    /// T-SQL: COMMIT TRANSACTION, ROLLBACK TRANSACTION.
    pub fn end(&mut self)
        ensures { self.new ≡ record { number = self.old.number; state = ended self.old.state; room = 0 } }
    {
        self.tran = Tran::None;
        self.pending = Vec::new(self.alloc);
        self.xdes = None;
    }

    /// Reserves the memory for so many more writes, so that they can be pended without fail. `Memory` is the only error, and
    /// the session is then as before. This project's own.
    pub fn reserve(&mut self, writes: u64) -> Result<(), Memory>
        ensures ok { OnOk result (self.new ≡ record self.old { room = self.new.room }) }
        ensures room { OnOk result (writes ≤ self.new.room) }
        ensures kept { OnOk result (self.old.room ≤ self.new.room) }
        ensures err { OnErr result (self.new ≡ self.old) }
    {
        self.pending.reserve(writes as usize)?;
        Ok(())
    }

    /// Adds a write behind those that wait. Want of memory hands it back, and the session is as before; it comes only where no
    /// room was reserved. This project's own.
    pub fn pend(&mut self, write: Write) -> Result<(), (Write, Memory)>
        ensures ok { OnOk result (self.new ≡ record { number = self.old.number; state = pended self.old.state (write ∷ []); room = self.new.room }) }
        ensures room { OnOk result (self.old.room ≤ self.new.room + 1) }
        ensures err { OnErr result (self.new ≡ self.old) }
        ensures full { OnErr result (self.old.room ≡ 0) }
        ensures back { IfErr result (λ e. e.0 ≡ write) }
    {
        if self.pending.reserve(1).is_err() {
            return Err((write, Memory));
        }
        match self.pending.push(write) {
            Ok(()) => Ok(()),
            Err(_) => unreachable!(),
        }
    }

    /// The writes that wait, in their order.
    pub fn pending(&self) -> &[Write]
        ensures { result.now ≡ self.now.state.pending }
    {
        self.pending.as_slice()
    }

    /// Gives a variable a value, which was fitted to its type before. Names compare with ASCII letters folded. `NoVariable`, with
    /// the name as it is given, exactly where it is not declared, but for `Memory`. After an error the session is as before.
    ///
    /// T-SQL: SET @local_variable.
    pub fn set(&mut self, name: &Text, value: Value) -> Result<(), Refusal>
        ensures answers { Gives (may_set self.old.state.variables name.now) result }
        ensures ok { OnOk result (self.new ≡ record self.old { state = record self.old.state { variables = with_value self.old.state.variables name.now value } }) }
        ensures err { OnErr result (self.new ≡ self.old) }
    {
        match place_of(self.variables.0.as_slice(), name) {
            None => Err(Refusal::NoVariable {
                name: name.copy(self.alloc)?,
            }),
            Some(place) => {
                put_value(self.alloc, &mut self.variables.0, name, place, value);
                Ok(())
            }
        }
    }

    /// Declares a variable of a type with a value, which was fitted to it before, behind those that are declared. Names compare
    /// with ASCII letters folded. `VariableExists`, with the name as it is given, exactly where it is declared, but for `Memory`.
    /// After an error the session is as before.
    ///
    /// T-SQL: DECLARE @local_variable.
    pub fn declare(&mut self, name: Text, kind: ColType, value: Value) -> Result<(), Refusal>
        ensures answers { Gives (may_declare self.old.state.variables name) result }
        ensures ok { OnOk result (self.new ≡ record self.old { state = record self.old.state { variables = with_variable self.old.state.variables name kind value } }) }
        ensures err { OnErr result (self.new ≡ self.old) }
    {
        if is_declared(self.variables.0.as_slice(), &name) {
            return Err(Refusal::VariableExists { name });
        }
        match self.variables.0.push(Variable { name, kind, value }) {
            Ok(()) => Ok(()),
            Err(_) => Err(Refusal::Memory),
        }
    }

    /// Sets the level of the transactions that begin from now on: SNAPSHOT, else READ COMMITTED. One that is open keeps its own.
    ///
    /// T-SQL: SET TRANSACTION ISOLATION LEVEL. That it is taken inside a transaction is this project's own.
    pub fn isolate(&mut self, snapshot: bool)
        ensures { self.new ≡ record self.old { state = record self.old.state { snapshot = snapshot } } }
    {
        self.snapshot = snapshot;
    }

    /// The transaction, if one is open, with its level and view.
    pub fn tran(&self) -> Tran
        ensures { result ≡ self.now.state.tran }
    {
        self.tran
    }

    /// Takes the view that the transaction reads from. The caller sees to it that it is a SNAPSHOT one without a view. This
    /// project's own.
    pub fn take_view(&mut self, view: View)
        requires { self.old.state.tran ≡ tran.Snapshot }
        ensures { self.new ≡ record self.old { state = record self.old.state { tran = tran.Viewed view } } }
    {
        self.tran = Tran::Viewed(view);
    }

    /// Takes the transaction's number. The caller sees to it that there is none yet. This project's own.
    pub fn draw(&mut self, xdes: u64)
        requires { self.old.state.xdes ≡ None }
        ensures { self.new ≡ record self.old { state = record self.old.state { xdes = Some xdes } } }
    {
        self.xdes = Some(xdes);
    }

    /// The transaction's number, None before its first write.
    pub fn xdes(&self) -> Option<u64>
        ensures { result ≡ self.now.state.xdes }
    {
        self.xdes
    }

    /// The variables, in the order in which they were declared.
    pub fn variables(&self) -> &Variables
        ensures { result.now.0 ≡ self.now.state.variables }
    {
        &self.variables
    }
}
