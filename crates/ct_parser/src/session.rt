//! Transactions, SET and DECLARE.

ghost use Rattle.std.specs.Prelude.{[], ◌∷◌};
ghost use Rattle.ct_grammar.specs.Reading.{Reads, kind, option};
ghost use Rattle.ct_grammar.specs.declared.kind.Kind.TheVariants as k;
ghost use Rattle.ct_parse_expr.specs.ReadExpr as exprs;
ghost use Rattle.ct_parser.specs.ReadStmt as spec;
ghost use Rattle.ct_parser.specs.Statements.{transactions};

use crate::levels::Parser;
use ct_grammar::{Cursor, Fault, Kind};
use ct_parse_definition::type_name;
use ct_parse_expr::{beside, then_skip, value};
use ct_types::{Expr, Isolation, Stmt};

const TRANSACTIONS: &[Kind] = &[Kind::Tran, Kind::Transaction];

impl Parser {
    #[tactic(auto, unfolding(crate::specs::ReadStmt::begin))]
    fn begin(&self, tokens: &mut Cursor<'_>) -> Result<Stmt, Fault>
        ensures { Reads (spec.begin tokens.old) result tokens.new }
    {
        tokens.skip(Kind::Begin)?;
        tokens.kind(TRANSACTIONS)?;
        Ok(Stmt::Begin)
    }

    fn maybe_transaction(&self, tokens: &mut Cursor<'_>) -> Result<Option<Kind>, Fault>
        ensures { Reads (option transactions (kind transactions) tokens.old) result tokens.new }
    {
        if tokens.sees(TRANSACTIONS) {
            Ok(Some(tokens.kind(TRANSACTIONS)?))
        } else {
            Ok(None)
        }
    }

    #[tactic(auto, unfolding(crate::specs::ReadStmt::commit))]
    fn commit(&self, tokens: &mut Cursor<'_>) -> Result<Stmt, Fault>
        ensures { Reads (spec.commit tokens.old) result tokens.new }
    {
        tokens.skip(Kind::Commit)?;
        self.maybe_transaction(tokens)?;
        Ok(Stmt::Commit)
    }

    #[tactic(auto, unfolding(crate::specs::ReadStmt::rollback))]
    fn rollback(&self, tokens: &mut Cursor<'_>) -> Result<Stmt, Fault>
        ensures { Reads (spec.rollback tokens.old) result tokens.new }
    {
        tokens.skip(Kind::Rollback)?;
        self.maybe_transaction(tokens)?;
        Ok(Stmt::Rollback)
    }

    #[tactic(auto, unfolding(crate::specs::ReadStmt::read_committed))]
    fn read_committed(&self, tokens: &mut Cursor<'_>) -> Result<Isolation, Fault>
        ensures { Reads (spec.read_committed tokens.old) result tokens.new }
    {
        tokens.skip(Kind::Read)?;
        tokens.skip(Kind::Committed)?;
        Ok(Isolation::ReadCommitted)
    }

    #[tactic(auto, unfolding(crate::specs::ReadStmt::isolation))]
    fn isolation(&self, tokens: &mut Cursor<'_>) -> Result<Isolation, Fault>
        ensures { Reads (spec.isolation tokens.old) result tokens.new }
    {
        if tokens.sees(&[Kind::Snapshot]) {
            tokens.skip(Kind::Snapshot)?;
            Ok(Isolation::Snapshot)
        } else {
            self.read_committed(tokens)
        }
    }

    #[tactic(auto, unfolding(crate::specs::ReadStmt::set_isolation))]
    fn set_isolation(&self, tokens: &mut Cursor<'_>) -> Result<Stmt, Fault>
        ensures { Reads (spec.set_isolation tokens.old) result tokens.new }
    {
        tokens.skip(Kind::Transaction)?;
        tokens.skip(Kind::Isolation)?;
        tokens.skip(Kind::Level)?;
        Ok(Stmt::SetIsolation(self.isolation(tokens)?))
    }

    #[tactic(auto, unfolding(crate::specs::ReadStmt::set_timeout))]
    fn set_timeout(&self, tokens: &mut Cursor<'_>) -> Result<Stmt, Fault>
        ensures { Reads (spec.set_timeout tokens.old) result tokens.new }
    {
        tokens.skip(Kind::LockTimeout)?;
        tokens.skip(Kind::Zero)?;
        Ok(Stmt::SetLockTimeout)
    }

    #[tactic(auto, unfolding(crate::specs::ReadStmt::set_variable))]
    fn set_variable(&self, tokens: &mut Cursor<'_>) -> Result<Stmt, Fault>
        ensures { Reads (spec.set_variable (exprs.expr self.now.depth) tokens.old) result tokens.new }
    {
        let variable = tokens.variable(self.alloc)?;
        let variable = then_skip(variable, tokens, Kind::Equal)?;
        let value = value(self.alloc, tokens, self.depth);
        let (variable, value) = beside(variable, value)?;
        Ok(Stmt::SetVariable { variable, value })
    }

    #[tactic(auto, unfolding(crate::specs::ReadStmt::set_tail))]
    fn set_tail(&self, tokens: &mut Cursor<'_>) -> Result<Stmt, Fault>
        ensures { Reads (spec.set_tail (exprs.expr self.now.depth) tokens.old) result tokens.new }
    {
        if tokens.sees(&[Kind::Transaction]) {
            self.set_isolation(tokens)
        } else if tokens.sees(&[Kind::LockTimeout]) {
            self.set_timeout(tokens)
        } else {
            self.set_variable(tokens)
        }
    }

    #[tactic(auto, unfolding(crate::specs::ReadStmt::set))]
    fn set(&self, tokens: &mut Cursor<'_>) -> Result<Stmt, Fault>
        ensures { Reads (spec.set (exprs.expr self.now.depth) tokens.old) result tokens.new }
    {
        tokens.skip(Kind::Set)?;
        self.set_tail(tokens)
    }

    #[tactic(auto, unfolding(crate::specs::ReadStmt::first_value))]
    fn first_value(&self, tokens: &mut Cursor<'_>) -> Result<Expr, Fault>
        ensures { Reads (spec.first_value (exprs.expr self.now.depth) tokens.old) result tokens.new }
    {
        tokens.skip(Kind::Equal)?;
        value(self.alloc, tokens, self.depth)
    }

    fn maybe_value(&self, tokens: &mut Cursor<'_>) -> Result<Option<Expr>, Fault>
        ensures { Reads (option (k.Equal ∷ []) (spec.first_value (exprs.expr self.now.depth)) tokens.old) result tokens.new }
    {
        if tokens.sees(&[Kind::Equal]) {
            Ok(Some(self.first_value(tokens)?))
        } else {
            Ok(None)
        }
    }

    #[tactic(auto, unfolding(crate::specs::ReadStmt::declare))]
    fn declare(&self, tokens: &mut Cursor<'_>) -> Result<Stmt, Fault>
        ensures { Reads (spec.declare (exprs.expr self.now.depth) tokens.old) result tokens.new }
    {
        tokens.skip(Kind::Declare)?;
        let variable = tokens.variable(self.alloc)?;
        tokens.eat(Kind::As);
        let kind = type_name(self.alloc, tokens);
        let held = beside(variable, kind)?;
        let value = self.maybe_value(tokens);
        let ((variable, kind), value) = beside(held, value)?;
        Ok(Stmt::Declare {
            variable,
            kind,
            value,
        })
    }

    /// What begins and ends transactions, SET and DECLARE.
    #[tactic(auto, unfolding(crate::specs::ReadStmt::body_of_session))]
    pub fn body_of_session(&self, tokens: &mut Cursor<'_>) -> Result<Stmt, Fault>
        ensures { Reads (spec.body_of_session (exprs.expr self.now.depth) tokens.old) result tokens.new }
    {
        if tokens.sees(&[Kind::Begin]) {
            self.begin(tokens)
        } else if tokens.sees(&[Kind::Commit]) {
            self.commit(tokens)
        } else if tokens.sees(&[Kind::Rollback]) {
            self.rollback(tokens)
        } else if tokens.sees(&[Kind::Set]) {
            self.set(tokens)
        } else {
            self.declare(tokens)
        }
    }
}
