ghost use Rattle.std.specs.Prelude.{◌≡◌, ◌+◌, ◌∷◌, ◌↔◌, [], None, Some, IfOk, OnOk, OnErr, IsTrue, filter};
ghost use Rattle.std.specs.List.{AllByRecursion};
ghost use Rattle.std.specs.Option.{option_copied, option_to_list};
ghost use Rattle.ct_model.specs.Tables.{key_of, row_at, has_row, rows_with};
ghost use Rattle.ct_model.specs.Valid.{AreRising};
ghost use Rattle.ct_source.specs.Cells.{has_value};
ghost use Rattle.ct_source.specs.Rows.{lent, HasKeyColumns, IsWhole};

use crate::cells;
use ct_ptree::Tree;
use ct_types::{Copies, Key, List, Memory, Row, Schema, Tracked, Value, push};
use std::alloc::Global;
use std::marker::Model;
use std::sync::Arc;

/// A table with its rows by key, which contracts see as the plain table, with its rows in rising order of keys.
///
/// A change takes a logarithm of the number of rows, and a share takes the same time whatever the size. Each row has as
/// many values as the table has columns.
#[derive(Drop)]
pub struct Stored {
    alloc: Global,
    schema: Arc<Schema>,
    tracked: Option<Tracked>,
    tree: Tree<Row>,
}

impl Model for Stored {
    ghost use Rattle.ct_model.specs.declared.db.Table.{Table};
    ghost use Rattle.ct_source.specs.Rows.{rows_of, AreKeyed};

    ghost Value = { Table };

    ghost view = { λ it. record { schema = it.schema.value; rows = rows_of it.tree; tracked = it.tracked } };

    ghost invariant = { λ it. AreKeyed it.schema.value it.tree };
}

/// A key of one column.
fn one_column(alloc: Global, value: &Value) -> Result<Key, Memory>
    ensures { IfOk result (λ made. made ≡ record { 0 = value.now ∷ [] }) }
{
    let mut values = List::new(alloc);
    push(&mut values, value.copy(alloc)?)?;
    Ok(Key(values))
}

/// A list of the row that was found, if one was.
fn lone(alloc: Global, found: Option<&Row>) -> Result<List<&Row>, Memory>
    ensures { IfOk result (λ made. lent made ≡ option_to_list (option_copied found.entry)) }
{
    let mut made = List::new(alloc);
    if let Some(row) = found {
        push(&mut made, row)?;
    }
    Ok(made)
}

/// Whether the key is the one column at a place, counted from 0.
fn is_only_key(schema: &Schema, at: u32) -> bool
    ensures { IsTrue result ↔ schema.now.key ≡ (at + 1) ∷ [] }
{
    match schema.key.as_slice() {
        [id] => u64::from(*id) == u64::from(at) + 1,
        _ => false,
    }
}

impl Stored {
    /// A table without rows, untracked.
    pub fn new(alloc: Global, schema: Schema) -> Result<Stored, Memory>
        requires { HasKeyColumns schema }
        ensures { IfOk result (λ made. made ≡ record { schema = schema; rows = []; tracked = None }) }
    {
        Ok(Stored {
            alloc,
            schema: Arc::new(alloc, schema)?,
            tracked: None,
            tree: Tree::new(alloc),
        })
    }

    /// What the table is by its definition.
    pub fn schema(&self) -> &Schema
        ensures { result.now ≡ self.now.schema }
    {
        &self.schema
    }

    /// How the table is tracked; none where it is not.
    pub fn tracked(&self) -> Option<Tracked>
        ensures { result ≡ self.now.tracked }
    {
        self.tracked
    }

    /// Tracks the table in another way, or no more.
    pub fn set_tracked(&mut self, tracked: Option<Tracked>)
        ensures { self.new ≡ record self.old { tracked = tracked } }
    {
        self.tracked = tracked;
    }

    /// Removes all rows. It takes no memory.
    pub fn clear(&mut self)
        ensures { self.new ≡ record self.old { rows = [] } }
    {
        self.tree = Tree::new(self.alloc);
    }

    /// Puts a row at its key, in place of the row that the key had. Want of memory leaves the table as it was.
    pub fn put(&mut self, key: Key, row: Row) -> Result<(), Memory>
        requires at { key_of self.old.schema row ≡ key }
        requires whole { IsWhole self.old.schema row }
        ensures ok { OnOk result (self.new ≡ record self.old { rows = rows_with self.old.schema self.old.rows key (Some row) }) }
        ensures err { OnErr result (self.new ≡ self.old) }
    {
        self.tree.put(key, row)
    }

    /// Takes the row of a key away, where there is one. Want of memory leaves the table as it was.
    pub fn take(&mut self, key: &Key) -> Result<(), Memory>
        ensures ok { OnOk result (self.new ≡ record self.old { rows = rows_with self.old.schema self.old.rows key.now None }) }
        ensures err { OnErr result (self.new ≡ self.old) }
    {
        self.tree.take(key)
    }

    /// The row of a key, None where there is none.
    pub fn get(&self, key: &Key) -> Option<&Row>
        ensures { option_copied result ≡ row_at self.now.schema self.now.rows key.now }
    {
        self.tree.get(key)
    }

    /// Whether some row has the key.
    pub fn has(&self, key: &Key) -> bool
        ensures { result ≡ has_row self.now.schema self.now.rows key.now }
    {
        self.tree.get(key).is_some()
    }

    /// All rows, lent in rising order of keys.
    pub fn rows(&self, alloc: Global) -> Result<List<&Row>, Memory>
        ensures { IfOk result (λ made. lent made ≡ self.now.rows) }
    {
        let mut made = List::new(alloc);
        for pair in self.tree.pairs() {
            push(&mut made, &pair.value)?;
        }
        Ok(made)
    }

    /// The row with a value in the only column of the key, lent, if there is one.
    fn found(&self, alloc: Global, at: u32, value: &Value) -> Result<List<&Row>, Memory>
        requires { self.now.schema.key ≡ (at + 1) ∷ [] }
        ensures { IfOk result (λ made. lent made ≡ filter (has_value at value.now) self.now.rows) }
    {
        self.rows_rise();
        let key = one_column(alloc, value)?;
        lone(alloc, self.get(&key))
    }

    /// The rows with a value in a column, lent, of a walk over all rows.
    fn walked(&self, alloc: Global, at: u32, value: &Value) -> Result<List<&Row>, Memory>
        ensures { IfOk result (λ made. lent made ≡ filter (has_value at value.now) self.now.rows) }
    {
        let mut made = List::new(alloc);
        for pair in self.tree.pairs() {
            if cells::has_value(&pair.value, at, value) {
                push(&mut made, &pair.value)?;
            }
        }
        Ok(made)
    }

    /// The rows with a value in the column at a place, counted from 0, lent in rising order of keys. Where the key is this one
    /// column, it is a look-up, and else a walk over all rows.
    pub fn with_value(&self, alloc: Global, at: u32, value: &Value) -> Result<List<&Row>, Memory>
        ensures { IfOk result (λ made. lent made ≡ filter (has_value at value.now) self.now.rows) }
    {
        if is_only_key(self.schema(), at) {
            self.found(alloc, at, value)
        } else {
            self.walked(alloc, at, value)
        }
    }

    /// The rows stand in rising order of keys, each has a value for each column, and the ids of the key are columns.
    pub fn rows_rise(&self)
        ensures rising { AreRising self.now.schema self.now.rows }
        ensures whole { AllByRecursion (IsWhole self.now.schema) self.now.rows }
        ensures columns { HasKeyColumns self.now.schema }
    {
        let _ = self.tree.pairs();
    }

    /// The same table once more, with no copy of a row. It takes the same time whatever the size.
    pub fn share(&self) -> Result<Stored, Memory>
        ensures { IfOk result (λ made. made ≡ self.now) }
    {
        Ok(Stored {
            alloc: self.alloc,
            schema: Arc::try_clone(&self.schema)?,
            tracked: self.tracked,
            tree: self.tree.share()?,
        })
    }
}
