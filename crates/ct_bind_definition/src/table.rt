ghost use Rattle.std.specs.Prelude.{◌≡◌, ◌≤◌, ◌++◌, ◌∷◌, [], map, length, filter, IfOk};
ghost use Rattle.std.specs.List.{list_all};
ghost use Rattle.ct_types.specs.Answers.{Gives, each};
ghost use Rattle.ct_bind_definition.specs.Definitions as spec;

use ct_bind_names::{column_type, is_among, same_name, table_name, table_named};
use ct_types::{
    Bound, Catalogued, Column, ColumnDef, ColumnRule, Copies, List, Memory, ObjectName, Refusal,
    Schema, Text,
};
use std::alloc::Global;

#[tactic(auto, unfolding(crate::specs::Definitions::says_null))]
fn says_null(column: &ColumnDef) -> bool
    ensures { result ≡ spec.says_null column.now }
{
    column
        .rules
        .as_slice()
        .iter()
        .any(|rule| matches!(rule, ColumnRule::Null))
}

#[tactic(auto, unfolding(crate::specs::Definitions::says_not_null))]
fn says_not_null(column: &ColumnDef) -> bool
    ensures { result ≡ spec.says_not_null column.now }
{
    column
        .rules
        .as_slice()
        .iter()
        .any(|rule| matches!(rule, ColumnRule::NotNull))
}

fn is_key_rule(rule: ColumnRule) -> bool
    ensures { result ≡ spec.is_key_rule rule }
{
    matches!(rule, ColumnRule::PrimaryKey)
}

#[tactic(auto, unfolding(crate::specs::Definitions::says_key))]
fn says_key(column: &ColumnDef) -> bool
    ensures { result ≡ spec.says_key column.now }
{
    column
        .rules
        .as_slice()
        .iter()
        .any(|rule| is_key_rule(*rule))
}

fn push_keys(made: &mut List<ColumnRule>, rules: &[ColumnRule]) -> Result<(), Memory>
    ensures { IfOk result (λ _. made.new ≡ made.old ++ filter spec.is_key_rule rules.now) }
{
    for rule in rules {
        if is_key_rule(*rule) {
            made.push(*rule)?;
        }
    }
    Ok(())
}

#[tactic(auto, unfolding(crate::specs::Definitions::keys_in))]
fn keys_in(alloc: Global, columns: &[ColumnDef]) -> Result<List<ColumnRule>, Memory>
    ensures { IfOk result (λ made. made ≡ spec.keys_in columns.now) }
{
    let mut made = List::new(alloc);
    for column in columns {
        push_keys(&mut made, column.rules.as_slice())?;
    }
    Ok(made)
}

/// Each primary key that is written.
#[tactic(auto, unfolding(crate::specs::Definitions::keys_written))]
fn keys_written(
    alloc: Global,
    columns: &[ColumnDef],
    key: &Option<List<Text>>,
) -> Result<List<ColumnRule>, Memory>
    ensures { IfOk result (λ made. made ≡ spec.keys_written columns.now key.now) }
{
    let mut made = keys_in(alloc, columns)?;
    if key.is_some() {
        made.push(ColumnRule::PrimaryKey)?;
    }
    Ok(made)
}

fn is_there(keys: &[ColumnRule]) -> bool
    ensures { result ≡ spec.is_there keys.now }
{
    match keys {
        [] => false,
        [_, ..] => true,
    }
}

fn is_repeated(keys: &[ColumnRule]) -> bool
    ensures { result ≡ spec.is_repeated keys.now }
{
    match keys {
        [] | [_] => false,
        [_, _, ..] => true,
    }
}

/// The names of the columns of the key, behind a column or in a list.
#[tactic(auto, unfolding(crate::specs::Definitions::key_names))]
fn key_names(
    alloc: Global,
    columns: &[ColumnDef],
    key: &Option<List<Text>>,
) -> Result<List<Text>, Memory>
    ensures { IfOk result (λ made. made ≡ spec.key_names columns.now key.now) }
{
    let mut made = List::new(alloc);
    push_own_keys(alloc, &mut made, columns)?;
    push_names(alloc, &mut made, names_in(key))?;
    Ok(made)
}

fn push_own_keys(alloc: Global, made: &mut List<Text>, columns: &[ColumnDef]) -> Result<(), Memory>
    ensures { IfOk result (λ _. made.new ≡ made.old ++ map (λ column. column.name) (filter spec.says_key columns.now)) }
{
    for column in columns {
        if says_key(column) {
            made.push(column.name.copy(alloc)?)?;
        }
    }
    Ok(())
}

fn push_names(alloc: Global, made: &mut List<Text>, names: &[Text]) -> Result<(), Memory>
    ensures { IfOk result (λ _. made.new ≡ made.old ++ names.now) }
{
    for name in names {
        made.push(name.copy(alloc)?)?;
    }
    Ok(())
}

fn names_in(key: &Option<List<Text>>) -> &[Text]
    ensures { result.now ≡ spec.names_in key.now }
{
    match key {
        None => &[],
        Some(names) => names.as_slice(),
    }
}

/// Whether the column says that it is of the key, or is in the list.
#[tactic(auto, unfolding(crate::specs::Definitions::is_of_key))]
fn is_of_key(key: &Option<List<Text>>, column: &ColumnDef) -> bool
    ensures { result ≡ spec.is_of_key key.now column.now }
{
    says_key(column) || is_among(&column.name, names_in(key))
}

#[tactic(auto, unfolding(crate::specs::Definitions::has_clear_nulls))]
fn has_clear_nulls(key: &Option<List<Text>>, column: &ColumnDef) -> bool
    ensures { result ≡ spec.has_clear_nulls key.now column.now }
{
    !says_null(column) || (!says_not_null(column) && !is_of_key(key, column))
}

fn have_clear_nulls(key: &Option<List<Text>>, columns: &[ColumnDef]) -> bool
    ensures { result ≡ list_all (spec.has_clear_nulls key.now) columns.now }
{
    columns.iter().all(|column| has_clear_nulls(key, column))
}

#[tactic(auto, unfolding(crate::specs::Definitions::is_named_in))]
fn is_named_in(name: &Text, columns: &[ColumnDef]) -> bool
    ensures { result ≡ spec.is_named_in name.now columns.now }
{
    columns
        .iter()
        .any(|column| same_name(name.as_str(), column.name.as_str()))
}

#[tactic(auto, unfolding(crate::specs::Definitions::are_different))]
fn are_different(columns: &[ColumnDef]) -> bool
    ensures { result ≡ spec.are_different columns.now }
{
    for at in 0..columns.len() {
        if is_named_in(&columns[at].name, &columns[at + 1..]) {
            return false;
        }
    }
    true
}

/// Whether the name is none of the columns that CHANGETABLE(CHANGES ..) shows beside the key.
#[tactic(auto, unfolding(crate::specs::Definitions::is_free_name, ct_bind_names::specs::Names::is_among))]
fn is_free_name(name: &Text) -> bool
    ensures { result ≡ spec.is_free_name name.now }
{
    let name = name.as_str();
    !(same_name(name, "SYS_CHANGE_VERSION")
        || same_name(name, "SYS_CHANGE_CREATION_VERSION")
        || same_name(name, "SYS_CHANGE_OPERATION")
        || same_name(name, "SYS_CHANGE_COLUMNS")
        || same_name(name, "SYS_CHANGE_CONTEXT"))
}

fn are_free_names(names: &[Text]) -> bool
    ensures { result ≡ list_all spec.is_free_name names.now }
{
    names.iter().all(|name| is_free_name(name))
}

#[tactic(auto, unfolding(crate::specs::Definitions::defined_column))]
fn defined_column(
    alloc: Global,
    key: &Option<List<Text>>,
    column: &ColumnDef,
) -> Result<Column, Refusal>
    ensures { Gives (spec.defined_column key.now column.now) result }
{
    let kind = column_type(&column.kind)?;
    Ok(Column {
        name: column.name.copy(alloc)?,
        kind,
        nullable: !says_not_null(column) && !is_of_key(key, column),
    })
}

fn push_column(made: &mut List<Column>, column: Column) -> Result<(), Memory>
    ensures { IfOk result (λ _. made.new ≡ made.old ++ column ∷ []) }
{
    made.push(column)?;
    Ok(())
}

#[tactic(auto, using(ct_bind_names::proofs::Walks::each_onto, ct_bind_names::proofs::Walks::each_stops))]
fn defined_columns(
    alloc: Global,
    key: &Option<List<Text>>,
    columns: &[ColumnDef],
) -> Result<List<Column>, Refusal>
    ensures { Gives (each (spec.defined_column key.now) columns.now) result }
{
    let mut made = List::new(alloc);
    for column in columns {
        let column = defined_column(alloc, key, column)?;
        push_column(&mut made, column)?;
    }
    Ok(made)
}

#[tactic(auto, unfolding(crate::specs::Definitions::id_from))]
fn find_id(columns: &[ColumnDef], name: &Text) -> Option<u16>
    requires { length columns.now ≤ 64 }
    ensures { result ≡ spec.id_from name.now 1 columns.now }
{
    let mut id = 1;
    for column in columns {
        if same_name(column.name.as_str(), name.as_str()) {
            return Some(id);
        }
        id += 1;
    }
    None
}

#[tactic(auto, unfolding(crate::specs::Definitions::key_id))]
fn key_id(columns: &[ColumnDef], names: &[Text]) -> Result<u16, Refusal>
    requires { length columns.now ≤ 64 }
    ensures { result ≡ spec.key_id columns.now names.now }
{
    match names {
        [name] => match find_id(columns, name) {
            Some(id) => Ok(id),
            None => Err(Refusal::BadTable { rule: 5 }),
        },
        _ => Err(Refusal::BadTable { rule: 5 }),
    }
}

/// Whether the name begins with `sys.` and goes on.
/// Whether a table of this name, its parts joined, is in the schema `sys`: the name begins with `sys.`, in any ASCII case,
/// and goes on.
#[tactic(auto, unfolding(crate::specs::Definitions::is_in_sys, ct_bind_names::specs::Names::same))]
pub fn is_in_sys(name: &[u8]) -> bool
    ensures { result ≡ spec.is_in_sys name.now }
{
    4 < name.len() && name[..4].eq_ignore_ascii_case(b"sys.")
}

fn one_id(alloc: Global, id: u16) -> Result<List<u16>, Memory>
    ensures { IfOk result (λ made. made ≡ id ∷ []) }
{
    let mut made = List::new(alloc);
    made.push(id)?;
    Ok(made)
}

/// The least rule that is broken, of the first three.
#[tactic(auto, unfolding(crate::specs::Definitions::first_rules))]
fn first_rules(
    alloc: Global,
    columns: &[ColumnDef],
    key: &Option<List<Text>>,
    names: &[Text],
) -> Result<(), Refusal>
    ensures { Gives (spec.first_rules columns.now key.now names.now) result }
{
    let keys = keys_written(alloc, columns, key)?;
    if !is_there(keys.as_slice()) {
        return Err(Refusal::BadTable { rule: 1 });
    }
    if is_repeated(keys.as_slice()) || !have_clear_nulls(key, columns) {
        return Err(Refusal::BadTable { rule: 2 });
    }
    if !are_different(columns) || !are_free_names(names) {
        return Err(Refusal::BadTable { rule: 3 });
    }
    Ok(())
}

/// The schema of a table, or the least rule that is broken.
#[tactic(auto, unfolding(crate::specs::Definitions::schema_of))]
fn schema_of(
    alloc: Global,
    id: u32,
    name: Text,
    columns: &[ColumnDef],
    key: &Option<List<Text>>,
) -> Result<Schema, Refusal>
    requires { length columns.now ≤ 64 }
    ensures { Gives (spec.schema_of id name columns.now key.now) result }
{
    let names = key_names(alloc, columns, key)?;
    first_rules(alloc, columns, key, names.as_slice())?;
    let made = defined_columns(alloc, key, columns)?;
    let own = key_id(columns, names.as_slice())?;
    if is_in_sys(name.as_str().as_bytes()) {
        return Err(Refusal::BadTable { rule: 6 });
    }
    Ok(Schema {
        id,
        name,
        columns: made,
        key: one_id(alloc, own)?,
    })
}

/// What CREATE TABLE comes to. The limits come first, that of columns before that of tables.
#[tactic(auto, unfolding(crate::specs::Definitions::create))]
pub fn create(
    alloc: Global,
    tables: &[Catalogued],
    name: &ObjectName,
    columns: &[ColumnDef],
    key: &Option<List<Text>>,
) -> Result<Bound, Refusal>
    ensures { Gives (spec.create tables.now name.now columns.now key.now) result }
{
    if columns.len() > 64 {
        return Err(Refusal::TooMany { limit: 64 });
    }
    if tables.len() >= 256 {
        return Err(Refusal::TooMany { limit: 256 });
    }
    let name = table_name(alloc, name)?;
    if table_named(tables, &name).is_some() {
        return Err(Refusal::Exists { name });
    }
    let id = tables.len() as u32 + 1;
    Ok(Bound::CreateTable(schema_of(alloc, id, name, columns, key)?))
}
