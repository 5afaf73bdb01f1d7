use ct_ptree::Tree;
use ct_types::{Key, List, Memory, Value, push};
use std::alloc::Global;
use std::process::Abort;
use std::test::Fail;
use std::thread::join;

pub(crate) fn key(alloc: Global, number: i64) -> Result<Key, Memory> {
    let mut values = List::new(alloc);
    push(&mut values, Value::Int(number))?;
    Ok(Key(values))
}

/// The values from a key on, in the order of the keys.
fn values(alloc: Global, tree: &Tree<u64>, from: i64) -> Result<Vec<u64>, Memory> {
    let mut made = Vec::new(alloc);
    for pair in tree.range(&key(alloc, from)?) {
        made.push(pair.value)?;
    }
    Ok(made)
}

/// A tree with the value 1 at each of some more keys.
fn grown(alloc: Global, mut tree: Tree<u64>, from: i64, to: i64) -> Result<Tree<u64>, Memory> {
    for number in from..to {
        tree.put(key(alloc, number)?, 1)?;
    }
    Ok(tree)
}

/// The sum of all values.
fn total(tree: &Tree<u64>) -> u64 {
    let mut sum: u64 = 0;
    for pair in tree.pairs() {
        sum = sum.wrapping_add(pair.value);
    }
    sum
}

/// A tree of two pairs, what changes in place made of a share of it, and that without one more key.
fn changed(alloc: Global) -> Result<(Tree<u64>, Tree<u64>, Tree<u64>), Memory> {
    let one = Tree::new(alloc).insert(key(alloc, 2)?, 20)?;
    let two = one.insert(key(alloc, 1)?, 10)?;
    let mut tree = two.share()?;
    tree.put(key(alloc, 3)?, 30)?;
    tree.put(key(alloc, 2)?, 21)?;
    tree.take(&key(alloc, 1)?)?;
    let less = tree.remove(&key(alloc, 3)?)?;
    Ok((two, tree, less))
}

#[test]
fn each_call_of_a_tree(rt: HostRuntime) -> Result<(), Fail> {
    let alloc = rt.alloc();
    let (two, tree, less) = changed(alloc)?;
    for (tree, from, want) in [
        (&two, 0, [10, 20].as_slice()),
        (&tree, 0, [21, 30].as_slice()),
        (&tree, 3, [30].as_slice()),
        (&less, 0, [21].as_slice()),
    ] {
        assert_eq!(rt; values(alloc, tree, from)?.as_slice(), want);
    }
    Ok(())
}

/// The tree with all keys below a number but one taken away.
fn thinned(alloc: Global, mut tree: Tree<u64>, to: i64, kept: i64) -> Result<Tree<u64>, Memory> {
    for number in 0..to {
        if number != kept {
            tree.take(&key(alloc, number)?)?;
        }
    }
    Ok(tree)
}

#[test]
fn all_keys_but_one_removed(rt: HostRuntime) -> Result<(), Fail> {
    let alloc = rt.alloc();
    let tree = grown(alloc, Tree::new(alloc), 0, 500)?;
    let tree = thinned(alloc, tree, 500, 321)?;
    assert_eq!(rt; tree.get(&key(alloc, 321)?).copied(), Some(1));
    assert_eq!(rt; total(&tree), 1);
    Ok(())
}

#[test]
fn a_share_is_read_while_the_tree_changes(rt: HostRuntime) -> Result<(), Fail> {
    let alloc = rt.alloc();
    let tree = grown(alloc, Tree::new(alloc), 0, 300)?;
    let share = tree.share()?;
    let (read, changed) = join(&rt, || total(&share), move || grown(alloc, tree, 300, 600));
    assert_eq!(rt; read, 300);
    assert_eq!(rt; total(&changed?), 600);
    Ok(())
}
