use optional_box::OptionalBox;
use std::alloc::{AllocError as NoMemory, Global};
use std::mem::size_of;
use std::test::Fail;

// The value in a box, where there is one.
fn value_in(found: Option<Box<u64>>) -> Option<u64> {
    found.map(|value| *value)
}

// What is read, and what is then taken.
fn read_and_taken(optional: &mut OptionalBox<u64>) -> (Option<u64>, Option<u64>) {
    let read = optional.get().copied();
    (read, value_in(optional.take()))
}

#[test]
fn no_value_is_found_in_an_empty_one(rt: HostRuntime) -> Result<(), Fail> {
    assert!(rt; size_of::<OptionalBox<Vec<u8>>>() == 8);
    let mut optional = OptionalBox::none(rt.alloc());
    assert!(rt; read_and_taken(&mut optional) == (None, None));
    Ok(())
}

#[test]
fn a_value_is_read_and_taken_once(rt: HostRuntime) -> Result<(), Fail> {
    let mut optional = OptionalBox::of(Box::new(rt.alloc(), 7)?);
    assert!(rt; read_and_taken(&mut optional) == (Some(7), Some(7)));
    assert!(rt; read_and_taken(&mut optional) == (None, None));
    Ok(())
}

// Whether nothing is read, and then, once this value was put there, the value.
fn is_put_back(alloc: Global, value: u64) -> Result<bool, NoMemory> {
    let boxed = Box::new(alloc, value)?;
    let mut optional = OptionalBox::none(alloc);
    let was_empty = optional.get().is_none();
    optional = OptionalBox::of(boxed);
    let is_read = optional.get().copied() == Some(value);
    Ok(was_empty && is_read && value_in(optional.into_box()) == Some(value))
}

#[test]
fn a_value_is_put_back(rt: HostRuntime) -> Result<(), Fail> {
    assert!(rt; is_put_back(rt.alloc(), 8)?);
    Ok(())
}

#[cycle(tree)]
#[derive(Drop)]
enum Tree {
    Leaf(u32),
    Node(Trees),
}

#[cycle(tree)]
#[derive(Drop)]
struct Trees {
    list: OptionalBox<Vec<Tree>>,
}

// A tree of a leaf beside a node, `depth` nodes deep, the last of which is empty.
fn tree_of(alloc: Global, depth: u32) -> Result<Tree, NoMemory> {
    let mut tree = Tree::Node(Trees {
        list: OptionalBox::none(alloc),
    });
    for level in 0..depth {
        let mut list = Vec::new(alloc);
        list.push(Tree::Leaf(level))?;
        list.push(tree)?;
        tree = Tree::Node(Trees {
            list: OptionalBox::of(Box::new(alloc, list)?),
        });
    }
    Ok(tree)
}

// The leaves down the last entries, the outermost first.
fn leaves(alloc: Global, tree: &Tree) -> Result<Vec<u32>, NoMemory> {
    let mut leaves = Vec::new(alloc);
    let mut at = tree;
    while let Tree::Node(Trees { list }) = at {
        let Some([Tree::Leaf(level), rest]) = list.get().map(Vec::as_slice) else {
            break;
        };
        leaves.push(*level)?;
        at = rest;
    }
    Ok(leaves)
}

// Whether a tree is an empty node.
fn is_empty(tree: &Tree) -> bool {
    match tree {
        Tree::Leaf(_) => false,
        Tree::Node(trees) => trees.list.get().is_none(),
    }
}

// The leaves of a tree of this depth.
fn leaves_of(alloc: Global, depth: u32) -> Result<Vec<u32>, NoMemory> {
    leaves(alloc, &tree_of(alloc, depth)?)
}

#[test]
fn a_tree_stands_in_it(rt: HostRuntime) -> Result<(), Fail> {
    assert!(rt; size_of::<Tree>() == 16);
    let empty = tree_of(rt.alloc(), 0)?;
    assert!(rt; is_empty(&empty));
    let leaves = leaves_of(rt.alloc(), 3)?;
    assert!(rt; leaves.as_slice() == [2, 1, 0].as_slice());
    Ok(())
}
