//! A tree that is checked, changed and asked, and rows that are checked.

ghost use Rattle.std.specs.Prelude.{IfOk};
ghost use Rattle.fk_tree.specs.Check.{HasFewParts};

use fk_base::{Bytes, NoMemory, Path, Text};
use fk_tree::{
    Answer, Applied, CheckFault, Edit, Node, Part, Parts, Query, Reply, Request, Rows, Tree, What,
    edit_node, edit_sorted, effects, touched,
};
use std::alloc::Global;
use std::test::Fail;

fn make(alloc: Global, path: &str) -> Result<Part, Fail> {
    Ok(Part::Create {
        path: Path::parse(alloc, path)?,
        bytes: Bytes::new(alloc),
        eph: false,
    })
}

/// A node is made with a child, the child is deleted, and the node is set.
fn several(alloc: Global) -> Result<Request, Fail>
    ensures { IfOk result (λ r. HasFewParts r) }
{
    let mut parts = Parts::new(alloc);
    parts.push(make(alloc, "/a")?)?;
    parts.push(make(alloc, "/a/b")?)?;
    parts.push(Part::Delete {
        path: Path::parse(alloc, "/a/b")?,
        version: -1,
    })?;
    parts.push(Part::Set {
        path: Path::parse(alloc, "/a")?,
        bytes: Bytes::new(alloc),
        version: 0,
    })?;
    Ok(Request::Multi(parts))
}

/// How many touches and edits an applied request has.
fn counts(alloc: Global, applied: &Applied) -> Result<(usize, usize), NoMemory> {
    let touches = touched(alloc, applied)?;
    let edits = effects(alloc, applied)?;
    Ok((touches.as_slice().len(), edits.as_slice().len()))
}

/// How many parts were answered.
fn replies(reply: &Reply) -> usize {
    if let Reply::Multi(replies) = reply {
        return replies.as_slice().len();
    }
    0
}

/// How often the children of a node changed.
fn cversion(tree: &Tree, query: &Query) -> Result<u32, NoMemory> {
    match tree.ask(query)? {
        Answer::Stated(stat) => Ok(stat.cversion),
        Answer::Got(..) | Answer::Listed(_) | Answer::NoNode => Ok(0),
    }
}

/// How many parts of a multi are answered, and how often the children of the new node then changed.
fn multi(alloc: Global) -> Result<(usize, u32), Fail> {
    let mut tree = Tree::new(alloc)?;
    let request = several(alloc)?;
    tree.check(1, &request)?;
    let applied = tree.fill(1, 11, 1, 1, &request)?;
    let replies = replies(&tree.apply(&applied)?);
    let query = Query::Stat(Path::parse(alloc, "/a")?);
    Ok((replies, cversion(&tree, &query)?))
}

#[test]
fn applies_a_multi(rt: HostRuntime) -> Result<(), Fail> {
    assert_eq!(rt; multi(rt.alloc())?, (4, 2));
    Ok(())
}

/// How many touches and edits such a multi has.
fn multi_counts(alloc: Global) -> Result<(usize, usize), Fail> {
    let tree = Tree::new(alloc)?;
    let request = several(alloc)?;
    tree.check(1, &request)?;
    let applied = tree.fill(1, 11, 1, 1, &request)?;
    Ok(counts(alloc, &applied)?)
}

#[test]
fn lists_touches_and_edits(rt: HostRuntime) -> Result<(), Fail> {
    assert_eq!(rt; multi_counts(rt.alloc())?, (6, 7));
    Ok(())
}

/// A node that was made, with a child.
fn parent(alloc: Global) -> Result<Option<Node>, NoMemory> {
    let made = Edit {
        path: Path::root(alloc),
        what: What::Make {
            bytes: Bytes::new(alloc),
            owner: 0,
        },
    };
    let named = Edit {
        path: Path::root(alloc),
        what: What::AddName(Text::from_str(alloc, "x")?),
    };
    let mut node = None;
    edit_node(&mut node, &made, 1, 11)?;
    edit_sorted(&mut node, &named, 2, 12)?;
    Ok(node)
}

/// Rows with such a node as the root.
fn rows(alloc: Global) -> Result<Rows, NoMemory> {
    let mut rows = Rows::new(alloc);
    rows.put(Path::root(alloc), parent(alloc)?)?;
    Ok(rows)
}

/// A create of a numbered child of the root.
fn numbered(alloc: Global) -> Result<Request, Fail>
    ensures { IfOk result (λ r. HasFewParts r) }
{
    Ok(Request::Create {
        path: Path::parse(alloc, "/n")?,
        bytes: Bytes::new(alloc),
        seq: true,
        eph: false,
    })
}

/// Whether such a create passes, and has its number in its name.
fn names_on_rows(rows: &Rows, request: &Request) -> Result<bool, CheckFault>
    requires { HasFewParts request.now }
{
    rows.check(1, request)?;
    let name = rows.name(request)?;
    Ok(name.text()?.as_str() == "/n0000000001")
}

#[test]
fn numbers_a_name(rt: HostRuntime) -> Result<(), Fail> {
    let rows = rows(rt.alloc())?;
    let request = numbered(rt.alloc())?;
    assert!(rt; names_on_rows(&rows, &request)?);
    Ok(())
}

/// What was made of so many parts.
fn made_of(rows: &Rows, request: &Request) -> Result<usize, NoMemory> {
    Ok(rows.made(1, request)?.as_slice().len())
}

#[test]
fn makes_parts(rt: HostRuntime) -> Result<(), Fail> {
    let rows = Rows::new(rt.alloc());
    let request = several(rt.alloc())?;
    assert_eq!(rt; made_of(&rows, &request)?, 4);
    Ok(())
}
