//! What a request reads of a node: without its data, and with one child name at most.

ghost use Rattle.std.specs.Prelude.{◌≡◌, take, IfOk};
ghost use Rattle.fk_tree.specs.Tree.{map_some};
ghost use Rattle.fk_follow.specs.Sketches.{node_for, sketch};

use fk_base::{Bytes, Names, NoMemory};
use fk_tree::{Node, Request};
use std::alloc::Global;

// the first of these names alone
fn first_name(alloc: Global, names: &Names) -> Result<Names, NoMemory>
    ensures { IfOk result (λ n. n ≡ take 1 names.now) }
{
    let mut first = Names::new(alloc);
    if let [name, ..] = names.as_slice() {
        first.push(name.copy()?)?;
    }
    Ok(first)
}

// a node without its data, and with one child name at most
fn sketch(alloc: Global, node: &Node) -> Result<Node, NoMemory>
    ensures { IfOk result (λ n. n ≡ sketch node.now) }
{
    Ok(Node {
        bytes: Bytes::new(alloc),
        czxid: node.czxid,
        mzxid: node.mzxid,
        pzxid: node.pzxid,
        ctime: node.ctime,
        mtime: node.mtime,
        version: node.version,
        cversion: node.cversion,
        made: node.made,
        owner: node.owner,
        names: first_name(alloc, &node.names)?,
    })
}

// what a request reads of a node
fn node_for(alloc: Global, request: &Request, node: &Node) -> Result<Node, NoMemory>
    ensures { IfOk result (λ n. n ≡ node_for request.now node.now) }
{
    match request {
        Request::Multi(_) => node.copy(),
        Request::Create { .. }
        | Request::Set { .. }
        | Request::Delete { .. }
        | Request::Close { .. } => sketch(alloc, node),
    }
}

/// What a request reads of a record's node, where there is one.
pub fn shown_for(
    alloc: Global,
    request: &Request,
    node: &Option<Node>,
) -> Result<Option<Node>, NoMemory>
    ensures { IfOk result (λ n. n ≡ map_some (node_for request.now) node.now) }
{
    match node {
        None => Ok(None),
        Some(node) => Ok(Some(node_for(alloc, request, node)?)),
    }
}
