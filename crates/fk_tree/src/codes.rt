//! The code of the first check that fails.

ghost use Rattle.std.specs.Prelude.{◌≡◌};
ghost use Rattle.std.specs.Option.{option_copied};
ghost use Rattle.fk_tree.specs.Check.{check_delete, check_set, is_version};
ghost use Rattle.fk_tree.specs.Rows.{code_under};

use crate::node::Node;
use fk_base::{Code, Path};

/// Under this parent, where the final path is taken or not.
pub fn create_code(parent: Option<&Node>, taken: bool) -> Option<Code>
    ensures { result ≡ code_under taken (option_copied parent.entry) }
{
    let Some(parent) = parent else {
        return Some(Code::NoNode);
    };
    if taken {
        return Some(Code::NodeExists);
    }
    if parent.owner != 0 {
        return Some(Code::NoChildrenForEphemerals);
    }
    None
}

pub fn set_code(expected: i32, node: Option<&Node>) -> Option<Code>
    ensures { result ≡ check_set expected (option_copied node.entry) }
{
    match node {
        None => Some(Code::NoNode),
        Some(node) if fits(expected, node.version) => None,
        Some(_) => Some(Code::BadVersion),
    }
}

pub fn delete_code(path: &Path, expected: i32, node: Option<&Node>) -> Option<Code>
    ensures { result ≡ check_delete path.now expected (option_copied node.entry) }
{
    let Some(node) = node else {
        return Some(Code::NoNode);
    };
    if !fits(expected, node.version) {
        return Some(Code::BadVersion);
    }
    if !node.names.is_empty() || path.is_root() {
        return Some(Code::NotEmpty);
    }
    None
}

// whether an expected version fits; -1 fits any
fn fits(expected: i32, version: u32) -> bool
    ensures { result ≡ is_version expected version }
{
    expected == -1 || i64::from(expected) == i64::from(version)
}
