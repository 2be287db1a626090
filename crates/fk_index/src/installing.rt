//! The nodes of a draft put in place of the table's: without memory.

ghost use Rattle.std.specs.Prelude.{◌≡◌, true};
ghost use Rattle.fk_index.specs.Drafts.{node_over, IsReady};
ghost use Rattle.fk_index.specs.Owners.{owner_of, AreOwned, HasPlaces, KeepOtherPlaces};
ghost use Rattle.fk_index.specs.Parts.{have_slots, rests_written, with_node};
ghost use Rattle.fk_index.specs.Slots.{AreChanged, AreRising, IsChanged};

use crate::drafts::Drafts;
use crate::owners::{Owners, give};
use crate::slots::{Slots, put_node, record_at};
use crate::touching::touch_all;
use fk_base::Path;
use fk_store::Write;
use fk_tree::Node;

fn owner_of(node: &Option<Node>) -> u32
    ensures { result ≡ owner_of node.now }
{
    match node {
        None => 0,
        Some(node) => node.owner,
    }
}

// puts a node in the record of a path, and the path from its owner to that of the node
fn put(slots: &mut Slots, owners: &mut Owners, path: &Path, node: Option<Node>)
    requires places { HasPlaces owners.old node path.now }
    requires owned { AreOwned slots.old owners.old }
    ensures records { IsChanged (with_node node) slots.old slots.new path.now }
    ensures owned { AreOwned slots.new owners.new }
    ensures places { KeepOtherPlaces owners.old owners.new path.now }
{
    let Some(kept) = record_at(slots, path) else {
        return;
    };
    let from = owner_of(&kept.node);
    let to = owner_of(&node);
    put_node(slots, path, node);
    give(owners, path, from, to);
}

// puts all nodes of a draft
fn install(slots: &mut Slots, owners: &mut Owners, mut drafts: Drafts)
    requires ready { IsReady drafts slots.old owners.old }
    requires owned { AreOwned slots.old owners.old }
    ensures records { AreChanged (λ p. with_node (node_over drafts slots.old p)) slots.old
        slots.new }
    ensures owned { AreOwned slots.new owners.new }
    ensures rising { AreRising slots.new }
{
    'putting: while let Some((path, node)) = drafts.pop_first() {
        put(slots, owners, &path, node);
    }
}

/// Makes writes that were prepared.
pub fn write_prepared(slots: &mut Slots, owners: &mut Owners, drafts: Drafts, writes: &[Write])
    requires slots { have_slots slots.old writes.now ≡ true }
    requires ready { IsReady drafts slots.old owners.old }
    requires owned { AreOwned slots.old owners.old }
    ensures records { AreChanged (λ p o. with_node (node_over drafts slots.old p)
        (rests_written p writes.now o)) slots.old slots.new }
    ensures owned { AreOwned slots.new owners.new }
    ensures rising { AreRising slots.new }
{
    touch_all(slots, writes);
    install(slots, owners, drafts);
}
