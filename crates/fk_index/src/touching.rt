//! What writes make of records but for their nodes: in place, and without memory.

ghost use Rattle.std.specs.Prelude.{◌≡◌, true};
ghost use Rattle.fk_index.specs.Parts.{has_slot_of, have_slots, rest_after, rests_written};
ghost use Rattle.fk_index.specs.Slots.{AreChanged, SameSlots};

use crate::slots::{Slots, grant, note, release};
use fk_store::Write;

fn touch(slots: &mut Slots, write: &Write)
    requires { has_slot_of slots.old write.now ≡ true }
    ensures records { AreChanged (rest_after write.now) slots.old slots.new }
    ensures slots { SameSlots slots.old slots.new }
{
    match write {
        Write::Grant { path, inv, moment } => grant(slots, path, *inv, *moment),
        Write::Release(path) => release(slots, path),
        Write::Change { change, tx, .. } => note(slots, &change.path, *tx),
        Write::Settle { .. } => {}
        Write::CloseSession(_) => {}
        Write::AddPending { .. } => {}
        Write::PopPending { .. } => {}
        Write::Done(_) => {}
        Write::Ping { .. } => {}
        Write::Pong { .. } => {}
    }
}

/// Makes writes of paths that have their places, but for the nodes.
pub fn touch_all(slots: &mut Slots, writes: &[Write])
    requires { have_slots slots.old writes.now ≡ true }
    ensures { AreChanged (λ p. rests_written p writes.now) slots.old slots.new }
{
    'touching: for write in writes {
        touch(slots, write);
    }
}
