//! What the answers list of the watches that fired.

ghost use Rattle.std.specs.Prelude.{◌≡◌, ◌++◌, ℕ, true, is_some, IfOk, OnOk};
ghost use Rattle.fk_user.specs.Ids.{has_id, ids_rise};
ghost use Rattle.fk_watch.specs.Answers.{fired_with, ids_of, listed, AreFired, IsEpoch};
ghost use Rattle.fk_watch.specs.Listing.{one_of};
ghost use Rattle.fk_watch.specs.Setting.{at};
ghost use Rattle.fk_watch.specs.Sweeping.{only_of};

use crate::firings::Firings;
use crate::watch::Firing;
use fk_base::NoMemory;
use fk_user::IdSet;
use fk_wire::{Fired, FiredList};
use std::alloc::Global;

/// What a sweep lists.
#[derive(Drop)]
pub struct Lists {
    /// What its transaction fired.
    pub fired: FiredList,
    /// The numbers of all that have fired.
    pub epoch: IdSet,
}

// lists a fired watch, if the transaction fired it
fn list_one(list: &mut FiredList, number: u64, firing: &Firing, tx: u64) -> Result<(), NoMemory>
    ensures { OnOk result (list.new ≡ list.old ++ one_of tx (number, firing.now)) }
{
    if firing.tx != tx {
        return Ok(());
    }
    list.push(Fired {
        id: number,
        session: firing.watch.session,
        path: firing.watch.path.copy()?,
        kind: firing.watch.kind,
        change: firing.change,
    })
}

// the watches that a transaction fired, in rising number.
fn fired_by(alloc: Global, fired: &Firings, tx: u64) -> Result<FiredList, NoMemory>
    ensures rising { IfOk result (λ fs. ids_rise (ids_of fs) ≡ true) }
    ensures exact { IfOk result (λ fs. (n : ℕ)
        → fired_with n fs ≡ listed n (only_of tx (at n fired.now.entries))) }
{
    let mut list = FiredList::new(alloc);
    'listing: for (number, firing) in fired {
        list_one(&mut list, *number, firing, tx)?;
    }
    Ok(list)
}

// the numbers of all that have fired
fn epoch_of(alloc: Global, fired: &Firings) -> Result<IdSet, NoMemory>
    ensures rising { IfOk result (λ ids. ids_rise ids ≡ true) }
    ensures exact { IfOk result (λ ids.
        (n : ℕ) → has_id n ids ≡ is_some (at n fired.now.entries)) }
{
    let mut ids = IdSet::new(alloc);
    'listing: for number in fired.keys() {
        ids.insert(*number)?;
    }
    Ok(ids)
}

/// What a sweep for a transaction lists.
pub fn list(alloc: Global, fired: &Firings, tx: u64) -> Result<Lists, NoMemory>
    ensures fired { IfOk result (λ l. AreFired tx (λ n. at n fired.now.entries) l.fired) }
    ensures epoch { IfOk result (λ l. IsEpoch (λ n. at n fired.now.entries) l.epoch) }
{
    Ok(Lists {
        fired: fired_by(alloc, fired, tx)?,
        epoch: epoch_of(alloc, fired)?,
    })
}
