//! The watches that fired and aren't told.

ghost use Rattle.std.specs.Prelude.{◌≡◌, ℕ, true, OnOk};
ghost use Rattle.std.specs.BTreeMap.{values, IsOrdered};
ghost use Rattle.std.specs.Ordering.{nat_cmp};
ghost use Rattle.fk_tree.specs.Watch.{takes};
ghost use Rattle.fk_watch.specs.Moving.{fired_on, numbers_on, AreOrdered, FiresAmong, FiresNumber, KeepsOthers};
ghost use Rattle.fk_watch.specs.Setting.{at};
ghost use Rattle.fk_watch.specs.Sweeping.{not_of};

use crate::index::Index;
use crate::watch::{Firing, Watch, takes};
use fk_base::{NoMemory, Path};
use fk_tree::{Change, Kind, Touch};
use std::collections::BTreeMap;

/// The fired watches under their numbers.
pub type Firings = BTreeMap<u64, Firing>;

// the watch with a number fires
fn fire_number(
    fired: &mut Firings,
    watches: &BTreeMap<u64, Watch>,
    number: u64,
    tx: u64,
    change: Change,
) -> Result<(), NoMemory>
    ensures ok { OnOk result (FiresNumber tx change number
        watches.now.entries fired.old.entries fired.new.entries) }
    ensures kept { KeepsOthers tx watches.now.entries fired.old.entries fired.new.entries }
{
    let Some(watch) = watches.get(&number) else {
        return Ok(());
    };
    let firing = Firing {
        watch: watch.copy()?,
        tx,
        change,
    };
    match fired.insert(number, firing) {
        Ok(_) => Ok(()),
        Err(_) => Err(NoMemory),
    }
}

// the watches with these numbers fire
fn fire_numbers(
    fired: &mut Firings,
    watches: &BTreeMap<u64, Watch>,
    numbers: &BTreeMap<u32, u64>,
    tx: u64,
    change: Change,
) -> Result<(), NoMemory>
    ensures ok { OnOk result (FiresAmong tx change (values numbers.now)
        watches.now.entries fired.old.entries fired.new.entries) }
    ensures kept { KeepsOthers tx watches.now.entries fired.old.entries fired.new.entries }
    ensures ordered { IsOrdered nat_cmp numbers.now }
{
    'firing: for number in numbers.values() {
        fire_number(fired, watches, *number, tx, change)?;
    }
    Ok(())
}

// the watches of a path in an index fire, with this change.
fn fire_path(
    fired: &mut Firings,
    watches: &BTreeMap<u64, Watch>,
    index: &Index,
    path: &Path,
    tx: u64,
    change: Change,
) -> Result<(), NoMemory>
    ensures ok { OnOk result (FiresAmong tx change (numbers_on path.now index.now)
        watches.now.entries fired.old.entries fired.new.entries) }
    ensures kept { KeepsOthers tx watches.now.entries fired.old.entries fired.new.entries }
    ensures ordered { AreOrdered path.now index.now }
{
    match index.get(path) {
        None => Ok(()),
        Some(numbers) => fire_numbers(fired, watches, numbers, tx, change),
    }
}

/// The watches of a touch in the index of a kind fire, if the kind takes the change.
pub fn fire_kind(
    fired: &mut Firings,
    watches: &BTreeMap<u64, Watch>,
    index: &Index,
    kind: Kind,
    touch: &Touch,
    tx: u64,
) -> Result<(), NoMemory>
    ensures ok { OnOk result ((n : ℕ) → at n fired.new.entries
        ≡ fired_on tx kind touch.now watches.now.entries index.now n (at n fired.old.entries)) }
    ensures kept { KeepsOthers tx watches.now.entries fired.old.entries fired.new.entries }
    ensures ordered { takes kind touch.now.change ≡ true → AreOrdered touch.now.path index.now }
{
    if takes(kind, touch.change) {
        fire_path(fired, watches, index, &touch.path, tx, touch.change)
    } else {
        Ok(())
    }
}

/// Takes out what a transaction fired.
pub fn forget(fired: &mut Firings, tx: u64)
    ensures { (n : ℕ) → at n fired.new.entries ≡ not_of tx (at n fired.old.entries) }
{
    fired.retain(|_, firing| firing.tx != tx);
}
