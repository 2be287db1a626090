//! The set watches, found by their numbers, and by path, kind and session.

ghost use Rattle.std.specs.Prelude.{◌≡◌, [], ℕ, None, Some, IfNone, IfSome, OnErr, OnOk};
ghost use Rattle.fk_tree.specs.declared.change.Kind.{Kind};
ghost use Rattle.fk_watch.specs.Moving.{touched_by, KeepsOthers};
ghost use Rattle.fk_watch.specs.Setting.{at, watch_on, HasNot, KeepsNumbered, SetsAt, SetsNumbered};

use crate::firings::{Firings, fire_kind};
use crate::index::{Index, add_number, drop_number, number_in};
use crate::watch::Watch;
use fk_base::{NoMemory, Path};
use fk_tree::{Kind, Touch};
use std::alloc::Global;
use std::collections::BTreeMap;
use std::marker::Model;

/// The set watches under their numbers.
#[derive(Drop)]
pub struct SetWatches {
    watches: BTreeMap<u64, Watch>,
    on_data: Index,
    on_child: Index,
}

impl Model for SetWatches {
    ghost use Rattle.std.specs.Prelude.{ℕ, List};
    ghost use Rattle.fk_watch.specs.declared.watch.Watch.{Watch};
    ghost use Rattle.fk_watch.specs.Setting.{IsIndexed};

    ghost Value = { List (ℕ × Watch) };

    ghost view = { λ s. s.watches.entries };

    ghost invariant = { λ s. IsIndexed s.watches.entries s.on_data s.on_child };
}

// notes the number of a watch
fn add_watch(
    alloc: Global,
    on_data: &mut Index,
    on_child: &mut Index,
    watch: &Watch,
    number: u64,
) -> Result<(), NoMemory>
    ensures ok { OnOk result (SetsNumbered watch.now (Some number)
        on_data.old on_child.old on_data.new on_child.new) }
    ensures err { OnErr result (KeepsNumbered
        on_data.old on_child.old on_data.new on_child.new) }
{
    match watch.kind {
        Kind::Data => add_number(alloc, on_data, &watch.path, watch.session, number),
        Kind::Child => add_number(alloc, on_child, &watch.path, watch.session, number),
    }
}

// forgets the number of a watch
fn drop_watch(on_data: &mut Index, on_child: &mut Index, watch: &Watch)
    ensures { SetsNumbered watch.now None on_data.old on_child.old on_data.new on_child.new }
{
    match watch.kind {
        Kind::Data => drop_number(on_data, &watch.path, watch.session),
        Kind::Child => drop_number(on_child, &watch.path, watch.session),
    }
}

impl SetWatches {
    pub fn new(alloc: Global) -> SetWatches
        ensures { result ≡ [] }
    {
        SetWatches {
            watches: BTreeMap::new(alloc),
            on_data: BTreeMap::new(alloc),
            on_child: BTreeMap::new(alloc),
        }
    }

    /// The number of a session's watch of a path and kind.
    pub fn number_of(&self, session: u32, path: &Path, kind: Kind) -> Option<u64>
        ensures some { IfSome result (λ n.
            at n self.now ≡ Some (watch_on session path.now kind)) }
        ensures none { IfNone result (HasNot (watch_on session path.now kind) self.now) }
    {
        match kind {
            Kind::Data => number_in(&self.on_data, path, session),
            Kind::Child => number_in(&self.on_child, path, session),
        }
    }

    /// Sets a watch.
    pub fn add(&mut self, alloc: Global, number: u64, watch: Watch) -> Result<(), NoMemory>
        requires free { at number self.old ≡ None }
        requires new { HasNot watch self.old }
        ensures ok { OnOk result (SetsAt number (Some watch) self.old self.new) }
        ensures err { OnErr result (self.new ≡ self.old) }
    {
        add_watch(alloc, &mut self.on_data, &mut self.on_child, &watch, number)?;
        match self.watches.insert(number, watch) {
            Ok(_) => Ok(()),
            Err(failed) => {
                let (_, watch) = failed.value;
                drop_watch(&mut self.on_data, &mut self.on_child, &watch);
                Err(NoMemory)
            }
        }
    }

    /// Takes a watch out.
    pub fn remove(&mut self, number: u64)
        ensures { SetsAt number None self.old self.new }
    {
        if let Some(watch) = self.watches.remove(&number) {
            drop_watch(&mut self.on_data, &mut self.on_child, &watch);
        }
    }

    /// The watches that a touch fires do so, beside what had fired.
    pub fn fire(&self, fired: &mut Firings, touch: &Touch, tx: u64) -> Result<(), NoMemory>
        ensures ok { OnOk result ((n : ℕ) → at n fired.new.entries
            ≡ touched_by tx touch.now (at n self.now) (at n fired.old.entries)) }
        ensures kept { KeepsOthers tx self.now fired.old.entries fired.new.entries }
    {
        fire_kind(fired, &self.watches, &self.on_data, Kind::Data, touch, tx)?;
        fire_kind(fired, &self.watches, &self.on_child, Kind::Child, touch, tx)
    }
}
