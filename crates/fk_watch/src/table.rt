//! The table of watches.

ghost use Rattle.std.specs.Prelude.{◌≡◌, ◌<◌, ◌^◌, ◌+◌, ◌-◌, ℕ, false, None, Some, if◌then◌else◌, is_some, IfOk, OnErr, OnOk};
ghost use Rattle.fk_watch.specs.Answers.{after_register, after_sweep, after_told, fired_with, AreFired, IsEpoch, IsRegister, IsSweep, IsTold};
ghost use Rattle.fk_watch.specs.Kept.{watches_of};
ghost use Rattle.fk_watch.specs.Meaning.{armed, calmed, failed, new_watches};
ghost use Rattle.fk_watch.specs.Moving.{FiresAll, KeepsOthers};
ghost use Rattle.fk_watch.specs.Registering.{with_watch, IsUnset};
ghost use Rattle.fk_watch.specs.Setting.{at, watch_on};
ghost use Rattle.fk_watch.specs.Sound.{IsSound};
ghost use Rattle.fk_watch.specs.Sweeping.{swept_for};
ghost use Rattle.fk_watch.specs.Touched.{HaveSweeps, KeepsLasts};

use crate::answer::{Register, Sweep, Told};
use crate::firings::{Firings, forget};
use crate::listing::{Lists, list};
use crate::set_watches::SetWatches;
use crate::sweeps::{Sweeps, add_places, last_sweep, put_all};
use crate::watch::Watch;
use fk_base::{NoMemory, Path};
use fk_tree::{Kind, Touch, Touches};
use fk_wire::Fired;
use std::alloc::Global;
use std::collections::BTreeMap;
use std::marker::Model;

/// The watches: how many numbers were given, which are set, which have fired and aren't told, what
/// was swept, and the last sweep of each path. A call that may fail answers `Failed` exactly where
/// the table is armed; it then changes nothing else, raises the count of faults and calms the
/// table.
#[derive(Drop)]
pub struct WatchTable {
    alloc: Global,
    given: u64,
    set: SetWatches,
    fired: Firings,
    swept: u64,
    sweeps: Sweeps,
    armed: bool,
    faults: u64,
}

impl Model for WatchTable {
    ghost use Rattle.fk_watch.specs.Kept.{watches_of, Kept};

    ghost Value = { Kept };

    ghost use Rattle.fk_watch.specs.Sound.{IsSound};
    ghost use Rattle.fk_watch.specs.Table.{kept_in};

    ghost view = { kept_in };

    ghost invariant = { λ t. IsSound (watches_of (kept_in t)) };
}

// the watches that the touches fire do so, beside what had fired
fn fire_all(
    set: &SetWatches,
    fired: &mut Firings,
    touches: &[Touch],
    tx: u64,
) -> Result<(), NoMemory>
    ensures ok { OnOk result (FiresAll tx touches.now set.now fired.old.entries fired.new.entries) }
    ensures kept { KeepsOthers tx set.now fired.old.entries fired.new.entries }
{
    // the last touch first, so that the first one stays
    let mut left = touches.len();
    'firing: while left > 0 {
        left -= 1;
        set.fire(fired, &touches[left], tx)?;
    }
    Ok(())
}

// takes all memory that a sweep needs
fn prepare(
    alloc: Global,
    set: &SetWatches,
    fired: &mut Firings,
    sweeps: &mut Sweeps,
    tx: u64,
    touches: &[Touch],
) -> Result<Lists, NoMemory>
    ensures ok { OnOk result (FiresAll tx touches.now set.now fired.old.entries fired.new.entries) }
    ensures kept { KeepsOthers tx set.now fired.old.entries fired.new.entries }
    ensures fired { IfOk result (λ l. AreFired tx (λ n. at n fired.new.entries) l.fired) }
    ensures epoch { IfOk result (λ l. IsEpoch (λ n. at n fired.new.entries) l.epoch) }
    ensures places { OnOk result (HaveSweeps touches.now sweeps.new.entries) }
    ensures lasts { KeepsLasts sweeps.old.entries sweeps.new.entries }
{
    fire_all(set, fired, touches, tx)?;
    add_places(sweeps, touches)?;
    list(alloc, fired, tx)
}

// these watches aren't set any more
fn unset(set: &mut SetWatches, list: &[Fired])
    ensures { (n : ℕ) → at n set.new
        ≡ (if is_some (fired_with n list.now) then None else at n set.old) }
{
    'moving: for fired in list {
        set.remove(fired.id);
    }
}

impl WatchTable {
    /// A new table: no number was given, nothing is set, fired or swept.
    #[tactic(auto, using(crate::proofs::Standing::sound_new))]
    pub fn new(alloc: Global) -> Result<WatchTable, NoMemory>
        ensures new { IfOk result (λ t. watches_of t ≡ new_watches) }
        ensures sound { IfOk result (λ t. IsSound (watches_of t)) }
    {
        Ok(WatchTable {
            alloc,
            given: 0,
            set: SetWatches::new(alloc),
            fired: BTreeMap::new(alloc),
            swept: 0,
            sweeps: BTreeMap::new(alloc),
            armed: false,
            faults: 0,
        })
    }

    /// How many watch numbers were given.
    pub fn given(&self) -> u64
        ensures given { result ≡ (watches_of self.now).given }
        ensures sound { IsSound (watches_of self.now) }
    {
        self.given
    }

    /// The number of a session's watch of a path and kind, which is set if it isn't yet, unless a
    /// sweep beyond the mark touched the path. May fail.
    pub fn register(&mut self, session: u32, path: &Path, kind: Kind, mark: u64) -> Register
        requires { (watches_of self.old).given < 2 ^ 63 - 1 }
        ensures answer { let watch = watch_on session path.now kind in
            IsRegister (watches_of self.old) watch mark result }
        ensures after { let watch = watch_on session path.now kind in
            watches_of self.new ≡ after_register (watches_of self.old) watch result }
        ensures sound { IsSound (watches_of self.new) }
    {
        if self.fails() {
            return Register::Failed;
        }
        let swept = last_sweep(&self.sweeps, path);
        if swept > mark {
            return Register::Swept(swept);
        }
        if let Some(number) = self.set.number_of(session, path, kind) {
            return Register::Done(number);
        }
        match self.add(session, path, kind) {
            Ok(number) => Register::Done(number),
            Err(NoMemory) => Register::NoMemory,
        }
    }

    /// Fires the set watches that the touches of a transaction fire, unless it or a later one was
    /// swept. May fail.
    pub fn sweep(&mut self, tx: u64, touches: &Touches) -> Sweep
        ensures answer { IsSweep (watches_of self.old) tx touches.now result }
        ensures after { watches_of self.new
            ≡ after_sweep (watches_of self.old) tx touches.now result }
        ensures sound { IsSound (watches_of self.new) }
    {
        if self.fails() {
            return Sweep::Failed;
        }
        if self.swept >= tx {
            return match list(self.alloc, &self.fired, tx) {
                Ok(lists) => Sweep::Already {
                    swept: self.swept,
                    fired: lists.fired,
                    epoch: lists.epoch,
                },
                Err(NoMemory) => Sweep::NoMemory,
            };
        }
        match self.fire(tx, touches.as_slice()) {
            Ok(lists) => Sweep::Fired {
                fired: lists.fired,
                epoch: lists.epoch,
            },
            Err(NoMemory) => Sweep::NoMemory,
        }
    }

    /// The watches that a transaction fired are told. May fail.
    pub fn told(&mut self, tx: u64) -> Told
        ensures answer { IsTold (watches_of self.old) result }
        ensures after { watches_of self.new ≡ after_told (watches_of self.old) tx result }
        ensures sound { IsSound (watches_of self.new) }
    {
        if self.fails() {
            return Told::Failed;
        }
        forget(&mut self.fired, tx);
        Told::Done
    }

    /// The next call that may fail does.
    pub fn arm(&mut self)
        ensures after { watches_of self.new ≡ armed (watches_of self.old) }
        ensures sound { IsSound (watches_of self.new) }
    {
        self.armed = true;
    }

    /// The next call doesn't fail.
    pub fn calm(&mut self)
        ensures after { watches_of self.new ≡ calmed (watches_of self.old) }
        ensures sound { IsSound (watches_of self.new) }
    {
        self.armed = false;
    }

    /// How often a call failed.
    pub fn faults(&self) -> u64
        ensures faults { result ≡ (watches_of self.now).faults }
        ensures sound { IsSound (watches_of self.now) }
    {
        self.faults
    }

    // whether this call fails
    fn fails(&mut self) -> bool
        ensures answer { result ≡ (watches_of self.old).armed }
        ensures after { watches_of self.new
            ≡ (if result then failed (watches_of self.old) else watches_of self.old) }
        ensures same { result ≡ false → self.new ≡ self.old }
        ensures sound { IsSound (watches_of self.new) }
    {
        if self.armed {
            self.armed = false;
            self.faults = self.faults.saturating_add(1);
            return true;
        }
        false
    }

    // sets a watch under the next number
    fn add(&mut self, session: u32, path: &Path, kind: Kind) -> Result<u64, NoMemory>
        requires room { (watches_of self.old).given < 2 ^ 63 - 1 }
        requires new { IsUnset (watch_on session path.now kind) (watches_of self.old) }
        ensures number { IfOk result (λ n. n ≡ (watches_of self.old).given + 1) }
        ensures ok { let old = watches_of self.old in
            OnOk result (watches_of self.new
            ≡ with_watch (watch_on session path.now kind) (old.given + 1) old) }
        ensures err { OnErr result (watches_of self.new ≡ watches_of self.old) }
        ensures sound { IsSound (watches_of self.new) }
    {
        let number = self.given + 1;
        let watch = Watch {
            session,
            path: path.copy()?,
            kind,
        };
        self.set.add(self.alloc, number, watch)?;
        self.given = number;
        Ok(number)
    }

    // fires what the touches of the next transaction fire
    fn fire(&mut self, tx: u64, touches: &[Touch]) -> Result<Lists, NoMemory>
        requires { (watches_of self.old).swept < tx }
        ensures fired { let after = swept_for tx touches.now (watches_of self.old) in
            IfOk result (λ l. AreFired tx after.fired l.fired) }
        ensures epoch { let after = swept_for tx touches.now (watches_of self.old) in
            IfOk result (λ l. IsEpoch after.fired l.epoch) }
        ensures ok { OnOk result (watches_of self.new
            ≡ swept_for tx touches.now (watches_of self.old)) }
        ensures err { OnErr result (watches_of self.new ≡ watches_of self.old) }
        ensures sound { IsSound (watches_of self.new) }
    {
        match prepare(
            self.alloc,
            &self.set,
            &mut self.fired,
            &mut self.sweeps,
            tx,
            touches,
        ) {
            Ok(lists) => {
                unset(&mut self.set, lists.fired.as_slice());
                put_all(&mut self.sweeps, touches, tx);
                self.swept = tx;
                Ok(lists)
            }
            Err(NoMemory) => {
                forget(&mut self.fired, tx);
                Err(NoMemory)
            }
        }
    }
}
