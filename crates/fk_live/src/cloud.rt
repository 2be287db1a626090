//! A desk under a lock.

ghost use Rattle.std.specs.Prelude.{◌≡◌, ◌≤◌, ◌<◌, ◌^◌, []};
ghost use Rattle.fk_spec.specs.Lawful.{Lawful};
ghost use Rattle.fk_spec.specs.Start.{clock_of};
ghost use Rattle.fk_live.specs.Undisturbed.{IsUndisturbed};

use crate::desk::Desk;
use crate::pick::Pick;
use fk_base::NoMemory;
use fk_print::{Event, Op};
use fk_store::Table;
use fk_world::World;
use std::alloc::Global;
use std::sync::{Condvar, Mutex, MutexGuard, Wait};
use std::thread::Parker;
use std::time::Duration;

/// How long a worker rests, in microseconds, where its event came to nothing.
const REST: u64 = 200;

/// Whether the last event came to nothing: a function met a lock, or a client has to be told
/// something first. The same event would come to nothing again until another one changes that.
fn is_stalled<T: Table>(world: &World<T>) -> bool {
    match world.history().as_slice().last() {
        None => false,
        Some(entry) => matches!(
            entry.op,
            Op::LockBusy { .. } | Op::LookBehind { .. } | Op::LookHeld { .. }
        ),
    }
}

/// A desk that its workers share. What a call does to the desk under the lock is said of `Desk`.
#[derive(Drop)]
pub struct Cloud<T: Table> {
    desk: Mutex<Desk<T>>,
    /// Something was made, or there is nothing more to wait for.
    moved: Condvar,
}

impl<T: Table> Cloud<T> {
    /// A new desk over a world in which nothing happened yet.
    pub fn new(alloc: Global, world: World<T>) -> Result<Cloud<T>, NoMemory>
        requires { world.past ≡ [] }
    {
        let desk = Desk::new(alloc, world)?;
        Ok(Cloud {
            desk: Mutex::new(desk),
            moved: Condvar::new(),
        })
    }

    /// The event that a worker is to make, at this moment of a clock outside; it waits where there
    /// is none now, and gets none where the world is quiet.
    pub fn choose<R: Wait>(&self, rt: &R, worker: u32, now: u64) -> Result<Option<Event>, NoMemory>
        requires first { 1 ≤ worker }
        requires last { worker ≤ 16 }
    {
        let mut desk = self.desk.lock(rt);
        for _ in rt.forever() {
            match desk.pick(worker, now) {
                Ok(Pick::Make(event)) => return Ok(Some(event)),
                Ok(Pick::Wait) => desk = self.moved.wait(rt, desk),
                Ok(Pick::Quiet) => {
                    self.moved.notify_all();
                    return Ok(None);
                }
                Err(NoMemory) => {
                    self.moved.notify_all();
                    return Err(NoMemory);
                }
            }
        }
        unreachable!()
    }

    /// Makes the event that a worker has picked, and wakes one of those that wait. Where the event
    /// came to nothing it wakes none and rests a little, so that the worker doesn't make it again
    /// and again while another is about to change that.
    pub fn make<R: Wait>(&self, rt: &R, worker: u32, event: &Event) -> Result<(), NoMemory>
        requires first { 1 ≤ worker }
        requires last { worker ≤ 16 }
    {
        let mut desk = self.desk.lock(rt);
        let made = desk.make(worker, event);
        let stalled = is_stalled(desk.world());
        MutexGuard::unlock(desk);
        match made {
            Err(NoMemory) => {
                self.moved.notify_all();
                Err(NoMemory)
            }
            Ok(_) => {
                self.go_on(rt, stalled);
                Ok(())
            }
        }
    }

    // wakes one that waits, or rests
    fn go_on<R: Wait>(&self, rt: &R, stalled: bool) {
        if stalled {
            Parker::new().park_timeout(rt, Duration::from_micros(REST));
        } else {
            self.moved.notify_one();
        }
    }

    /// The world, once no worker shares it.
    pub fn finish(self) -> World<T>
        ensures lawful { Lawful result.deployment result.past }
        ensures undisturbed { IsUndisturbed result.past }
        ensures early { clock_of result.past < 2 ^ 40 }
    {
        let Cloud { desk, moved: _ } = self;
        desk.into_inner().into_world()
    }
}
