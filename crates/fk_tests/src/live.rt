//! The workers of a desk, and workers on threads.

ghost use Rattle.std.specs.Prelude.{◌≡◌, [], IfOk};

use fk_base::SetClock;
use fk_live::{Desk, Gate, NoGate, Pick, live};
use fk_print::{Entry, Event, Op};
use fk_run::{Played, new_world};
use fk_script::{ScriptFault, read_unscheduled};
use fk_world::World;
use std::alloc::Global;
use std::sync::atomic::{AtomicBool, AtomicU64, Ordering};
use std::test::Fail;
use std::thread;

const PAIR: &str = "client a\ncreate /x\nclient b\ncreate /y\n";

/// A new world of what these bytes say.
fn world_of(alloc: Global, text: &str) -> Result<World<Played>, ScriptFault>
    ensures { IfOk result (λ w. w.past ≡ []) }
{
    let deployment = read_unscheduled(alloc, text.as_bytes())?;
    Ok(new_world(alloc, deployment)?)
}

#[test]
fn workers_pick_and_make(rt: HostRuntime) -> Result<(), Fail> {
    let mut desk = Desk::new(rt.alloc(), world_of(rt.alloc(), PAIR)?)?;
    assert!(rt; desk.pick(1, 0)? == Pick::Make(Event::Client(1)));
    assert!(rt; desk.pick(2, 0)? == Pick::Make(Event::Client(2)));
    assert!(rt; desk.pick(3, 0)? == Pick::Wait);
    assert!(rt; !desk.make(2, &Event::Client(1))?);
    assert!(rt; desk.make(1, &Event::Client(1))?);
    let entries = desk.world().history().as_slice();
    assert!(rt; entries.len() == 1);
    assert!(rt;
        matches!(
            entries[0].op,
            Op::Send {
                session: 1,
                command: 1,
                k: 1
            }
        )
    );
    Ok(())
}

#[test]
fn empty_desk_is_quiet(rt: HostRuntime) -> Result<(), Fail> {
    let mut desk = Desk::new(rt.alloc(), world_of(rt.alloc(), "")?)?;
    assert!(rt; desk.pick(1, 0)? == Pick::Quiet);
    Ok(())
}

/// Holds the first pass until one of another worker has begun.
#[derive(Drop)]
struct HoldFirst {
    passes: AtomicU64,
    first: AtomicU64,
    other: AtomicBool,
    gave_up: AtomicBool,
}

impl HoldFirst {
    fn new() -> HoldFirst {
        HoldFirst {
            passes: AtomicU64::new(0),
            first: AtomicU64::new(0),
            other: AtomicBool::new(false),
            gave_up: AtomicBool::new(false),
        }
    }

    fn hold(&self) {
        for _ in 0..10_000_000u64 {
            if self.other.load(Ordering::SeqCst) {
                return;
            }
            thread::yield_now();
        }
        self.gave_up.store(true, Ordering::SeqCst);
    }
}

impl Gate for HoldFirst {
    fn pass(&self, worker: u32, _event: &Event) {
        let worker = u64::from(worker);
        self.passes.fetch_add(1, Ordering::SeqCst);
        match self
            .first
            .compare_exchange(0, worker, Ordering::SeqCst, Ordering::SeqCst)
        {
            Ok(_) => self.hold(),
            Err(first) => {
                if first != worker {
                    self.other.store(true, Ordering::SeqCst);
                }
            }
        }
    }
}

fn made(entries: &[Entry]) -> u64 {
    let mut count = 0u64;
    for entry in entries {
        if !matches!(entry.event, Event::Clock(_)) {
            count = count.wrapping_add(1);
        }
    }
    count
}

#[test]
fn two_workers_pass_at_once(rt: HostRuntime) -> Result<(), Fail> {
    let gate = HoldFirst::new();
    let world = world_of(rt.alloc(), PAIR)?;
    let world = live(&rt, rt.alloc(), world, 2, &SetClock::new(5), &gate)?;
    assert!(rt; !gate.gave_up.load(Ordering::SeqCst));
    assert!(rt; gate.other.load(Ordering::SeqCst));
    assert_eq!(rt;
        gate.passes.load(Ordering::SeqCst),
        made(world.history().as_slice())
    );
    assert!(rt; !world.spent());
    assert!(rt; world.quiet());
    Ok(())
}

const SERVICE: &str =
    "lock 20\nbeat 60\nclient boss\ncreate /config v1\ncreate /members\nls -w /members\nget -w /config\nget /config\nclient w1\ncreate -e /members/w1 ready\nget -w /config\nls /members\nset -v 0 /config v2\n& create -s /members/job- 1\n& create -s /members/job- 2\nls /members\nclose\nclient w2\ncreate -e /members/w2 ready\nstat /config\nset -v 0 /config v3\nget /config\ndelete /members/w1\nls -w /members\nclose\n";

#[test]
fn sixteen_workers_end(rt: HostRuntime) -> Result<(), Fail> {
    let world = world_of(rt.alloc(), SERVICE)?;
    let world = live(&rt, rt.alloc(), world, 16, &SetClock::new(7), &NoGate)?;
    assert!(rt; !world.spent());
    assert!(rt; world.quiet());
    Ok(())
}

#[test]
fn one_worker_ends(rt: HostRuntime) -> Result<(), Fail> {
    let world = world_of(rt.alloc(), SERVICE)?;
    let world = live(&rt, rt.alloc(), world, 1, &SetClock::new(7), &NoGate)?;
    assert!(rt; !world.spent());
    assert!(rt; world.quiet());
    Ok(())
}
