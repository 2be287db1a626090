ghost use Rattle.std.specs.Prelude.{◌≡◌, ◌≢◌, ◌≤◌, ◌↔◌, ◌⊎◌, None, Some, IsTrue, map, string_bytes};
ghost use Rattle.fk_base.specs.Faults.{Rose};
ghost use Rattle.fk_script.specs.PrintLaws.{IsMeant};
ghost use Rattle.fk_script.specs.Unscheduled.{unscheduled_of};
ghost use Rattle.fk_words.specs.Workers.{IsCrew, worker_count};
ghost use Rattle.fk_run.specs.Statuses.{Cuts, OffenceBy, RefusesBy, is_status};
ghost use Rattle.fk_live.specs.Live.{Completes, IsAnswer, IsOutput, IsTextOf, LiveOfInput, Lives, WritesLive};

use crate::gate::Gate;
use crate::playing::play_live;
use fk_base::{Clock, NoMemory, ReadAll, Sink, Source, read_all};
use fk_run::{DONE, NO_MEMORY, Played, READ_FAULT, USAGE, refuse, refuse_line, write_text};
use fk_script::{Deployment, ScriptFault, read_unscheduled};
use fk_words::read_workers;
use fk_world::World;
use std::alloc::Global;
use std::sync::Wait;
use std::thread::Threads;

/// Reads the words and a deployment file without schedule, plays it by workers on threads and
/// writes the history; the answer is an exit status. After 0 `played` holds the world that was
/// played. The clock of the history follows `clock`; each worker passes `gate` before it makes an
/// event.
///
/// The statuses, the first that fits: 64 words that aren't accepted, 66 a read fault, 65 an input
/// that is too long or has a line that offends, 74 a write fault, 71 want of memory, 0 else.
pub fn fk_live<R: Threads + Wait + Sync, S: Source, K: Sink, C: Clock + Sync, G: Gate + Sync>(
    rt: &R,
    alloc: Global,
    words: &[String],
    source: &mut S,
    sink: &mut K,
    clock: &C,
    gate: &G,
    played: &mut Option<World<Played>>,
) -> u8
    ensures words { (result ≡ 64) ↔ (worker_count (map string_bytes words.now) ≡ None) }
    ensures unheard { worker_count (map string_bytes words.now) ≡ None → sink.new ≡ sink.old }
    ensures unread { worker_count (map string_bytes words.now) ≡ None
        → source.new ≡ source.old }
    ensures read_fault { result ≡ 66 → Rose (S.faults source.old) (S.faults source.new) }
    ensures silent { result ≡ 66 → sink.new ≡ sink.old }
    ensures refused { result ≡ 65 → RefusesBy unscheduled_of (S.left source.old)
        (S.left source.new) (K.taken sink.old) (K.taken sink.new) }
    ensures write_fault { result ≡ 74 → Rose (K.faults sink.old) (K.faults sink.new) }
    ensures ran { result ≡ 0 → Lives (S.left source.old) (S.left source.new)
        (K.taken sink.old) (K.taken sink.new) played.new }
    ensures kept { result ≢ 0 → played.new ≡ played.old }

    // Where memory is wanted or a write fails, what was written is a front.
    ensures front { (result ≡ 71) ⊎ (result ≡ 74)
        → Cuts (IsOutput (S.left source.old) (S.left source.new))
        (K.taken sink.old) (K.taken sink.new) }

    // Where nothing failed, no other answer comes.
    ensures complete { ¬ Rose (S.faults source.old) (S.faults source.new)
        → ¬ Rose (K.faults sink.old) (K.faults sink.new)
        → Completes (worker_count (map string_bytes words.now)) (S.left source.old) result }

    // At any status.
    ensures statuses { IsTrue (is_status result) }
    ensures reads { S.faults source.old ≤ S.faults source.new }
    ensures writes { K.faults sink.old ≤ K.faults sink.new }
{
    match read_workers(words) {
        Some(workers) => live_input(rt, alloc, workers, source, sink, clock, gate, played),
        None => USAGE,
    }
}

/// Plays the deployment that the source's bytes mean, or writes why there is none.
#[tactic(auto, using(crate::proofs::Ending::lives, crate::proofs::Ending::offends, crate::proofs::Ending::too_long))]
fn live_input<R: Threads + Wait + Sync, S: Source, K: Sink, C: Clock + Sync, G: Gate + Sync>(
    rt: &R,
    alloc: Global,
    workers: u32,
    source: &mut S,
    sink: &mut K,
    clock: &C,
    gate: &G,
    played: &mut Option<World<Played>>,
) -> u8
    requires crew { IsCrew workers }
    ensures read_fault { result ≡ 66 → Rose (S.faults source.old) (S.faults source.new) }
    ensures silent { result ≡ 66 → sink.new ≡ sink.old }
    ensures refused { result ≡ 65 → RefusesBy unscheduled_of (S.left source.old)
        (S.left source.new) (K.taken sink.old) (K.taken sink.new) }
    ensures ran { result ≡ 0 → Lives (S.left source.old) (S.left source.new)
        (K.taken sink.old) (K.taken sink.new) played.new }
    ensures front { (result ≡ 71) ⊎ (result ≡ 74)
        → Cuts (IsOutput (S.left source.old) (S.left source.new))
        (K.taken sink.old) (K.taken sink.new) }
    ensures kept { result ≢ 0 → played.new ≡ played.old }
    ensures fault { result ≡ 74 → Rose (K.faults sink.old) (K.faults sink.new) }
    ensures statuses { (result ≡ 0) ⊎ (result ≡ 65) ⊎ (result ≡ 66) ⊎ (result ≡ 71)
        ⊎ (result ≡ 74) }
    ensures reads { S.faults source.old ≤ S.faults source.new }
    ensures writes { K.faults sink.old ≤ K.faults sink.new }
{
    match read_all(alloc, source) {
        Ok(input) => answer(
            rt,
            alloc,
            input.as_slice(),
            workers,
            sink,
            clock,
            gate,
            played,
        ),
        Err(ReadAll::TooLong) => refuse("bad TooLong\n", sink),
        Err(ReadAll::ReadFault) => READ_FAULT,
        Err(ReadAll::NoMemory) => NO_MEMORY,
    }
}

/// Writes a history of the deployment that the bytes mean, or why there is none.
fn answer<R: Threads + Wait + Sync, K: Sink, C: Clock + Sync, G: Gate + Sync>(
    rt: &R,
    alloc: Global,
    input: &[u8],
    workers: u32,
    sink: &mut K,
    clock: &C,
    gate: &G,
    played: &mut Option<World<Played>>,
) -> u8
    requires crew { IsCrew workers }
    ensures refused { result ≡ 65
        → OffenceBy unscheduled_of input.now (K.taken sink.old) (K.taken sink.new) }
    ensures ran { result ≡ 0 → LiveOfInput input.now
        (K.taken sink.old) (K.taken sink.new) played.new }
    ensures front { (result ≡ 71) ⊎ (result ≡ 74)
        → Cuts (IsAnswer input.now) (K.taken sink.old) (K.taken sink.new) }
    ensures kept { result ≢ 0 → played.new ≡ played.old }
    ensures fault { result ≡ 74 → Rose (K.faults sink.old) (K.faults sink.new) }
    ensures statuses { (result ≡ 0) ⊎ (result ≡ 65) ⊎ (result ≡ 71) ⊎ (result ≡ 74) }
    ensures later { K.faults sink.old ≤ K.faults sink.new }
{
    match read_unscheduled(alloc, input) {
        Ok(deployment) => run(rt, alloc, deployment, workers, sink, clock, gate, played),
        Err(ScriptFault::Bad(line, why)) => refuse_line(alloc, line, why, sink),
        Err(ScriptFault::NoMemory) => NO_MEMORY,
    }
}

/// Plays the deployment and writes its history.
fn run<R: Threads + Wait + Sync, K: Sink, C: Clock + Sync, G: Gate + Sync>(
    rt: &R,
    alloc: Global,
    deployment: Deployment,
    workers: u32,
    sink: &mut K,
    clock: &C,
    gate: &G,
    played: &mut Option<World<Played>>,
) -> u8
    requires meant { IsMeant deployment }
    requires crew { IsCrew workers }
    ensures ran { result ≡ 0 → WritesLive deployment
        (K.taken sink.old) (K.taken sink.new) played.new }
    ensures front { result ≢ 0
        → Cuts (IsTextOf deployment) (K.taken sink.old) (K.taken sink.new) }
    ensures kept { result ≢ 0 → played.new ≡ played.old }
    ensures fault { result ≡ 74 → Rose (K.faults sink.old) (K.faults sink.new) }
    ensures statuses { (result ≡ 0) ⊎ (result ≡ 71) ⊎ (result ≡ 74) }
    ensures later { K.faults sink.old ≤ K.faults sink.new }
{
    let Ok(world) = play_live(rt, alloc, deployment, workers, clock, gate) else {
        return NO_MEMORY;
    };
    let status = write_text(alloc, world.deployment(), world.history(), sink);
    if status == DONE {
        *played = Some(world);
    }
    status
}
