ghost use Rattle.std.specs.Prelude.{◌≡◌, ◌≢◌, ◌≤◌, ◌↔◌, ◌⊎◌, None, Some, false, true, List, Option, ℕ, IsTrue, map, string_bytes};
ghost use Rattle.std.specs.Io.KnownBytes.{Appends};
ghost use Rattle.fk_base.specs.Faults.{Rose};
ghost use Rattle.fk_script.specs.PrintLaws.{IsMeant};
ghost use Rattle.fk_words.specs.Words.{words_meaning};
ghost use Rattle.fk_run.specs.Statuses.{Completes, Cuts, IsAnswer, IsOutput, IsRunText, IsTextOf, Offence, Refuses, RunOfInput, Runs, WritesFront, WritesRun, is_status, reads_source, run_text};

use crate::playing::{Played, play_new};
use crate::status::{DONE, NO_MEMORY, READ_FAULT, USAGE};
use crate::write::{refuse, refuse_line, write_summary, write_text};
use fk_base::{NoMemory, ReadAll, Sink, Source, read_all};
use fk_print::History;
use fk_script::{Deployment, ScriptFault, generate, read_script};
use fk_words::{Load, read_words};
use fk_world::World;
use std::alloc::Global;

/// Reads the words and what they ask for, plays it and writes the history, or its summary; the
/// answer is an exit status. After 0 `played` holds the world that was played.
///
/// The statuses, the first that fits: 64 words that aren't accepted, 66 a read fault, 65 an input
/// that is too long or has a line that offends, 74 a write fault, 71 want of memory, 0 else.
pub fn fk_run<S: Source, K: Sink>(
    alloc: Global,
    words: &[String],
    source: &mut S,
    sink: &mut K,
    played: &mut Option<World<Played>>,
) -> u8
    ensures words { result ≢ 71
        → (result ≡ 64) ↔ (words_meaning (map string_bytes words.now) ≡ None) }
    ensures unheard { words_meaning (map string_bytes words.now) ≡ None
        → sink.new ≡ sink.old }
    ensures unread { reads_source (words_meaning (map string_bytes words.now)) ≡ false
        → source.new ≡ source.old }
    ensures read_fault { result ≡ 66 → Rose (S.faults source.old) (S.faults source.new) }
    ensures asked { (result ≡ 65) ⊎ (result ≡ 66)
        → reads_source (words_meaning (map string_bytes words.now)) ≡ true }
    ensures silent { result ≡ 66 → sink.new ≡ sink.old }
    ensures refused { result ≡ 65 → Refuses (S.left source.old) (S.left source.new)
        (K.taken sink.old) (K.taken sink.new) }
    ensures write_fault { result ≡ 74 → Rose (K.faults sink.old) (K.faults sink.new) }
    ensures ran { result ≡ 0 → Runs (words_meaning (map string_bytes words.now))
        (S.left source.old) (S.left source.new) (K.taken sink.old) (K.taken sink.new) played.new }
    ensures kept { result ≢ 0 → played.new ≡ played.old }

    // Where memory is wanted or a write fails, what was written is a front.
    ensures front { (result ≡ 71) ⊎ (result ≡ 74)
        → Cuts (IsOutput (words_meaning (map string_bytes words.now))
        (S.left source.old) (S.left source.new))
        (K.taken sink.old) (K.taken sink.new) }

    // Where nothing failed, no other answer comes.
    ensures complete { ¬ Rose (S.faults source.old) (S.faults source.new)
        → ¬ Rose (K.faults sink.old) (K.faults sink.new)
        → Completes (words_meaning (map string_bytes words.now)) (S.left source.old) result }

    // At any status.
    ensures statuses { IsTrue (is_status result) }
    ensures reads { S.faults source.old ≤ S.faults source.new }
    ensures writes { K.faults sink.old ≤ K.faults sink.new }
{
    let Ok(accepted) = read_words(alloc, words) else {
        return NO_MEMORY;
    };
    let Some(asked) = accepted else {
        return USAGE;
    };
    match asked.load {
        Some(load) => run_load(alloc, load, asked.summary, sink, played),
        None => run_input(alloc, asked.summary, source, sink, played),
    }
}

/// Runs the deployment that is made.
#[tactic(auto, using(crate::proofs::Statuses::made_run))]
fn run_load<K: Sink>(
    alloc: Global,
    load: Load,
    summary: bool,
    sink: &mut K,
    played: &mut Option<World<Played>>,
) -> u8
    requires least { 1 ≤ load.size }
    requires most { load.size ≤ 500 }
    ensures ran { result ≡ 0 → (x : Option (List ℕ))
        → Runs (Some (record { load = Some load; summary = summary })) x x
        (K.taken sink.old) (K.taken sink.new) played.new }
    ensures front { result ≢ 0 → (x : Option (List ℕ))
        → Cuts (IsRunText (Some (record { load = Some load; summary = summary })) x x)
        (K.taken sink.old) (K.taken sink.new) }
    ensures kept { result ≢ 0 → played.new ≡ played.old }
    ensures fault { result ≡ 74 → Rose (K.faults sink.old) (K.faults sink.new) }
    ensures statuses { (result ≡ 0) ⊎ (result ≡ 71) ⊎ (result ≡ 74) }
    ensures later { K.faults sink.old ≤ K.faults sink.new }
{
    match generate(alloc, load.number, load.size) {
        Ok(made) => run(alloc, made, summary, sink, played),
        Err(NoMemory) => NO_MEMORY,
    }
}

/// Runs the deployment that the source's bytes mean, or writes why there is none.
#[tactic(auto, using(crate::proofs::Statuses::read_run, crate::proofs::Statuses::offends, crate::proofs::Statuses::too_long))]
fn run_input<S: Source, K: Sink>(
    alloc: Global,
    summary: bool,
    source: &mut S,
    sink: &mut K,
    played: &mut Option<World<Played>>,
) -> u8
    ensures read_fault { result ≡ 66 → Rose (S.faults source.old) (S.faults source.new) }
    ensures silent { result ≡ 66 → sink.new ≡ sink.old }
    ensures refused { result ≡ 65 → Refuses (S.left source.old) (S.left source.new)
        (K.taken sink.old) (K.taken sink.new) }
    ensures ran { result ≡ 0 → Runs (Some (record { load = None; summary = summary }))
        (S.left source.old) (S.left source.new) (K.taken sink.old) (K.taken sink.new) played.new }
    ensures front { (result ≡ 71) ⊎ (result ≡ 74)
        → Cuts (IsOutput (Some (record { load = None; summary = summary }))
        (S.left source.old) (S.left source.new))
        (K.taken sink.old) (K.taken sink.new) }
    ensures kept { result ≢ 0 → played.new ≡ played.old }
    ensures fault { result ≡ 74 → Rose (K.faults sink.old) (K.faults sink.new) }
    ensures statuses { (result ≡ 0) ⊎ (result ≡ 65) ⊎ (result ≡ 66) ⊎ (result ≡ 71)
        ⊎ (result ≡ 74) }
    ensures reads { S.faults source.old ≤ S.faults source.new }
    ensures writes { K.faults sink.old ≤ K.faults sink.new }
{
    match read_all(alloc, source) {
        Ok(input) => answer(alloc, input.as_slice(), summary, sink, played),
        Err(ReadAll::TooLong) => refuse("bad TooLong\n", sink),
        Err(ReadAll::ReadFault) => READ_FAULT,
        Err(ReadAll::NoMemory) => NO_MEMORY,
    }
}

/// Writes a run of the deployment that the bytes mean, or why there is none.
fn answer<K: Sink>(
    alloc: Global,
    input: &[u8],
    summary: bool,
    sink: &mut K,
    played: &mut Option<World<Played>>,
) -> u8
    ensures refused { result ≡ 65 → Offence input.now (K.taken sink.old) (K.taken sink.new) }
    ensures ran { result ≡ 0 → RunOfInput summary input.now
        (K.taken sink.old) (K.taken sink.new) played.new }
    ensures front { (result ≡ 71) ⊎ (result ≡ 74)
        → Cuts (IsAnswer summary input.now) (K.taken sink.old) (K.taken sink.new) }
    ensures kept { result ≢ 0 → played.new ≡ played.old }
    ensures fault { result ≡ 74 → Rose (K.faults sink.old) (K.faults sink.new) }
    ensures statuses { (result ≡ 0) ⊎ (result ≡ 65) ⊎ (result ≡ 71) ⊎ (result ≡ 74) }
    ensures later { K.faults sink.old ≤ K.faults sink.new }
{
    match read_script(alloc, input) {
        Ok(deployment) => run(alloc, deployment, summary, sink, played),
        Err(ScriptFault::Bad(line, why)) => refuse_line(alloc, line, why, sink),
        Err(ScriptFault::NoMemory) => NO_MEMORY,
    }
}

/// Plays the deployment and writes its run.
fn run<K: Sink>(
    alloc: Global,
    deployment: Deployment,
    summary: bool,
    sink: &mut K,
    played: &mut Option<World<Played>>,
) -> u8
    requires meant { IsMeant deployment }
    ensures ran { result ≡ 0 → WritesRun summary deployment
        (K.taken sink.old) (K.taken sink.new) played.new }
    ensures front { result ≢ 0
        → Cuts (IsTextOf summary deployment) (K.taken sink.old) (K.taken sink.new) }
    ensures kept { result ≢ 0 → played.new ≡ played.old }
    ensures fault { result ≡ 74 → Rose (K.faults sink.old) (K.faults sink.new) }
    ensures statuses { (result ≡ 0) ⊎ (result ≡ 71) ⊎ (result ≡ 74) }
    ensures later { K.faults sink.old ≤ K.faults sink.new }
{
    let Ok(world) = play_new(alloc, deployment) else {
        return NO_MEMORY;
    };
    let status = write_run(alloc, world.deployment(), world.history(), summary, sink);
    if status == DONE {
        *played = Some(world);
    }
    status
}

/// Writes a history of the deployment with its clients' names, or its summary.
fn write_run<K: Sink>(
    alloc: Global,
    deployment: &Deployment,
    history: &History,
    summary: bool,
    sink: &mut K,
) -> u8
    ensures done { result ≡ 0 → Appends (K.taken sink.old) (K.taken sink.new)
        (run_text summary deployment.now history.now) }
    ensures front { result ≢ 0 → WritesFront (K.taken sink.old) (K.taken sink.new)
        (run_text summary deployment.now history.now) }
    ensures fault { result ≡ 74 → Rose (K.faults sink.old) (K.faults sink.new) }
    ensures statuses { (result ≡ 0) ⊎ (result ≡ 71) ⊎ (result ≡ 74) }
    ensures later { K.faults sink.old ≤ K.faults sink.new }
{
    if summary {
        return write_summary(alloc, history, sink);
    }
    write_text(alloc, deployment, history, sink)
}
