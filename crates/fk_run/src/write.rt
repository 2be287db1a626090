ghost use Rattle.std.specs.Prelude.{◌≡◌, ◌≢◌, ◌≤◌, ◌⊎◌, IfOk, string_bytes};
ghost use Rattle.std.specs.Io.KnownBytes.{Appends};
ghost use Rattle.fk_base.specs.Faults.{Rose};
ghost use Rattle.fk_print.specs.EntryText.{history_text};
ghost use Rattle.fk_print.specs.SummaryText.{summary_text};
ghost use Rattle.fk_run.specs.Run.{client_names};
ghost use Rattle.fk_run.specs.Statuses.{WritesFront, bad_line};

use crate::status::{BAD_INPUT, DONE, NO_MEMORY, WRITE_FAULT};
use fk_base::{Names, NoMemory, Sink, WriteAll, write_all};
use fk_print::{History, append_entry, summary};
use fk_script::{Deployment, Why};
use std::alloc::Global;
use std::fmt::Write;

/// Offers the text of a history of the deployment, entry by entry: the answer is the status.
pub fn write_text<K: Sink>(
    alloc: Global,
    deployment: &Deployment,
    history: &History,
    sink: &mut K,
) -> u8
    ensures done { result ≡ 0 → Appends (K.taken sink.old) (K.taken sink.new)
        (history_text (client_names deployment.now) history.now) }
    ensures front { result ≢ 0 → WritesFront (K.taken sink.old) (K.taken sink.new)
        (history_text (client_names deployment.now) history.now) }
    ensures fault { result ≡ 74 → Rose (K.faults sink.old) (K.faults sink.new) }
    ensures statuses { (result ≡ 0) ⊎ (result ≡ 71) ⊎ (result ≡ 74) }
    ensures later { K.faults sink.old ≤ K.faults sink.new }
{
    match client_names(alloc, deployment) {
        Ok(clients) => write_history(alloc, &clients, history, sink),
        Err(NoMemory) => NO_MEMORY,
    }
}

/// The names of the clients, in file order.
#[tactic(auto, using(crate::proofs::Texts::names_more))]
fn client_names(alloc: Global, deployment: &Deployment) -> Result<Names, NoMemory>
    ensures { IfOk result (λ n. n ≡ client_names deployment.now) }
{
    let mut names = Names::new(alloc);
    'naming: for block in deployment.clients.as_slice() {
        names.push(block.name.copy()?)?;
    }
    Ok(names)
}

/// Offers the text of a history entry by entry, the oldest first.
#[tactic(auto, using(crate::proofs::Texts::text_more, crate::proofs::Texts::text_all))]
fn write_history<K: Sink>(alloc: Global, clients: &Names, history: &History, sink: &mut K) -> u8
    ensures done { result ≡ 0 → Appends (K.taken sink.old) (K.taken sink.new)
        (history_text clients.now history.now) }
    ensures front { result ≢ 0 → WritesFront (K.taken sink.old) (K.taken sink.new)
        (history_text clients.now history.now) }
    ensures fault { result ≡ 74 → Rose (K.faults sink.old) (K.faults sink.new) }
    ensures statuses { (result ≡ 0) ⊎ (result ≡ 71) ⊎ (result ≡ 74) }
    ensures later { K.faults sink.old ≤ K.faults sink.new }
{
    let mut text = String::new(alloc);
    'writing: for entry in history.as_slice() {
        text.clear();
        if append_entry(&mut text, clients, entry).is_err() {
            return NO_MEMORY;
        }
        match write_all(sink, text.as_bytes()) {
            WriteAll::Done => {}
            WriteAll::Failed => return WRITE_FAULT,
        }
    }
    DONE
}

/// Offers the summary of a history.
#[tactic(auto, using(crate::proofs::Fronts::nothing, crate::proofs::Fronts::front_of))]
pub(crate) fn write_summary<K: Sink>(alloc: Global, history: &History, sink: &mut K) -> u8
    ensures done { result ≡ 0
        → Appends (K.taken sink.old) (K.taken sink.new) (summary_text history.now) }
    ensures front { result ≢ 0
        → WritesFront (K.taken sink.old) (K.taken sink.new) (summary_text history.now) }
    ensures fault { result ≡ 74 → Rose (K.faults sink.old) (K.faults sink.new) }
    ensures statuses { (result ≡ 0) ⊎ (result ≡ 71) ⊎ (result ≡ 74) }
    ensures later { K.faults sink.old ≤ K.faults sink.new }
{
    let Ok(counts) = summary(alloc, history) else {
        return NO_MEMORY;
    };
    match write_all(sink, counts.as_slice()) {
        WriteAll::Done => DONE,
        WriteAll::Failed => WRITE_FAULT,
    }
}

/// Writes the line that says why there is no run: the answer is the status.
#[tactic(auto, using(crate::proofs::Fronts::front_of))]
pub fn refuse<K: Sink>(line: &str, sink: &mut K) -> u8
    ensures refused { result ≡ 65 → Appends (K.taken sink.old) (K.taken sink.new) line.now }
    ensures front { result ≢ 65 → WritesFront (K.taken sink.old) (K.taken sink.new) line.now }
    ensures fault { result ≡ 74 → Rose (K.faults sink.old) (K.faults sink.new) }
    ensures statuses { (result ≡ 65) ⊎ (result ≡ 74) }
    ensures later { K.faults sink.old ≤ K.faults sink.new }
{
    match write_all(sink, line.as_bytes()) {
        WriteAll::Done => BAD_INPUT,
        WriteAll::Failed => WRITE_FAULT,
    }
}

/// Writes the number of the line that offends, and its reason.
#[tactic(auto, using(crate::proofs::Fronts::nothing))]
pub fn refuse_line<K: Sink>(alloc: Global, line: u64, why: Why, sink: &mut K) -> u8
    ensures refused { result ≡ 65
        → Appends (K.taken sink.old) (K.taken sink.new) (bad_line line why) }
    ensures front { result ≢ 65
        → WritesFront (K.taken sink.old) (K.taken sink.new) (bad_line line why) }
    ensures fault { result ≡ 74 → Rose (K.faults sink.old) (K.faults sink.new) }
    ensures statuses { (result ≡ 65) ⊎ (result ≡ 71) ⊎ (result ≡ 74) }
    ensures later { K.faults sink.old ≤ K.faults sink.new }
{
    match bad_line(alloc, line, why) {
        Ok(text) => refuse(text.as_str(), sink),
        Err(NoMemory) => NO_MEMORY,
    }
}

fn bad_line(alloc: Global, line: u64, why: Why) -> Result<String, NoMemory>
    ensures { IfOk result (λ text. string_bytes text ≡ bad_line line why) }
{
    let mut text = String::new(alloc);
    write!(text, "bad {line} {}\n", why.text())?;
    Ok(text)
}
