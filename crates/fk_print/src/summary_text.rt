ghost use Rattle.std.specs.Prelude.{◌≡◌, ◌++◌, ◌+◌, if◌then◌else◌, IfOk, OnOk, string_bytes};
ghost use Rattle.fk_print.specs.SummaryText.{count_text, counts_of, counts_text, errors_of, summary_text, with_entry, with_line};

use crate::entry::Entry;
use crate::history::History;
use crate::line::{Line, Shown};
use fk_base::{Bytes, NoMemory};
use std::alloc::Global;
use std::fmt::Write;

/// How much a history has of each.
#[derive(Clone, Copy)]
pub(crate) struct Counts {
    entries: u64,
    transactions: u64,
    replies: u64,
    /// Replies with `err`.
    errors: u64,
    notifications: u64,
    expired: u64,
    /// The number of the last transaction.
    last: u64,
}

/// The summary of a history: what it has of each, in seven lines.
pub fn summary(alloc: Global, history: &History) -> Result<Bytes, NoMemory>
    ensures { IfOk result (λ bytes. bytes ≡ summary_text history.now) }
{
    let counts = count(history)?;
    let mut out = String::new(alloc);
    put_counts(&mut out, counts)?;
    Bytes::from_slice(alloc, out.as_bytes())
}

#[tactic(auto, using(crate::proofs::Walks::counts_more))]
fn count(history: &History) -> Result<Counts, NoMemory>
    ensures { IfOk result (λ c. c ≡ counts_of history.now) }
{
    let mut counts = Counts {
        entries: 0,
        transactions: 0,
        replies: 0,
        errors: 0,
        notifications: 0,
        expired: 0,
        last: 0,
    };
    'counting: for entry in history.as_slice() {
        counts = count_entry(counts, entry)?;
    }
    Ok(counts)
}

#[tactic(auto, using(crate::proofs::Walks::lines_more))]
fn count_entry(mut counts: Counts, entry: &Entry) -> Result<Counts, NoMemory>
    ensures { IfOk result (λ c. c ≡ with_entry counts entry.now) }
{
    counts.entries = more(counts.entries)?;
    'counting: for line in entry.lines.as_slice() {
        counts = count_line(counts, line)?;
    }
    Ok(counts)
}

fn count_line(mut counts: Counts, line: &Line) -> Result<Counts, NoMemory>
    ensures { IfOk result (λ c. c ≡ with_line counts line.now) }
{
    match line {
        Line::Tx(printed) => {
            counts.transactions = more(counts.transactions)?;
            counts.last = printed.tx;
            Ok(counts)
        }
        Line::Reply { shown, .. } => {
            counts.replies = more(counts.replies)?;
            if is_error(shown) {
                counts.errors = more(counts.errors)?;
            }
            Ok(counts)
        }
        Line::Notice { .. } => {
            counts.notifications = more(counts.notifications)?;
            Ok(counts)
        }
        Line::Expired { .. } => {
            counts.expired = more(counts.expired)?;
            Ok(counts)
        }
    }
}

/// Whether a reply has `err`.
fn is_error(shown: &Shown) -> bool
    ensures { (if result then 1 else 0) ≡ errors_of shown.now }
{
    match shown {
        Shown::Refused { .. } | Shown::Plain(_) | Shown::Lost { .. } => true,
        Shown::Created { .. }
        | Shown::Version { .. }
        | Shown::Done { .. }
        | Shown::Multi { .. }
        | Shown::Got { .. }
        | Shown::Stated { .. }
        | Shown::Listed { .. } => false,
    }
}

/// One more; no memory holds as many lines as this can't count.
fn more(count: u64) -> Result<u64, NoMemory>
    ensures { IfOk result (λ n. n ≡ count + 1) }
{
    match count.checked_add(1) {
        Some(count) => Ok(count),
        None => Err(NoMemory),
    }
}

fn put_counts(out: &mut String, counts: Counts) -> Result<(), NoMemory>
    ensures { OnOk result (string_bytes out.new ≡ string_bytes out.old ++ counts_text counts) }
{
    put_count(out, "entries", counts.entries)?;
    put_count(out, "transactions", counts.transactions)?;
    put_count(out, "replies", counts.replies)?;
    put_count(out, "errors", counts.errors)?;
    put_count(out, "notifications", counts.notifications)?;
    put_count(out, "expired", counts.expired)?;
    put_count(out, "last", counts.last)
}

fn put_count(out: &mut String, word: &str, count: u64) -> Result<(), NoMemory>
    ensures { OnOk result (string_bytes out.new ≡ string_bytes out.old
        ++ count_text word.now count) }
{
    out.push_str(word)?;
    write!(out, " {count}\n")?;
    Ok(())
}
