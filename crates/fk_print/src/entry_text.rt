ghost use Rattle.std.specs.Prelude.{◌≡◌, ◌++◌, IfOk, OnOk, string_bytes};
ghost use Rattle.fk_print.specs.EntryText.{entry_text, history_text};

use crate::entry::Entry;
use crate::event_text::put_event;
use crate::history::History;
use crate::line_text::put_lines;
use crate::op_text::put_op;
use fk_base::{Bytes, Names, NoMemory};
use std::alloc::Global;

/// The text of an entry. A session is shown as its client's name.
pub fn render_entry(alloc: Global, clients: &Names, entry: &Entry) -> Result<Bytes, NoMemory>
    ensures { IfOk result (λ bytes. bytes ≡ entry_text clients.now entry.now) }
{
    let mut out = String::new(alloc);
    append_entry(&mut out, clients, entry)?;
    Bytes::from_slice(alloc, out.as_bytes())
}

/// The text of a history, entry by entry.
#[tactic(auto, using(crate::proofs::Walks::text_more))]
pub fn render(alloc: Global, clients: &Names, history: &History) -> Result<Bytes, NoMemory>
    ensures { IfOk result (λ bytes. bytes ≡ history_text clients.now history.now) }
{
    let mut out = String::new(alloc);
    'writing: for entry in history.as_slice() {
        append_entry(&mut out, clients, entry)?;
    }
    Bytes::from_slice(alloc, out.as_bytes())
}

/// Adds the text of an entry to the end of a text. After want of memory a front of it may have been added.
pub fn append_entry(out: &mut String, clients: &Names, entry: &Entry) -> Result<(), NoMemory>
    ensures { OnOk result (string_bytes out.new ≡ string_bytes out.old
        ++ entry_text clients.now entry.now) }
{
    put_event(out, clients, &entry.event)?;
    put_op(out, clients, &entry.op)?;
    put_lines(out, clients, entry.lines.as_slice())
}
