//! Histories: what happened in a run, event by event, and its text.
#![tactic(auto)]

mod act_text;
mod client_text;
mod entry;
mod entry_text;
mod event;
mod event_text;
mod function_text;
mod history;
mod line;
mod line_copy;
mod line_text;
mod lines;
mod op;
mod op_copy;
mod op_text;
mod piece;
mod reply_text;
mod said;
mod summary_text;
mod worked;

pub use entry::Entry;
pub use entry_text::{append_entry, render, render_entry};
pub use event::Event;
pub use history::History;
pub use line::{Act, Line, Printed, Shown, Verb};
pub use lines::Lines;
pub use op::{Op, Word};
pub use summary_text::summary;
pub use worked::worked_lines;
