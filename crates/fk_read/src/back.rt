ghost use Rattle.std.specs.Prelude.{◌≡◌, ◌≢◌, ◌↔◌, true, IfOk, IfSome, IfNone, IsTrue, List};
ghost use Rattle.fk_print.specs.ClientNames.{are_client_names};
ghost use Rattle.fk_print.specs.EntryText.{history_text};
ghost use Rattle.fk_print.specs.WellFormed.{IsWellFormed};
ghost use Rattle.fk_print.specs.declared.entry.Entry.{Entry};
ghost use Rattle.fk_read.specs.OneHistory.{IsTextOfOne};

use crate::reading::read_history;
use crate::unread::Unread;
use fk_base::{Names, NoMemory};
use fk_print::{History, render};
use std::alloc::Global;

/// The well-formed history whose text the bytes are; None where they are the text of none.
///
/// Each line is read once, by the words that tell it from others; then the history is written
/// again, and only its own text passes.
#[tactic(auto, using(crate::proofs::TextOfOne::not_read, crate::proofs::TextOfOne::not_same))]
pub fn read_back(alloc: Global, clients: &Names, bytes: &[u8]) -> Result<Option<History>, NoMemory>
    requires { are_client_names clients.now ≡ true }
    ensures some { IfOk result (λ o. IfSome o (λ h. IsWellFormed clients.now h
        × (bytes.now ≡ history_text clients.now h))) }
    ensures none { IfOk result (λ o. IfNone o ((h : List Entry) → IsWellFormed clients.now h
        → bytes.now ≢ history_text clients.now h)) }
{
    match read_history(alloc, clients, bytes) {
        Ok(history) => {
            let text = render(alloc, clients, &history)?;
            if same(text.as_slice(), bytes) {
                return Ok(Some(history));
            }
            Ok(None)
        }
        Err(Unread::Malformed) => Ok(None),
        Err(Unread::NoMemory) => Err(NoMemory),
    }
}

fn same(text: &[u8], bytes: &[u8]) -> bool
    ensures { IsTrue result ↔ (text.now ≡ bytes.now) }
{
    text == bytes
}

/// A law: a text is the text of one well-formed history alone.
#[tactic(auto, using(crate::proofs::TextOfOne::text_of_one))]
pub fn one_history()
    ensures { IsTextOfOne }
{}
