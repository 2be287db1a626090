ghost use Rattle.std.specs.Prelude.{◌≡◌, IfOk};
ghost use Rattle.std.specs.List.{list_all};
ghost use Rattle.fk_base.specs.Limits.{IsData};
ghost use Rattle.fk_print.specs.Words.{is_plain};
ghost use Rattle.fk_read.specs.ReadWords.{base64_of, data_of};
ghost use Rattle.fk_read.specs.Reads.{Reads};

use crate::unread::Unread;
use base64::DecodeAllocError;
use base64::engine::general_purpose::STANDARD;
use fk_base::{Bytes, NoMemory};
use std::alloc::Global;

/// The data that a word says.
#[tactic(auto, unfolding(crate::specs::ReadWords::data_of), using(crate::proofs::Plain::plain_fits))]
pub(crate) fn read_data(alloc: Global, word: &[u8]) -> Result<Bytes, Unread>
    ensures reads { Reads result (data_of word.now) }
    ensures fits { IfOk result IsData }
{
    match word {
        [] => Err(Unread::Malformed),
        [mark, bytes @ ..] => {
            if *mark != b'=' {
                return read_base64(alloc, bytes);
            }
            if !are_plain(bytes) {
                return Err(Unread::Malformed);
            }
            match Bytes::from_slice(alloc, bytes) {
                Ok(bytes) => Ok(bytes),
                Err(NoMemory) => Err(Unread::NoMemory),
            }
        }
    }
}

/// Whether a word may show each byte as it is.
fn are_plain(bytes: &[u8]) -> bool
    ensures { result ≡ list_all is_plain bytes.now }
{
    bytes.iter().all(|byte| (0x21..=0x7E).contains(byte))
}

fn read_base64(alloc: Global, word: &[u8]) -> Result<Bytes, Unread>
    ensures reads { Reads result (base64_of word.now) }
    ensures fits { IfOk result IsData }
{
    match STANDARD.decode(alloc, word) {
        Ok(bytes) => match Bytes::from_slice(alloc, bytes.as_slice()) {
            Ok(bytes) => Ok(bytes),
            Err(NoMemory) => Err(Unread::NoMemory),
        },
        Err(DecodeAllocError::DecodeError(_)) => Err(Unread::Malformed),
        Err(DecodeAllocError::OutOfMemory) => Err(Unread::NoMemory),
    }
}
