//! The values that words stand for.

ghost use Rattle.std.specs.Prelude.{◌≡◌, ◌≤◌, IfOk, IfSome};
ghost use Rattle.std.specs.Str.{all_ascii_digits};
ghost use Rattle.fk_script.specs.Values.{decoded, is_decimal, number, version};

use crate::words::Word;
use base64::DecodeAllocError;
use base64::engine::general_purpose::STANDARD;
use fk_base::{Bytes, NoMemory};
use std::alloc::Global;

/// How long a lock or a ping may last at most.
pub(crate) const MOST_TIME: u64 = 1_000_000;

/// The greatest function's number and moment of a schedule.
pub(crate) const MOST_EVENT: u64 = (1 << 40) - 1;

/// The greatest version.
const MOST_VERSION: u64 = 2_147_483_647;

/// How many clients, commands and turns a file may have.
pub(crate) const MOST_CLIENTS: usize = 64;

pub(crate) const MOST_COMMANDS: u64 = 2048;

pub(crate) const MOST_TURNS: usize = 65_536;

/// The number, where it is decimal without leading zeros and at most this one.
pub(crate) fn number(most: u64, word: &Word<'_>) -> Option<u64>
    ensures exact { result ≡ number most word.now }
    ensures small { IfSome result (λ n. n ≤ most) }
{
    if !is_decimal(word) {
        return None;
    }
    match word.text().parse::<u64>() {
        Ok(number) if number <= most => Some(number),
        _ => None,
    }
}

fn is_decimal(word: &Word<'_>) -> bool
    ensures { result ≡ is_decimal word.now }
{
    let digits = word.text().as_bytes();
    match digits {
        [] => false,
        [first, rest @ ..] => are_digits(digits) && (*first != b'0' || rest.is_empty()),
    }
}

fn are_digits(bytes: &[u8]) -> bool
    ensures { result ≡ all_ascii_digits bytes.now }
{
    let mut rest = bytes;
    'looking: while let [byte, others @ ..] = rest {
        if !byte.is_ascii_digit() {
            return false;
        }
        rest = others;
    }
    true
}

/// An expected version: -1, or a number.
pub(crate) fn version(word: &Word<'_>) -> Option<i32>
    ensures { result ≡ version word.now }
{
    if word.is("-1") {
        return Some(-1);
    }
    match number(MOST_VERSION, word) {
        Some(number) => Some(number as i32),
        None => None,
    }
}

/// The bytes whose base64 the word is.
pub(crate) fn decoded(alloc: Global, word: &Word<'_>) -> Result<Option<Bytes>, NoMemory>
    ensures { IfOk result (λ o. o ≡ decoded word.now) }
{
    match STANDARD.decode(alloc, word.text().as_bytes()) {
        Ok(bytes) => Ok(Some(Bytes::from_slice(alloc, bytes.as_slice())?)),
        Err(DecodeAllocError::DecodeError(_)) => Ok(None),
        Err(DecodeAllocError::OutOfMemory) => Err(NoMemory),
    }
}
