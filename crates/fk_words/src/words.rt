ghost use Rattle.std.specs.Prelude.{◌≡◌, ◌≢◌, ◌≤◌, [], IfOk, IfSome, IfNone, codes, map, option_map, string_bytes};
ghost use Rattle.std.specs.List.{list_any};
ghost use Rattle.std.specs.Str.{all_ascii_digits, bytes_eq};
ghost use Rattle.clap.specs.Words.{app_of, fault_of, found_of, matches_of, rows_of};
ghost use Rattle.fk_words.specs.Line.{app};
ghost use Rattle.fk_words.specs.Words.{IsSized, load_of, load_with, number_of, words_meaning};

use clap::error::ErrorKind;
use clap::{Arg, ArgAction, ArgMatches, Command};
use fk_base::NoMemory;
use std::alloc::{AllocError, Global};

/// A deployment that is made from a number, with so many commands for each of its clients.
#[derive(Clone, Copy, Debug)]
pub struct Load {
    pub number: u64,
    pub size: u64,
}

/// What the words ask for: a deployment that is made, else the one that is read; and the summary of
/// its history in the place of the history.
#[derive(Clone, Copy, Debug)]
pub struct Asked {
    pub load: Option<Load>,
    pub summary: bool,
}

/// What the words ask for, or none where they are not accepted.
pub fn read_words(alloc: Global, words: &[String]) -> Result<Option<Asked>, NoMemory>
    ensures asked { IfOk result (λ asked. asked ≡ words_meaning (map string_bytes words.now)) }
    ensures sized { IfOk result (λ asked. IfSome asked (λ a. IfSome a.load IsSized)) }
{
    if has_separator(words) {
        return Ok(None);
    }
    match matches_in(alloc, words)? {
        None => Ok(None),
        Some(matches) => Ok(meaning(
            matches.get_flag("summary"),
            matches.get_str("gen"),
            matches.get_str("size"),
        )),
    }
}

/// Whether a word is `--`, at which `clap` would end its options.
fn has_separator(words: &[String]) -> bool
    ensures { result ≡ list_any (λ word. bytes_eq (string_bytes word) (codes "--")) words.now }
{
    words.iter().any(|word| word.as_str() == "--")
}

/// What `clap` finds in the words, or none where it finds a fault.
fn matches_in<'a>(alloc: Global, words: &'a [String]) -> Result<Option<ArgMatches<'a>>, NoMemory>
    ensures fits { IfOk result (λ o. IfSome o (λ m.
        fault_of app (map string_bytes words.entry.now) ≡ [])) }
    ensures rows { IfOk result (λ o. IfSome o (λ m.
        rows_of (found_of m) ≡ matches_of app (map string_bytes words.entry.now))) }
    ensures none { IfOk result (λ o. IfNone o
        (fault_of app (map string_bytes words.entry.now) ≢ [])) }
{
    match command(alloc)?.try_get_matches_from(words) {
        Ok(matches) => Ok(Some(matches)),
        Err(error) => {
            if error.kind() == ErrorKind::OutOfMemory {
                Err(NoMemory)
            } else {
                Ok(None)
            }
        }
    }
}

/// The command, which takes `--summary`, `--gen` and `--size`, and no `--help`.
fn command<'a>(alloc: Global) -> Result<Command<'a>, AllocError>
    ensures { IfOk result (λ c. app_of c ≡ app) }
{
    let summary = Arg::new(alloc, "summary")
        .long("summary")
        .action(ArgAction::SetTrue);
    let number = Arg::new(alloc, "gen").long("gen");
    let size = Arg::new(alloc, "size").long("size");
    Command::new(alloc, "fkrun")
        .no_binary_name(true)
        .disable_help_flag(true)
        .arg(summary)?
        .arg(number)?
        .arg(size)
}

/// What is asked for with these values; both stand or neither.
fn meaning(summary: bool, number: Option<&str>, size: Option<&str>) -> Option<Asked>
    ensures meaning { result ≡ load_of summary (option_map (λ s. s.now) number.entry)
        (option_map (λ s. s.now) size.entry) }
    ensures sized { IfSome result (λ a. IfSome a.load IsSized) }
{
    match (number, size) {
        (None, None) => Some(Asked {
            load: None,
            summary,
        }),
        (Some(number), Some(size)) => {
            load_with(summary, number_of(number, 9), number_of(size, 3))
        }
        _ => None,
    }
}

fn load_with(summary: bool, number: Option<u64>, size: Option<u64>) -> Option<Asked>
    ensures asked { result ≡ load_with summary number size }
    ensures sized { IfSome result (λ a. IfSome a.load IsSized) }
{
    match (number, size) {
        (Some(number), Some(size)) if 1 <= size && size <= 500 => Some(Asked {
            load: Some(Load { number, size }),
            summary,
        }),
        _ => None,
    }
}

/// The number that one to `most` decimal digits write.
pub(crate) fn number_of(word: &str, most: usize) -> Option<u64>
    requires { most ≤ 9 }
    ensures { result ≡ number_of most word.now }
{
    if !are_digits(word.as_bytes()) || word.is_empty() || most < word.len() {
        return None;
    }
    match word.parse::<u64>() {
        Ok(number) => Some(number),
        Err(_) => None,
    }
}

fn are_digits(bytes: &[u8]) -> bool
    ensures { result ≡ all_ascii_digits bytes.now }
{
    let mut rest = bytes;
    'looking: while let [byte, others @ ..] = rest {
        if !byte.is_ascii_digit() {
            return false;
        }
        rest = others;
    }
    true
}
