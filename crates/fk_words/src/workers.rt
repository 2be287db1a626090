ghost use Rattle.std.specs.Prelude.{◌≡◌, ◌≤◌, IfSome, codes, map, option_map, string_bytes};
ghost use Rattle.fk_words.specs.Words.{behind};
ghost use Rattle.fk_words.specs.Workers.{IsCrew, count_in, count_of, worker_count};

use crate::words::number_of;

/// How many workers there are where no word says it.
const DEFAULT: u32 = 4;

/// How many workers the words ask for, or none where they are not accepted: `--workers N` or
/// `--workers=N`, where N is 1 to 16.
pub fn read_workers(words: &[String]) -> Option<u32>
    ensures asked { result ≡ worker_count (map string_bytes words.now) }
    ensures few { IfSome result IsCrew }
{
    match words {
        [] => Some(DEFAULT),
        [word] => count_in(word.as_str()),
        [option, number] if option.as_str() == "--workers" => count_of(number.as_str()),
        _ => None,
    }
}

/// The number of workers that one word asks for.
fn count_in(word: &str) -> Option<u32>
    ensures asked { result ≡ count_in word.now }
    ensures few { IfSome result IsCrew }
{
    match number_in(word) {
        Some(number) => count_of(number),
        None => None,
    }
}

/// What stands behind `--workers=`.
#[tactic(auto, using(crate::proofs::Behind::stripped))]
fn number_in<'a>(word: &'a str) -> Option<&'a str>
    ensures { option_map (λ s. s.now) result ≡ behind (codes "--workers=") word.now }
{
    word.strip_prefix("--workers=")
}

/// The number of workers that one or two digits write.
fn count_of(number: &str) -> Option<u32>
    ensures asked { result ≡ count_of number.now }
    ensures few { IfSome result IsCrew }
{
    match number_of(number, 2) {
        Some(count) if 1 <= count && count <= 16 => Some(count as u32),
        _ => None,
    }
}
