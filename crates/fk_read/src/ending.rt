ghost use Rattle.std.specs.Prelude.{IfOk, ◌≡◌};
ghost use Rattle.fk_base.specs.Limits.{IsNumber, IsSmall};
ghost use Rattle.fk_read.specs.EndingFits.{IsEnding};
ghost use Rattle.fk_read.specs.ReadEnding.{ending_of, miss_of, spot_by, take_spot};
ghost use Rattle.fk_read.specs.Reads.{Reads, Takes};

use crate::piece::{at, small};
use crate::unread::Unread;
use crate::words::{Cut, is};
use fk_base::Path;

/// How an operation that has conditions ended.
#[derive(Drop)]
pub(crate) enum Ending {
    Done,
    Settled(u64),
    Lock {
        path: Path,
        holder: u64,
        moment: u64,
    },
}

/// Reads `ok`, or a miss.
pub(crate) fn read_ending(words: &mut Cut) -> Result<Ending, Unread>
    ensures reads { Reads result (ending_of words.old) }
    ensures fits { IfOk result IsEnding }
{
    let word = words.word()?;
    if is(word, "ok") {
        return Ok(Ending::Done);
    }
    read_miss(words)
}

fn read_miss(words: &mut Cut) -> Result<Ending, Unread>
    ensures reads { Reads result (miss_of words.old) }
    ensures fits { IfOk result IsEnding }
{
    let word = words.word()?;
    if is(word, "settled") {
        let settled = words.number()?;
        return Ok(Ending::Settled(settled));
    }
    let path = words.path()?;
    let holder = words.number()?;
    let moment = words.number()?;
    Ok(Ending::Lock {
        path,
        holder,
        moment,
    })
}

/// Reads a part's place, 0 where none is said, and a number behind `@`.
pub(crate) fn read_spot(words: &mut Cut) -> Result<(u32, u64), Unread>
    ensures reads { Takes result words.new (take_spot words.old) }
    ensures fits { IfOk result (λ spot. IsSmall spot.0 × IsNumber spot.1) }
{
    let word = words.word()?;
    read_spot_at(word, words)
}

/// The same, where the first word was taken.
pub(crate) fn read_spot_at(word: &[u8], words: &mut Cut) -> Result<(u32, u64), Unread>
    ensures reads { Takes result words.new (spot_by word.now words.old) }
    ensures fits { IfOk result (λ spot. IsSmall spot.0 × IsNumber spot.1) }
{
    if let Some(at) = at(word) {
        return Ok((0, at));
    }
    let Some(place) = small(word) else {
        return Err(Unread::Malformed);
    };
    let at = words.at()?;
    Ok((place, at))
}
