ghost use Rattle.std.specs.Prelude.{◌≡◌, false, IfOk, IfNone, MatchResult};
ghost use Rattle.fk_script.specs.Lines.{words};
ghost use Rattle.fk_script.specs.SoFar.{after, kind_of};
ghost use Rattle.fk_script.specs.Reading.{Means, Tells, deployment_of};
ghost use Rattle.fk_script.specs.Unscheduled.{is_schedule_line, offence_where, reading_where, reason_where};
ghost use Rattle.fk_script.specs.Unscheduled.{unscheduled_of};

use crate::cut::{first_line, text_of};
use crate::deployment::Deployment;
use crate::fault::ScriptFault;
use crate::progress::Progress;
use crate::why::Why;
use crate::words::{Word, first, words_of};
use fk_base::NoMemory;
use std::alloc::Global;

/// Reads a deployment file: what it means, or its first line that offends with the first reason.
pub fn read_script(alloc: Global, bytes: &[u8]) -> Result<Deployment, ScriptFault>
    ensures { MatchResult result (λ d. deployment_of bytes.now ≡ Means d) (Tells (deployment_of bytes.now)) }
{
    read_lines(alloc, bytes, true)
}

/// Reads a deployment file that may have no schedule, as `read_script` does. A line that would
/// begin a schedule offends, if by nothing else: its reason is `Schedule`.
#[tactic(auto, using(crate::proofs::Unscheduling::means_the_same, crate::proofs::Unscheduling::has_no_schedule))]
pub fn read_unscheduled(alloc: Global, bytes: &[u8]) -> Result<Deployment, ScriptFault>
    ensures exact { MatchResult result (λ d. unscheduled_of bytes.now ≡ Means d)
        (Tells (unscheduled_of bytes.now)) }
    ensures same { IfOk result (λ d. deployment_of bytes.now ≡ Means d) }
    ensures unscheduled { IfOk result (λ d. d.scheduled ≡ false) }
{
    read_lines(alloc, bytes, false)
}

/// Reads a deployment file where a schedule may stand or not.
fn read_lines(alloc: Global, bytes: &[u8], schedule: bool) -> Result<Deployment, ScriptFault>
    ensures { MatchResult result (λ d. reading_where schedule bytes.now ≡ Means d)
        (Tells (reading_where schedule bytes.now)) }
{
    let mut progress = Progress::new(alloc);
    let mut number = 0;
    let mut rest = bytes;
    'reading: while let Some(cut) = first_line(rest) {
        number += 1;
        rest = cut.rest;
        if let Some(why) = take_line(alloc, &mut progress, cut.line, cut.ended, schedule)? {
            return Err(ScriptFault::Bad(number, why));
        }
    }
    Ok(progress.deployment()?)
}

/// Reads one line more, where a schedule may stand or not.
fn take_line(
    alloc: Global,
    progress: &mut Progress,
    line: &[u8],
    ended: bool,
    schedule: bool,
) -> Result<Option<Why>, NoMemory>
    ensures exact { IfOk result (λ o. o ≡ offence_where schedule progress.old
        (record { text = line.now; ended = ended })) }
    ensures none { IfOk result (λ o. IfNone o (progress.new ≡ after (kind_of progress.old.place (words line.now)) (words line.now) progress.old)) }
{
    let Some(text) = text_of(line) else {
        return Ok(Some(Why::NotUtf8));
    };
    if !ended {
        return Ok(Some(Why::Unended));
    }
    let words = words_of(alloc, text)?;
    let offence = progress.read_line(alloc, words.as_slice())?;
    Ok(offence_there(offence, words.as_slice(), schedule))
}

/// This offence of a line; or, where there is none and no schedule may stand, that it begins one.
fn offence_there(offence: Option<Why>, words: &[Word<'_>], schedule: bool) -> Option<Why>
    ensures { result ≡ reason_where schedule words.now offence }
{
    if offence.is_some() || schedule || !is_schedule_line(words) {
        offence
    } else {
        Some(Why::Schedule)
    }
}

/// Whether a line's only word is `schedule`.
fn is_schedule_line(words: &[Word<'_>]) -> bool
    ensures { result ≡ is_schedule_line words.now }
{
    words.len() == 1 && first(words).is("schedule")
}
