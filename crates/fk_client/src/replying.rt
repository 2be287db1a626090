//! The replies of a client.

ghost use Rattle.std.specs.Prelude.{◌≡◌, ◌+◌, ◌<◌, ◌++◌, [], Some, None, MatchOption, option_copied, option_map, IfOk, OnOk};
ghost use Rattle.fk_print.specs.declared.line.Line.TheVariants as line;
ghost use Rattle.fk_tree.specs.Apply.{part_replies, part_reply_of};
ghost use Rattle.fk_spec.specs.Plan.{ask_of, asks_of, want_of};
ghost use Rattle.fk_client.specs.Unanswered.{KeepsFront, LeavesReady, StaysUnready};
ghost use Rattle.fk_spec.specs.Client.{ready_first, without_ready};
ghost use Rattle.fk_spec.specs.Replies.{reply_line, reply_lines, shown_reply, verb_asked};
ghost use Rattle.fk_spec.specs.Shown.{seen_lines};
ghost use Rattle.fk_client.specs.Known.{by_outcome, is_first_ready};
ghost use Rattle.fk_client.specs.Shown.{reply_told, shown_commit, shown_outcome, wording_of};

use crate::lists::command_at;
use crate::printing::print;
use crate::sent_list::SentList;
use crate::unanswered::{Outcome, Unanswered};
use crate::want::{Want, verb_of, want_of};
use fk_base::{Code, NoMemory, Path};
use fk_print::{Line, Lines, Shown, Verb};
use fk_script::Command;
use fk_tree::{Made, Mades, Node, Part, PartReply, Query, Replies, Request};
use std::alloc::Global;

fn part_reply(part: &Part, made: &Made) -> Result<PartReply, NoMemory>
    ensures { IfOk result (λ r. r ≡ part_reply_of part.now made.now) }
{
    match part {
        Part::Create { .. } => Ok(PartReply::Created(made.name.copy()?)),
        Part::Set { .. } => Ok(PartReply::Version(made.version)),
        Part::Delete { .. } => Ok(PartReply::Deleted),
    }
}

// adds the replies of these parts
fn push_replies(replies: &mut Replies, parts: &[Part], made: &[Made]) -> Result<(), NoMemory>
    ensures { OnOk result (replies.new ≡ replies.old ++ part_replies parts.now made.now) }
{
    match parts {
        [] => Ok(()),
        [part, parts @ ..] => match made {
            [] => Ok(()),
            [first, made @ ..] => {
                replies.push(part_reply(part, first)?)?;
                push_replies(replies, parts, made)
            }
        },
    }
}

// what a committed request is answered
fn shown_reply(
    alloc: Global,
    tx: u64,
    name: &Path,
    version: u32,
    made: &Mades,
    request: &Request,
) -> Result<Shown, NoMemory>
    ensures { IfOk result (λ s. s
        ≡ shown_reply tx (reply_told name.now version made.now request.now)) }
{
    match request {
        Request::Create { .. } => Ok(Shown::Created {
            tx,
            path: name.copy()?,
        }),
        Request::Set { .. } => Ok(Shown::Version { tx, version }),
        Request::Delete { .. } => Ok(Shown::Done { tx }),
        Request::Close { .. } => Ok(Shown::Done { tx }),
        Request::Multi(parts) => {
            let mut replies = Replies::new(alloc);
            push_replies(&mut replies, parts.as_slice(), made.as_slice())?;
            Ok(Shown::Multi { tx, replies })
        }
    }
}

fn shown_commit(
    alloc: Global,
    tx: u64,
    name: &Path,
    version: u32,
    made: &Mades,
    command: Option<&Command>,
) -> Result<Shown, NoMemory>
    ensures { let ask = option_map ask_of (option_copied command.entry) in
        IfOk result (λ s. s ≡ shown_commit tx name.now version made.now ask) }
{
    let Some(command) = command else {
        return Ok(Shown::Done { tx });
    };
    match want_of(alloc, command)? {
        Want::Unfit => Ok(Shown::Done { tx }),
        Want::Writes(request) => shown_reply(alloc, tx, name, version, made, &request),
        Want::Reads(..) => Ok(Shown::Done { tx }),
    }
}

// what the reply to a command shows
fn shown_outcome(
    alloc: Global,
    command: Option<&Command>,
    outcome: &Outcome,
) -> Result<Shown, NoMemory>
    ensures { let ask = option_map ask_of (option_copied command.entry) in
        IfOk result (λ s. s ≡ shown_outcome ask outcome.now) }
{
    match outcome {
        Outcome::Open => Ok(Shown::Plain(Code::SystemError)),
        Outcome::Done {
            tx,
            name,
            version,
            made,
        } => shown_commit(alloc, *tx, name, *version, made, command),
        Outcome::Refused { code, at, place } => Ok(Shown::Refused {
            code: *code,
            at: *at,
            place: *place,
        }),
        Outcome::Lost {
            path,
            own,
            found,
            moment,
        } => Ok(Shown::Lost {
            path: path.copy()?,
            own: *own,
            found: *found,
            moment: *moment,
        }),
        Outcome::Plain(code) => Ok(Shown::Plain(*code)),
        Outcome::Expired { at } => Ok(Shown::Refused {
            code: Code::SessionExpired,
            at: *at,
            place: 0,
        }),
    }
}

fn verb_asked(command: Option<&Command>) -> Verb
    ensures { result ≡ verb_asked (option_map ask_of (option_copied command.entry)) }
{
    match command {
        None => Verb::Create,
        Some(command) => verb_of(command),
    }
}

/// The reply to a command.
pub fn line_for(session: u32, command: u32, asked: Option<&Command>, shown: Shown) -> Line
    ensures { let verb = verb_asked (option_map ask_of (option_copied asked.entry)) in
        result ≡ line.Reply session command verb shown }
{
    Line::Reply {
        session,
        command,
        verb: verb_asked(asked),
        shown,
    }
}

/// The reply of a client to one of its commands.
pub fn reply_line(
    alloc: Global,
    session: u32,
    commands: &[Command],
    unanswered: &Unanswered,
) -> Result<Line, NoMemory>
    ensures { let wording = wording_of session (asks_of commands.now) in
        IfOk result (λ l. l ≡ reply_line wording unanswered.now) }
{
    let command = command_at(commands, unanswered.command);
    let shown = shown_outcome(alloc, command, &unanswered.outcome)?;
    Ok(line_for(session, unanswered.command, command, shown))
}

#[tactic(auto, using(crate::proofs::Waiting::first_ready))]
fn is_first_ready(sent: &SentList) -> bool
    ensures { result ≡ is_first_ready sent.now }
{
    match sent.first() {
        None => false,
        Some(first) => first.outcome.is_ready(),
    }
}

// takes out the first, where it is ready
#[tactic(auto, using(crate::proofs::Ready::leaves_ready, crate::proofs::Ready::stays_unready))]
fn pop_ready(sent: &mut SentList) -> Option<Unanswered>
    ensures ready { MatchOption result (StaysUnready sent.old sent.new)
        (λ s. LeavesReady s sent.old sent.new) }
    ensures front { KeepsFront sent.old sent.new }
{
    if is_first_ready(sent) {
        sent.pop()
    } else {
        None
    }
}

/// Prints the replies that are ready, which leave the list.
pub fn flush(
    alloc: Global,
    session: u32,
    commands: &[Command],
    sent: &mut SentList,
    seen: &mut u64,
    lines: &mut Lines,
) -> Result<(), NoMemory>
    ensures sent { OnOk result (sent.new ≡ without_ready by_outcome sent.old) }
    ensures front { KeepsFront sent.old sent.new }
    ensures lines { let wording = wording_of session (asks_of commands.now) in
        let replies = reply_lines wording (ready_first by_outcome sent.old) in
        OnOk result (lines.new ≡ lines.old ++ replies) }
    ensures seen { let wording = wording_of session (asks_of commands.now) in
        let replies = reply_lines wording (ready_first by_outcome sent.old) in
        OnOk result (seen.new ≡ seen_lines session replies seen.old) }
{
    'flushing: while let Some(first) = pop_ready(sent) {
        let line = reply_line(alloc, session, commands, &first)?;
        print(session, seen, lines, line)?;
    }
    Ok(())
}
