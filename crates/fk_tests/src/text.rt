//! Public lines and deployments as they are printed.

use fk_base::{Bytes, Code, Names, NoMemory, Path, Paths, Text};
use fk_print::{Act, Entry, Event, Line, Lines, Op, Printed, Shown, Verb, render_entry};
use fk_script::{ScriptFault, Why, generate, print_script, read_script, read_unscheduled};
use fk_tree::{Change, Kind, PartReply, Replies, Stat};
use std::alloc::Global;
use std::test::Fail;

fn clients(alloc: Global) -> Result<Names, NoMemory> {
    let mut names = Names::new(alloc);
    for name in ["a", "c", "c1", "idle", "s", "w"] {
        names.push(Text::from_str(alloc, name)?)?;
    }
    Ok(names)
}

fn reply(session: u32, command: u32, verb: Verb, shown: Shown) -> Line {
    Line::Reply {
        session,
        command,
        verb,
        shown,
    }
}

/// What a get shows of a node that the transaction made at moment 11.
fn got(alloc: Global, tx: u64, bytes: &[u8], length: u32) -> Result<Shown, NoMemory> {
    Ok(Shown::Got {
        at: tx,
        bytes: Bytes::from_slice(alloc, bytes)?,
        stat: Stat {
            czxid: tx,
            mzxid: tx,
            pzxid: tx,
            ctime: 11,
            mtime: 11,
            version: 0,
            cversion: 0,
            aversion: 0,
            owner: 0,
            length,
            children: 0,
        },
    })
}

fn listed(alloc: Global) -> Result<Shown, NoMemory> {
    let mut names = Names::new(alloc);
    names.push(Text::from_str(alloc, "p2")?)?;
    names.push(Text::from_str(alloc, "p7")?)?;
    Ok(Shown::Listed { at: 3, names })
}

fn answered(alloc: Global) -> Result<Shown, NoMemory> {
    let mut replies = Replies::new(alloc);
    replies.push(PartReply::Deleted)?;
    Ok(Shown::Multi { tx: 4, replies })
}

fn closed(alloc: Global) -> Line {
    Line::Tx(Printed {
        tx: 10,
        moment: 384,
        session: 4,
        k: 4,
        act: Act::Close {
            evict: false,
            gone: Paths::new(alloc),
        },
    })
}

/// A refusal of a multi's first part, a command's own refusal, and a lost lock.
fn refusals(alloc: Global, lines: &mut Lines) -> Result<(), NoMemory> {
    let refused = Shown::Refused {
        code: Code::NoNode,
        at: 0,
        place: 1,
    };
    let lost = Shown::Lost {
        path: Path::root(alloc),
        own: 0,
        found: 2,
        moment: 11,
    };
    lines.push(reply(2, 1, Verb::Multi, refused))?;
    lines.push(reply(1, 1, Verb::Create, Shown::Plain(Code::BadArguments)))?;
    lines.push(reply(1, 1, Verb::Create, lost))
}

/// A close, replies, and what a client is told without having asked.
fn lines(alloc: Global) -> Result<Lines, NoMemory> {
    let mut lines = Lines::new(alloc);
    lines.push(closed(alloc))?;
    lines.push(reply(1, 2, Verb::Get, got(alloc, 1, b"hi", 2)?))?;
    lines.push(reply(1, 5, Verb::Get, got(alloc, 2, &[0, 1, 2], 3)?))?;
    lines.push(reply(3, 6, Verb::Ls, listed(alloc)?))?;
    lines.push(reply(6, 4, Verb::Multi, answered(alloc)?))?;
    refusals(alloc, &mut lines)?;
    lines.push(Line::Notice {
        session: 3,
        tx: 3,
        kind: Kind::Child,
        change: Change::Child,
        path: Path::root(alloc),
    })?;
    lines.push(Line::Expired { session: 5, tx: 2 })?;
    Ok(lines)
}

const LINES: &str = "> fail client w
. 2 put 1 / ok
+ 10 384 idle 4 close 0
< a 2 get ok @1 =hi 1 1 1 11 11 0 0 0 0 2 0
< a 5 get ok @2 ~AAEC 2 2 2 11 11 0 0 0 0 3 0
< c1 6 ls ok @3 2 p2 p7
< w 4 multi ok @4 1 -
< c 1 multi err -101 NONODE 1 @0
< a 1 create err -8 BADARGUMENTS
< a 1 create err LOCKLOST / 0 2 11
! c1 @3 child NodeChildrenChanged /
x s @2
";

/// An entry with those lines.
fn entry(alloc: Global) -> Result<Entry, NoMemory> {
    Ok(Entry {
        event: Event::FailClient(6),
        op: Op::PutOk {
            function: 2,
            tx: 1,
            path: Path::root(alloc),
        },
        lines: lines(alloc)?,
    })
}

/// Whether a copy of an entry has this text.
fn is_entry(alloc: Global, entry: &Entry, text: &str) -> Result<bool, NoMemory> {
    let copy = entry.copy()?;
    let clients = clients(alloc)?;
    Ok(render_entry(alloc, &clients, &copy)?.as_slice() == text.as_bytes())
}

#[test]
fn shows_public_lines(rt: HostRuntime) -> Result<(), Fail> {
    let entry = entry(rt.alloc())?;
    assert!(rt; is_entry(rt.alloc(), &entry, LINES)?);
    Ok(())
}

const GENERATED: &str =
    "lock 10\nbeat 30\nclient c1\ndelete /p6\nclient c2\ncreate /p3 1\nclient c3\nset /p3 1\nclient c4\ncreate -s /p3/q 1\nschedule\ndeliver c3\nstep 2\nstep 1\nclient c4\nclient c4\nclient c3\ndeliver c3\nclock 8\ndeliver leader\ndeliver leader\nstep 8\nstep 6\nstep 3\nclient c4\nclient c2\nclient c1\nstep 8\ndeliver c4\ndeliver leader\ndeliver c4\n";

/// A command of each form but a delete.
const WRITTEN: &str =
    "lock 1\nbeat 2\nclient a\n& create -s -e -b /x AAE=\nset -v 0 /x hi\n& multi create -e -b /x Ow== ; set /x ; delete -v 3 /y\nget -w /x\nstat /x\nls /x\nclose\nschedule\n";

/// Whether a copy of the deployment that a text says has that text as its printed form.
fn is_printed(alloc: Global, text: &str) -> Result<bool, Fail> {
    let deployment = read_script(alloc, text.as_bytes())?;
    let copy = deployment.copy()?;
    Ok(print_script(alloc, &copy)?.as_slice() == text.as_bytes())
}

/// Whether the deployment of number 1 with one command for each client has this text.
fn is_generated(alloc: Global, text: &str) -> Result<bool, NoMemory> {
    let deployment = generate(alloc, 1, 1)?;
    Ok(print_script(alloc, &deployment)?.as_slice() == text.as_bytes())
}

#[test]
fn prints_deployments(rt: HostRuntime) -> Result<(), Fail> {
    assert!(rt; is_generated(rt.alloc(), GENERATED)?);
    assert!(rt; is_printed(rt.alloc(), GENERATED)?);
    assert!(rt; is_printed(rt.alloc(), WRITTEN)?);
    Ok(())
}

/// Whether these bytes are read, where they may have no schedule, to the deployment that they
/// print.
fn is_unscheduled(alloc: Global, text: &str) -> Result<bool, Fail> {
    let deployment = read_unscheduled(alloc, text.as_bytes())?;
    Ok(print_script(alloc, &deployment)?.as_slice() == text.as_bytes())
}

#[test]
fn reads_deployments_without_schedule(rt: HostRuntime) -> Result<(), Fail> {
    assert!(rt; is_unscheduled(rt.alloc(), "lock 1\nbeat 2\nclient a\ncreate /x hi\n")?);
    let refused = read_unscheduled(rt.alloc(), b"client a\nschedule\n").err();
    assert!(rt; refused == Some(ScriptFault::Bad(2, Why::Schedule)));
    Ok(())
}
