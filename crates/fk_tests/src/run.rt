//! The whole program over memory, and its history read back.

use fk_base::{MemSink, MemSource, Names, NoMemory, Text};
use fk_print::{History, render, summary};
use fk_read::read_back;
use fk_run::fk_run;
use std::alloc::Global;
use std::test::Fail;

/// The 21 entries of one create.
const ONE_CREATE: &str = "\
> clock 11\n\
. clock 11\n\
> client a\n\
. a send 1 1\n\
> deliver a\n\
. 1 follower a 1\n\
> step 1\n\
. 1 session new\n\
> step 1\n\
. 1 lock / ok\n\
> step 1\n\
. 1 lock /x ok\n\
> step 1\n\
. 1 push 1\n\
> step 1\n\
. 1 commit 1 ok\n\
> step 1\n\
. 1 ack ok\n\
> deliver leader\n\
. 2 leader 1\n\
> step 2\n\
. 2 commit 1 miss settled 1\n\
> step 2\n\
. 2 pending 1 yes\n\
> step 2\n\
. 2 sweep 1 ok 0\n\
> step 2\n\
. 2 put 1 / ok\n\
> step 2\n\
. 2 put 1 /x ok\n\
> step 2\n\
. 2 publish 1 ok\n\
+ 1 11 a 1 create - /x =hi\n\
> step 2\n\
. 2 reply a 1\n\
> step 2\n\
. 2 done 1 ok\n\
> step 2\n\
. 2 ack ok\n\
> client a\n\
. a take done 1 1\n\
> client a\n\
. a look 1 1 ok\n\
< a 1 create ok @1 /x\n\
";

const COUNTS: &str =
    "entries 21\ntransactions 1\nreplies 1\nerrors 0\nnotifications 0\nexpired 0\nlast 1\n";

/// The status of a run over memory in which these writes fail, or 255 where other bytes than
/// `wanted` were written.
fn status(alloc: Global, input: &str, failing: &[u64], wanted: &str) -> Result<u8, NoMemory> {
    let mut source = MemSource::new(alloc, input.as_bytes(), &[])?;
    let mut sink = MemSink::new(alloc, 4096, failing)?;
    let status = fk_run(alloc, &[], &mut source, &mut sink, &mut None);
    Ok(if sink.as_slice() == wanted.as_bytes() {
        status
    } else {
        255
    })
}

#[test]
fn runs_one_create(rt: HostRuntime) -> Result<(), Fail> {
    let alloc = rt.alloc();
    assert_eq!(rt;
        status(alloc, "client a\ncreate /x hi\n", &[], ONE_CREATE)?,
        0
    );
    Ok(())
}

#[test]
fn tells_why_it_refuses(rt: HostRuntime) -> Result<(), Fail> {
    let alloc = rt.alloc();
    assert_eq!(rt;
        status(alloc, "lock 10\nlock 10\n", &[], "bad 2 BadWords\n")?,
        65
    );
    Ok(())
}

/// The text of the first entries of one create.
fn first_entries(alloc: Global, count: u64) -> Result<String, NoMemory> {
    let mut text = String::new(alloc);
    let mut begun = 0u64;
    for line in ONE_CREATE.lines() {
        if line.starts_with("> ") {
            begun = begun.saturating_add(1);
        }
        if begun <= count {
            text.push_str(line)?;
            text.push('\n')?;
        }
    }
    Ok(text)
}

/// The status of one create whose write number `failing` fails, behind the entries that were
/// written before.
fn cut(alloc: Global, failing: u64) -> Result<u8, NoMemory> {
    let wanted = first_entries(alloc, failing.saturating_sub(1))?;
    status(
        alloc,
        "client a\ncreate /x hi\n",
        &[failing],
        wanted.as_str(),
    )
}

#[test]
fn a_failed_write_leaves_whole_entries(rt: HostRuntime) -> Result<(), Fail> {
    let alloc = rt.alloc();
    for failing in 1..22 {
        assert_eq!(rt; cut(alloc, failing)?, 74);
    }
    assert_eq!(rt; cut(alloc, 22)?, 0);
    assert_eq!(rt; status(alloc, "lock 10\nlock 10\n", &[1], "")?, 74);
    Ok(())
}

/// The names of one client.
fn one_client(alloc: Global) -> Result<Names, NoMemory> {
    let mut clients = Names::new(alloc);
    clients.push(Text::from_str(alloc, "a")?)?;
    Ok(clients)
}

/// The history of one client that a text says.
fn read(alloc: Global, text: &str) -> Result<History, Fail> {
    let mut clients = Names::new(alloc);
    clients.push(Text::from_str(alloc, "a")?)?;
    match read_back(alloc, &clients, text.as_bytes())? {
        Some(history) => Ok(history),
        None => Err(Fail::from("a history")),
    }
}

/// Whether a copy of a history has this text.
fn is_rendered(
    alloc: Global,
    clients: &Names,
    history: &History,
    text: &str,
) -> Result<bool, NoMemory> {
    let copy = history.copy()?;
    Ok(render(alloc, clients, &copy)?.as_slice() == text.as_bytes())
}

/// Whether a history has these counts.
fn is_summed(alloc: Global, history: &History, counts: &str) -> Result<bool, NoMemory> {
    Ok(summary(alloc, history)?.as_slice() == counts.as_bytes())
}

/// Whether a text is read as a history with that text and these counts.
fn is_read_back(alloc: Global, text: &str, counts: &str) -> Result<bool, Fail> {
    let clients = one_client(alloc)?;
    let history = read(alloc, text)?;
    Ok(is_rendered(alloc, &clients, &history, text)? && is_summed(alloc, &history, counts)?)
}

#[test]
fn reads_a_run_back(rt: HostRuntime) -> Result<(), Fail> {
    assert!(rt; is_read_back(rt.alloc(), ONE_CREATE, COUNTS)?);
    Ok(())
}
