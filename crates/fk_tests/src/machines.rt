//! The follower, the leader and the client: one step of each on new services.

ghost use Rattle.std.specs.Prelude.{IfOk};
ghost use Rattle.fk_wire.specs.Limits.{IsLimitedRequest};

use crate::services::push;
use fk_base::{Bytes, Path};
use fk_client::Client;
use fk_follow::Follower;
use fk_lead::Leader;
use fk_print::{Lines, Op};
use fk_queue::Post;
use fk_script::{Command, Commands};
use fk_store::ListTable;
use fk_tree::Request;
use fk_user::UserStore;
use fk_watch::WatchTable;
use fk_wire::Sent;
use std::alloc::Global;
use std::test::Fail;

/// A create that a client sent.
fn sent(alloc: Global) -> Result<Sent, Fail>
    ensures { IfOk result (λ s. IsLimitedRequest s.request) }
{
    Ok(Sent {
        request: Request::Create {
            path: Path::parse(alloc, "/x")?,
            bytes: Bytes::new(alloc),
            seq: false,
            eph: false,
        },
        seen: 0,
    })
}

/// The first operation of function 1, the follower of such a create, at moment 11, where locks pass
/// on after 10.
fn follows(alloc: Global) -> Result<Op, Fail> {
    let mut table = ListTable::new(alloc, 1)?;
    let mut post = Post::new(alloc, 1)?;
    let mut follower = Follower::start(alloc, 1, 1, 1, sent(alloc)?);
    Ok(follower.step(&mut table, &mut post, 11, 10)?)
}

#[test]
fn a_follower_asks_for_its_session(rt: HostRuntime) -> Result<(), Fail> {
    let op = follows(rt.alloc())?;
    assert!(rt; matches!(&op, Op::SessionNew { function: 1 }));
    Ok(())
}

/// The first operation of function 2, the leader of a push whose locks are not granted.
fn leads(alloc: Global) -> Result<Op, Fail> {
    let mut table = ListTable::new(alloc, 1)?;
    let mut post = Post::new(alloc, 1)?;
    let mut watches = WatchTable::new(alloc)?;
    let mut user = UserStore::new(alloc)?;
    let mut leader = Leader::start(alloc, 2, 1, push(alloc)?);
    Ok(leader.step(&mut table, &mut post, &mut watches, &mut user)?)
}

#[test]
fn a_leader_finds_no_lock(rt: HostRuntime) -> Result<(), Fail> {
    let op = leads(rt.alloc())?;
    assert!(rt;
        matches!(
            &op,
            Op::CommitLock {
                function: 2,
                tx: 1,
                holder: 0,
                moment: 0,
                ..
            }
        )
    );
    Ok(())
}

/// The first operation of the client of session 1, whose only command is a close.
fn closes(alloc: Global) -> Result<(Op, Lines), Fail> {
    let mut table = ListTable::new(alloc, 1)?;
    let mut post = Post::new(alloc, 1)?;
    let mut watches = WatchTable::new(alloc)?;
    let mut user = UserStore::new(alloc)?;
    let mut commands = Commands::new(alloc);
    commands.push(Command::Close)?;
    let mut client = Client::new(alloc, 1, commands);
    Ok(client.step(&mut table, &mut post, &mut watches, &mut user)?)
}

#[test]
fn a_client_sends_its_close(rt: HostRuntime) -> Result<(), Fail> {
    let (op, lines) = closes(rt.alloc())?;
    assert!(rt;
        matches!(
            &op,
            Op::Send {
                session: 1,
                command: 1,
                k: 1
            }
        )
    );
    assert!(rt; lines.as_slice().is_empty());
    Ok(())
}
