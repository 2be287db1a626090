//! The services, each by itself.

ghost use Rattle.std.specs.Prelude.{◌≡◌, true, is_some, IfOk, IsTrue};

use fk_base::{Bytes, NoMemory, Path, Paths, Text};
use fk_index::IndexTable;
use fk_queue::{Ack, Lane, Post, Posted};
use fk_region::Region;
use fk_settle::{Verdict, commit, refuse_writes, settle_conds};
use fk_store::{ListTable, Outcome, Owned, Seen, Table, Taken};
use fk_tree::{Change, Edit, Edits, Kind, Mades, Request, Touch, Touches, What};
use fk_user::{IdSet, Publish, PutRecord, UserStore, own_edits};
use fk_watch::{Register, Sweep, WatchTable};
use fk_wire::Pushed;
use std::alloc::Global;
use std::test::Fail;

/// The push by function 1 of a create of `/x`, which is request 1 of session 1.
pub fn push(alloc: Global) -> Result<Pushed, Fail>
    ensures { IfOk result (λ p. (p.session ≡ 1) × (p.k ≡ 1)) }
{
    let path = Path::parse(alloc, "/x")?;
    let mut paths = Paths::new(alloc);
    paths.push(Path::root(alloc))?;
    paths.push(path.copy()?)?;
    Ok(Pushed {
        session: 1,
        k: 1,
        inv: 1,
        moment: 11,
        request: Request::Create {
            path: path.copy()?,
            bytes: Bytes::new(alloc),
            seq: false,
            eph: true,
        },
        name: path,
        version: 0,
        gone: Paths::new(alloc),
        made: Mades::new(alloc),
        paths,
    })
}

/// Whether the locks of a push are granted to its function.
fn grants<T: Table>(table: &mut T, push: &Pushed) -> bool {
    for path in push.paths.as_slice() {
        match table.take(path, push.inv, push.moment, 10) {
            Taken::Granted(_) => {}
            Taken::Busy(_) => return false,
            Taken::Failed => return false,
            Taken::NoMemory => return false,
        }
    }
    true
}

/// Whether a session is there.
fn has_session<T: Table>(table: &mut T, session: u32) -> bool
    ensures { IsTrue result → is_some ((T.meaning table.new).sessions session) ≡ true }
{
    match table.session(session) {
        Seen::Here(_) => true,
        Seen::Missing => false,
        Seen::Failed => false,
    }
}

/// Whether a push is committed under number 7.
fn commits<T: Table>(alloc: Global, table: &mut T, push: &Pushed) -> Result<bool, NoMemory> {
    if !grants(table, push) || push.k == 0 || !has_session(table, push.session) {
        return Ok(false);
    }
    match commit(alloc, table, 7, push)? {
        Verdict::Done => Ok(true),
        Verdict::Settled(_) | Verdict::Passed { .. } | Verdict::Failed => Ok(false),
    }
}

/// Whether session 1 has request 1 settled as transaction 7, which is pending.
fn is_settled<T: Table>(table: &mut T) -> Result<bool, NoMemory> {
    match table.session(1) {
        Seen::Here(kept) => {
            let kept = kept.copy()?;
            Ok(kept.settled == 1 && kept.pending.as_slice() == [7].as_slice())
        }
        Seen::Missing => Ok(false),
        Seen::Failed => Ok(false),
    }
}

/// Whether a path has a node of session 1.
fn is_made<T: Table>(table: &mut T, path: &Path) -> Result<bool, NoMemory> {
    match table.node(path) {
        Seen::Here(kept) => {
            let kept = kept.copy()?;
            Ok(kept.last == 7 && kept.node.is_some_and(|node| node.owner == 1))
        }
        Seen::Missing => Ok(false),
        Seen::Failed => Ok(false),
    }
}

/// How many nodes session 1 owns.
fn owned<T: Table>(table: &mut T) -> Result<usize, NoMemory> {
    if !has_session(table, 1) {
        return Ok(0);
    }
    match table.owned(1).copy()? {
        Owned::List(paths) => Ok(paths.len()),
        Owned::Failed => Ok(0),
        Owned::NoMemory => Err(NoMemory),
    }
}

/// Whether a table keeps what is committed.
fn keeps<T: Table>(table: &mut T, push: &Pushed) -> Result<bool, NoMemory> {
    Ok(is_settled(table)? && is_made(table, &push.name)? && owned(table)? == 1)
}

#[test]
fn commits_a_push(rt: HostRuntime) -> Result<(), Fail> {
    let push = push(rt.alloc())?;
    let mut table = ListTable::new(rt.alloc(), 1)?;
    assert!(rt; commits(rt.alloc(), &mut table, &push)? && keeps(&mut table, &push)?);
    Ok(())
}

#[test]
fn commits_a_push_by_an_index(rt: HostRuntime) -> Result<(), Fail> {
    let push = push(rt.alloc())?;
    let mut table = IndexTable::new(rt.alloc(), 1)?;
    assert!(rt; commits(rt.alloc(), &mut table, &push)? && keeps(&mut table, &push)?);
    Ok(())
}

/// How many conditions and writes settle a request that is lost, where it holds the root's lock.
fn refuses(alloc: Global) -> Result<(usize, usize), NoMemory> {
    let root = [Path::root(alloc)];
    let lost = Outcome::Lost {
        path: Path::root(alloc),
        own: 0,
        found: 2,
        moment: 11,
    };
    let conds = settle_conds(alloc, 1, 1, 1, &root)?;
    let writes = refuse_writes(alloc, 1, 1, lost, &root)?;
    'copying: for cond in &conds {
        cond.copy()?;
    }
    'copying_writes: for write in &writes {
        write.copy()?;
    }
    Ok((conds.len(), writes.len()))
}

#[test]
fn copies_conditions_and_writes(rt: HostRuntime) -> Result<(), Fail> {
    assert_eq!(rt; refuses(rt.alloc())?, (2, 2));
    Ok(())
}

/// A name more among the children of the root.
fn edits(alloc: Global) -> Result<Edits, NoMemory> {
    let mut edits = Edits::new(alloc);
    edits.push(Edit {
        path: Path::root(alloc),
        what: What::AddName(Text::from_str(alloc, "x")?),
    })?;
    Ok(edits)
}

fn put(alloc: Global, store: &mut UserStore) -> Result<PutRecord, NoMemory> {
    let root = Path::root(alloc);
    let own = own_edits(alloc, edits(alloc)?.as_slice(), &root)?;
    Ok(store.put(&root, 1, 11, &own))
}

/// An epoch of two watches.
fn epoch(alloc: Global) -> Result<IdSet, NoMemory> {
    let mut epoch = IdSet::new(alloc);
    epoch.insert(5)?;
    epoch.insert(3)?;
    epoch.copy()
}

#[test]
fn puts_and_publishes(rt: HostRuntime) -> Result<(), Fail> {
    let epoch = epoch(rt.alloc())?;
    let mut store = UserStore::new(rt.alloc())?;
    let put = put(rt.alloc(), &mut store)?;
    let published = store.publish(1, &epoch);
    assert_eq!(rt; put, PutRecord::Done);
    assert_eq!(rt; published, Publish::Done);
    Ok(())
}

#[test]
fn gives_a_message_its_number(rt: HostRuntime) -> Result<(), Fail> {
    let mut post = Post::new(rt.alloc(), 1)?;
    assert_eq!(rt; post.push(Lane::Leader, b"one"), Posted::At(1));
    Ok(())
}

#[test]
fn keeps_a_message_in_blocks(rt: HostRuntime) -> Result<(), Fail> {
    let mut post = Post::new(rt.alloc(), 1)?;
    assert_eq!(rt; post.push(Lane::Inbox(1), &[7; 300]), Posted::At(1));
    assert_eq!(rt; post.used(), 2);
    assert_eq!(rt; post.ack(Lane::Inbox(1), 1), Ack::Acked);
    assert_eq!(rt; post.used(), 0);
    Ok(())
}

/// How many blocks are in use and how many there are: with bytes kept, without them, and after a
/// reservation that has to be refused; and whether the bytes came back and the refusal came.
fn blocks_of_a_region(alloc: Global) -> Result<([usize; 6], bool), NoMemory> {
    let mut region = Region::new(alloc);
    region.reserve(3)?;
    let ticket = region.put(&[7; 600]);
    let (used, total) = (region.used(), region.total());
    let mut copy = [0u8; 600];
    region.copy_out(&ticket, &mut copy);
    let whole = region.len(&ticket) == 600 && copy == [7; 600];
    region.give_back(ticket);
    let (left, all) = (region.used(), region.total());
    let refused = region.reserve(usize::MAX).is_err();
    let counts = [used, total, left, all, region.used(), region.total()];
    Ok((counts, whole && refused))
}

#[test]
fn a_region_keeps_its_blocks(rt: HostRuntime) -> Result<(), Fail> {
    let (counts, fine) = blocks_of_a_region(rt.alloc())?;
    assert!(rt; counts == [3, 3, 0, 3, 0, 3] && fine);
    Ok(())
}

/// A change among the children of the root.
fn touches(alloc: Global) -> Result<Touches, NoMemory> {
    let mut touches = Touches::new(alloc);
    touches.push(Touch {
        path: Path::root(alloc),
        change: Change::Child,
    })?;
    Ok(touches)
}

/// How many watches a sweep fires where one is set.
fn fires(alloc: Global) -> Result<usize, NoMemory> {
    let mut table = WatchTable::new(alloc)?;
    if table.register(1, &Path::root(alloc), Kind::Child, 0) != Register::Done(1) {
        return Ok(0);
    }
    match table.sweep(1, &touches(alloc)?).copy()? {
        Sweep::Fired { fired, epoch } => Ok(fired.as_slice().len().min(epoch.len())),
        Sweep::Already { .. } => Ok(0),
        Sweep::Failed => Ok(0),
        Sweep::NoMemory => Err(NoMemory),
    }
}

#[test]
fn fires_a_watch(rt: HostRuntime) -> Result<(), Fail> {
    assert_eq!(rt; fires(rt.alloc())?, 1);
    Ok(())
}
