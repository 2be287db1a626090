use fk_base::{Bytes, Code, Names, Path, Paths};
use fk_tree::{Change, Kind, Parts, Replies, Stat};

/// What a client can ask for.
#[derive(Clone, Copy, Debug, PartialEq, Eq)]
pub enum Verb {
    Create,
    Set,
    Delete,
    Get,
    Stat,
    Ls,
    Close,
    Multi,
}

/// What a transaction did.
#[derive(Drop)]
pub enum Act {
    Create {
        /// The final path.
        path: Path,
        bytes: Bytes,
        seq: bool,
        eph: bool,
    },
    Set {
        path: Path,
        bytes: Bytes,
        version: i32,
    },
    Delete {
        path: Path,
        version: i32,
    },
    Close {
        evict: bool,
        /// The paths that were removed, in path order.
        gone: Paths,
    },
    /// The acts of a multi's parts, in order.
    Multi(Parts),
}

/// A transaction as its line shows it.
#[derive(Drop)]
pub struct Printed {
    pub tx: u64,
    pub moment: u64,
    pub session: u32,
    pub k: u64,
    pub act: Act,
}

/// What the reply to a command shows.
#[derive(Drop)]
pub enum Shown {
    Created {
        tx: u64,
        path: Path,
    },
    Version {
        tx: u64,
        version: u32,
    },
    /// A delete or a close.
    Done {
        tx: u64,
    },
    Multi {
        tx: u64,
        replies: Replies,
    },
    Got {
        at: u64,
        bytes: Bytes,
        stat: Stat,
    },
    Stated {
        at: u64,
        stat: Stat,
    },
    Listed {
        at: u64,
        names: Names,
    },
    /// A code that holds at a number of the tree; the place is a part's in its multi, else 0.
    Refused {
        code: Code,
        at: u64,
        place: u32,
    },
    /// A code that speaks of no number.
    Plain(Code),
    /// A lock that passed on before the request was settled.
    Lost {
        path: Path,
        /// When the request's own function was granted the lock.
        own: u64,
        /// The function that was granted it later.
        found: u64,
        moment: u64,
    },
}

/// A public line of an entry.
#[derive(Drop)]
pub enum Line {
    Tx(Printed),
    Reply {
        session: u32,
        command: u32,
        verb: Verb,
        shown: Shown,
    },
    /// A watch fired, and its client learns it.
    Notice {
        session: u32,
        tx: u64,
        kind: Kind,
        change: Change,
        path: Path,
    },
    /// A client learns that its session was evicted.
    Expired {
        session: u32,
        tx: u64,
    },
}
