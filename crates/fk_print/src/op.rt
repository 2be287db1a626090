use fk_base::{Code, Path};

/// The first word of a function's operation.
#[derive(Clone, Copy, Debug, PartialEq, Eq)]
pub enum Word {
    Session,
    Owned,
    Lock,
    Push,
    Commit,
    Refuse,
    Lost,
    Reply,
    Ack,
    Pending,
    Drop,
    Sweep,
    Put,
    Publish,
    Notify,
    Done,
    Tell,
    Told,
    Probe,
    Ping,
    Note,
    Evict,
}

/// The one operation of an event, with its answer. A `function` is a function's number, a `session`
/// a client's, a `command` a command's place among its client's, a `k` a message's place in its
/// session's lane and a `tx` a push's place in the leader lane, all from 1.
#[derive(Drop)]
pub enum Op {
    /// Nothing was there to do.
    Idle,
    Clock {
        moment: u64,
    },

    // A function starts, or ends without an operation.
    Follower {
        function: u64,
        session: u32,
        k: u64,
    },
    Leader {
        function: u64,
        tx: u64,
    },
    Teller {
        function: u64,
        note: u64,
    },
    Beat {
        function: u64,
        session: u32,
    },
    Crash {
        function: u64,
    },
    Fault {
        function: u64,
        word: Word,
    },

    // A follower.
    SessionNew {
        function: u64,
    },
    SessionClosed {
        function: u64,
    },
    SessionApplied {
        function: u64,
    },
    SessionRefused {
        function: u64,
    },
    SessionPast {
        function: u64,
    },
    Owned {
        function: u64,
        count: u64,
    },
    LockOk {
        function: u64,
        path: Path,
    },
    LockBusy {
        function: u64,
        path: Path,
        holder: u64,
        moment: u64,
    },
    Push {
        function: u64,
        tx: u64,
    },
    RefuseOk {
        function: u64,
        code: Code,
        place: u32,
        at: u64,
    },
    RefuseSettled {
        function: u64,
        code: Code,
        place: u32,
        at: u64,
        settled: u64,
    },
    RefuseLock {
        function: u64,
        code: Code,
        place: u32,
        at: u64,
        path: Path,
        holder: u64,
        moment: u64,
    },
    LostOk {
        function: u64,
    },
    LostSettled {
        function: u64,
        settled: u64,
    },

    // A follower or a leader.
    CommitOk {
        function: u64,
        tx: u64,
    },
    CommitSettled {
        function: u64,
        tx: u64,
        settled: u64,
    },
    CommitLock {
        function: u64,
        tx: u64,
        path: Path,
        holder: u64,
        moment: u64,
    },
    Reply {
        function: u64,
        session: u32,
        k: u64,
    },

    // Any function that works on a message.
    AckOk {
        function: u64,
    },
    AckGone {
        function: u64,
    },

    // A leader.
    PendingYes {
        function: u64,
        tx: u64,
    },
    PendingNo {
        function: u64,
        tx: u64,
    },
    DropOk {
        function: u64,
        tx: u64,
    },
    DropMiss {
        function: u64,
        tx: u64,
        done: u64,
    },
    SweepOk {
        function: u64,
        tx: u64,
        fired: u64,
    },
    SweepMiss {
        function: u64,
        tx: u64,
        swept: u64,
        fired: u64,
    },
    PutOk {
        function: u64,
        tx: u64,
        path: Path,
    },
    PutMiss {
        function: u64,
        tx: u64,
        path: Path,
        stamp: u64,
    },
    PublishOk {
        function: u64,
        tx: u64,
    },
    PublishMiss {
        function: u64,
        tx: u64,
        mark: u64,
    },
    Notify {
        function: u64,
        tx: u64,
        note: u64,
    },
    DoneOk {
        function: u64,
        tx: u64,
    },
    DoneMiss {
        function: u64,
        tx: u64,
        done: u64,
    },

    // A watch function.
    Tell {
        function: u64,
        session: u32,
        watch: u64,
    },
    Told {
        function: u64,
        tx: u64,
    },

    // A heartbeat.
    ProbeClosed {
        function: u64,
    },
    ProbeFresh {
        function: u64,
    },
    ProbeWaiting {
        function: u64,
    },
    ProbeLate {
        function: u64,
        ping: u64,
        moment: u64,
    },
    Ping {
        function: u64,
        session: u32,
    },
    NoteOk {
        function: u64,
    },
    NoteMiss {
        function: u64,
        ping: u64,
    },
    Evict {
        function: u64,
        k: u64,
    },

    // A client.
    Pong {
        session: u32,
        ping: u64,
    },
    TakeDone {
        session: u32,
        k: u64,
        tx: u64,
    },
    TakeEvicted {
        session: u32,
        k: u64,
        tx: u64,
    },
    TakeRefused {
        session: u32,
        k: u64,
    },
    TakeLost {
        session: u32,
        k: u64,
    },
    TakeWatch {
        session: u32,
        watch: u64,
    },
    TakePing {
        session: u32,
        ping: u64,
    },
    LookOk {
        session: u32,
        command: u32,
        mark: u64,
    },
    LookBehind {
        session: u32,
        command: u32,
        mark: u64,
    },
    LookHeld {
        session: u32,
        command: u32,
        mark: u64,
        watch: u64,
    },
    Send {
        session: u32,
        command: u32,
        k: u64,
    },
    Read {
        session: u32,
        command: u32,
        stamp: u64,
    },
    WatchSet {
        session: u32,
        command: u32,
        watch: u64,
    },
    WatchSwept {
        session: u32,
        command: u32,
        tx: u64,
    },
    Local {
        session: u32,
        command: u32,
    },
    PongFault {
        session: u32,
    },
    TakeFault {
        session: u32,
    },
    LookFault {
        session: u32,
        command: u32,
    },
    SendFault {
        session: u32,
        command: u32,
    },
    ReadFault {
        session: u32,
        command: u32,
    },
    WatchFault {
        session: u32,
        command: u32,
    },
}
