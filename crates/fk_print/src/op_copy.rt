ghost use Rattle.std.specs.Prelude.{◌≡◌, IfOk};

use crate::op::Op;
use fk_base::NoMemory;

/// The copy of a field: of a path a further one, of anything else its value.
macro_rules! field_copy {
    (path, $field:ident) => {
        $field.copy()?
    };
    ($name:ident, $field:ident) => {
        *$field
    };
}

/// The copy of the one of these operations that it is, field by field.
macro_rules! copied {
    ($op:ident; $($name:ident $({ $($field:ident),* })?,)*) => {
        match $op {
            $(Op::$name $({ $($field),* })? => Ok(Op::$name $({
                $($field: field_copy!($field, $field)),*
            })?),)*
        }
    };
}

impl Op {
    pub fn copy(&self) -> Result<Op, NoMemory>
        ensures { IfOk result (λ o. o ≡ self.now) }
    {
        copied!(self;
            Idle,
            Clock { moment },
            Follower { function, session, k },
            Leader { function, tx },
            Teller { function, note },
            Beat { function, session },
            Crash { function },
            Fault { function, word },
            SessionNew { function },
            SessionClosed { function },
            SessionApplied { function },
            SessionRefused { function },
            SessionPast { function },
            Owned { function, count },
            LockOk { function, path },
            LockBusy { function, path, holder, moment },
            Push { function, tx },
            RefuseOk { function, code, place, at },
            RefuseSettled { function, code, place, at, settled },
            RefuseLock { function, code, place, at, path, holder, moment },
            LostOk { function },
            LostSettled { function, settled },
            CommitOk { function, tx },
            CommitSettled { function, tx, settled },
            CommitLock { function, tx, path, holder, moment },
            Reply { function, session, k },
            AckOk { function },
            AckGone { function },
            PendingYes { function, tx },
            PendingNo { function, tx },
            DropOk { function, tx },
            DropMiss { function, tx, done },
            SweepOk { function, tx, fired },
            SweepMiss { function, tx, swept, fired },
            PutOk { function, tx, path },
            PutMiss { function, tx, path, stamp },
            PublishOk { function, tx },
            PublishMiss { function, tx, mark },
            Notify { function, tx, note },
            DoneOk { function, tx },
            DoneMiss { function, tx, done },
            Tell { function, session, watch },
            Told { function, tx },
            ProbeClosed { function },
            ProbeFresh { function },
            ProbeWaiting { function },
            ProbeLate { function, ping, moment },
            Ping { function, session },
            NoteOk { function },
            NoteMiss { function, ping },
            Evict { function, k },
            Pong { session, ping },
            TakeDone { session, k, tx },
            TakeEvicted { session, k, tx },
            TakeRefused { session, k },
            TakeLost { session, k },
            TakeWatch { session, watch },
            TakePing { session, ping },
            LookOk { session, command, mark },
            LookBehind { session, command, mark },
            LookHeld { session, command, mark, watch },
            Send { session, command, k },
            Read { session, command, stamp },
            WatchSet { session, command, watch },
            WatchSwept { session, command, tx },
            Local { session, command },
            PongFault { session },
            TakeFault { session },
            LookFault { session, command },
            SendFault { session, command },
            ReadFault { session, command },
            WatchFault { session, command },
        )
    }
}
