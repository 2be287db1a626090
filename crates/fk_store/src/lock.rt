ghost use Rattle.std.specs.Prelude.{◌≡◌};
ghost use Rattle.fk_store.specs.Locks.{is_free, is_held_by};

/// The last lock of a path: who has or had it, since when, and whether it is still held.
#[derive(Clone, Copy, Debug, PartialEq, Eq)]
pub struct Lock {
    /// The invocation that it was granted to.
    pub inv: u64,
    /// When it was granted.
    pub moment: u64,
    pub held: bool,
}

/// Whether the lock is held by this invocation.
pub fn still(lock: &Lock, inv: u64) -> bool
    ensures { result ≡ is_held_by inv lock.now }
{
    lock.held && lock.inv == inv
}

/// The lock of a path that was never locked.
pub const UNLOCKED: Lock = Lock {
    inv: 0,
    moment: 0,
    held: false,
};

/// Whether the lock may be granted at `now`, where locks may pass on after `lock`.
pub fn may_grant(last: &Lock, now: u64, lock: u64) -> bool
    ensures { result ≡ is_free now lock last.now }
{
    !last.held || now > last.moment && now - last.moment > lock
}
