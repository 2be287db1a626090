use fk_base::NoMemory;
use thiserror::Error;

/// Why bytes are no message.
#[derive(Clone, Copy, Debug, PartialEq, Eq, Error)]
pub enum WireFault {
    /// They are the text of no message of the kind that was asked for.
    #[error("malformed message")]
    Malformed,
    #[error("out of memory")]
    NoMemory,
}

impl From<NoMemory> for WireFault {
    ghost use Rattle.std.specs.Prelude.{◌≡◌};
    ghost use Rattle.fk_wire.specs.declared.fault.WireFault.TheVariants as fault;

    ghost from_gives = { λ _ e. e ≡ fault.NoMemory };

    fn from(_error: NoMemory) -> WireFault {
        WireFault::NoMemory
    }
}
