use crate::why::Why;
use fk_base::NoMemory;
use thiserror::Error;

/// Why a file isn't read.
#[derive(Clone, Copy, Debug, PartialEq, Eq, Error)]
pub enum ScriptFault {
    /// The first line that offends, counted from 1, and its first reason.
    #[error("line {0} offends: {1:?}")]
    Bad(u64, Why),
    #[error("out of memory")]
    NoMemory,
}

impl From<NoMemory> for ScriptFault {
    ghost use Rattle.std.specs.Prelude.{◌≡◌};
    ghost use Rattle.fk_script.specs.declared.fault.ScriptFault.TheVariants as fault;

    ghost from_gives = { λ _ e. e ≡ fault.NoMemory };

    fn from(_hand: NoMemory) -> ScriptFault {
        ScriptFault::NoMemory
    }
}
