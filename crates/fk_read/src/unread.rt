use fk_base::NoMemory;

/// Why nothing was read.
#[derive(Clone, Copy)]
pub(crate) enum Unread {
    /// The words are none of a well-formed line.
    Malformed,
    NoMemory,
}

impl From<NoMemory> for Unread {
    ghost use Rattle.std.specs.Prelude.{◌≡◌};
    ghost use Rattle.fk_read.specs.declared.unread.Unread.TheVariants as unread;

    ghost from_gives = { λ _ e. e ≡ unread.NoMemory };

    fn from(_error: NoMemory) -> Unread {
        Unread::NoMemory
    }
}
