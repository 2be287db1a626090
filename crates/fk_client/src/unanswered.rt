//! The commands that a client sent or refused itself and didn't answer.

ghost use Rattle.std.specs.Prelude.{◌≡◌};
ghost use Rattle.fk_spec.specs.Client.{is_open, is_ready, number_looked_for};
ghost use Rattle.fk_client.specs.Known.{known};

use fk_base::{Code, Path};
use fk_tree::Mades;

/// What a client knows of a command that it sent or refused itself.
#[derive(Drop)]
pub enum Outcome {
    /// Nothing yet.
    Open,
    /// It was committed.
    Done {
        tx: u64,
        /// The final path of a create, else the root.
        name: Path,
        /// The new version of a set, else 0.
        version: u32,
        /// One entry for each part of a multi, else none.
        made: Mades,
    },
    Refused {
        code: Code,
        at: u64,
        /// Of a multi the part that is refused, from 1, else 0.
        place: u32,
    },
    /// A lock had passed on.
    Lost {
        path: Path,
        own: u64,
        found: u64,
        moment: u64,
    },
    /// A code that speaks of no number.
    Plain(Code),
    /// Its session is closed; the client had seen this number.
    Expired {
        at: u64,
    },
}

/// A command that isn't answered: its place among its client's, from 1, and its message's place in
/// the session's lane where it was sent, else 0.
#[derive(Drop)]
pub struct Unanswered {
    pub command: u32,
    pub k: u64,
    pub outcome: Outcome,
}

impl Outcome {
    pub(crate) fn is_open(&self) -> bool
        ensures { result ≡ is_open (known self.now) }
    {
        match self {
            Outcome::Open => true,
            Outcome::Done { .. }
            | Outcome::Refused { .. }
            | Outcome::Lost { .. }
            | Outcome::Plain(_)
            | Outcome::Expired { .. } => false,
        }
    }

    /// The number of the tree that its line speaks of, which needs a look.
    pub(crate) fn number(&self) -> Option<u64>
        ensures { result ≡ number_looked_for (known self.now) }
    {
        match self {
            Outcome::Done { tx, .. } => Some(*tx),
            Outcome::Refused { at, .. } => Some(*at),
            Outcome::Open | Outcome::Lost { .. } | Outcome::Plain(_) | Outcome::Expired { .. } =>
                None,
        }
    }

    /// Whether its line is printed without a look.
    pub(crate) fn is_ready(&self) -> bool
        ensures { result ≡ is_ready (known self.now) }
    {
        match self {
            Outcome::Lost { .. } | Outcome::Plain(_) | Outcome::Expired { .. } => true,
            Outcome::Open | Outcome::Done { .. } | Outcome::Refused { .. } => false,
        }
    }
}
