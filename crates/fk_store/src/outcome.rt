ghost use Rattle.std.specs.Prelude.{◌≡◌, IfOk};

use fk_base::{Code, NoMemory, Path};

/// What became of a session's last settled request.
#[derive(Drop)]
pub enum Outcome {
    /// No request was settled.
    Nothing,
    /// Committed as this transaction.
    Applied(u64),
    /// Refused with a code, on the tree at this number; the place is that of a part of a multi, else 0.
    Refused {
        code: Code,
        at: u64,
        place: u32,
    },
    /// A lock that was granted at `own` had passed on to `found` at `moment`.
    Lost {
        path: Path,
        own: u64,
        found: u64,
        moment: u64,
    },
}

impl Outcome {
    pub fn copy(&self) -> Result<Outcome, NoMemory>
        ensures { IfOk result (λ o. o ≡ self.now) }
    {
        match self {
            Outcome::Nothing => Ok(Outcome::Nothing),
            Outcome::Applied(tx) => Ok(Outcome::Applied(*tx)),
            Outcome::Refused { code, at, place } => Ok(Outcome::Refused {
                code: *code,
                at: *at,
                place: *place,
            }),
            Outcome::Lost {
                path,
                own,
                found,
                moment,
            } => Ok(Outcome::Lost {
                path: path.copy()?,
                own: *own,
                found: *found,
                moment: *moment,
            }),
        }
    }
}
