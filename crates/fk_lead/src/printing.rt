//! A leader shows its push as the transaction's line does.

ghost use Rattle.std.specs.Prelude.{◌≡◌, IfOk};
ghost use Rattle.fk_spec.specs.Next.{act_by, printed_of};
ghost use Rattle.fk_lead.specs.Meaning.{applied_of};
ghost use Rattle.fk_lead.specs.Standing.{leader_of};

use crate::leader::Leader;
use fk_base::NoMemory;
use fk_print::{Act, Printed};
use fk_tree::{Applied, Request};

// what an applied request did
fn act_by(applied: Applied) -> Act
    ensures { result ≡ act_by applied applied.request }
{
    let Applied {
        request,
        name,
        gone,
        ..
    } = applied;
    match request {
        Request::Create {
            bytes,
            seq,
            eph,
            ..
        } => Act::Create {
            path: name,
            bytes,
            seq,
            eph,
        },
        Request::Set {
            path,
            bytes,
            version,
        } => Act::Set {
            path,
            bytes,
            version,
        },
        Request::Delete { path, version } => Act::Delete { path, version },
        Request::Close { evict } => Act::Close { evict, gone },
        Request::Multi(parts) => Act::Multi(parts),
    }
}

// an applied request as its line shows it
fn printed_of(applied: Applied) -> Printed
    ensures { result ≡ printed_of applied }
{
    Printed {
        tx: applied.tx,
        moment: applied.moment,
        session: applied.session,
        k: applied.k,
        act: act_by(applied),
    }
}

impl Leader {
    /// Its push as the transaction's line shows it.
    pub fn printed(&self) -> Result<Printed, NoMemory>
        ensures { IfOk result (λ x. x ≡ printed_of (applied_of (leader_of self.now))) }
    {
        Ok(printed_of(self.applied()?))
    }
}
