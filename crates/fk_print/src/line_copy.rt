ghost use Rattle.std.specs.Prelude.{◌≡◌, IfOk};

use crate::entry::Entry;
use crate::line::{Act, Line, Printed, Shown};
use fk_base::NoMemory;

impl Act {
    pub fn copy(&self) -> Result<Act, NoMemory>
        ensures { IfOk result (λ a. a ≡ self.now) }
    {
        match self {
            Act::Create {
                path,
                bytes,
                seq,
                eph,
            } => Ok(Act::Create {
                path: path.copy()?,
                bytes: bytes.copy()?,
                seq: *seq,
                eph: *eph,
            }),
            Act::Set {
                path,
                bytes,
                version,
            } => Ok(Act::Set {
                path: path.copy()?,
                bytes: bytes.copy()?,
                version: *version,
            }),
            Act::Delete { path, version } => Ok(Act::Delete {
                path: path.copy()?,
                version: *version,
            }),
            Act::Close { evict, gone } => Ok(Act::Close {
                evict: *evict,
                gone: gone.copy()?,
            }),
            Act::Multi(parts) => Ok(Act::Multi(parts.copy()?)),
        }
    }
}

impl Printed {
    pub fn copy(&self) -> Result<Printed, NoMemory>
        ensures { IfOk result (λ p. p ≡ self.now) }
    {
        Ok(Printed {
            tx: self.tx,
            moment: self.moment,
            session: self.session,
            k: self.k,
            act: self.act.copy()?,
        })
    }
}

impl Shown {
    pub fn copy(&self) -> Result<Shown, NoMemory>
        ensures { IfOk result (λ s. s ≡ self.now) }
    {
        match self {
            Shown::Created { tx, path } => Ok(Shown::Created {
                tx: *tx,
                path: path.copy()?,
            }),
            Shown::Version { tx, version } => Ok(Shown::Version {
                tx: *tx,
                version: *version,
            }),
            Shown::Done { tx } => Ok(Shown::Done { tx: *tx }),
            Shown::Multi { tx, replies } => Ok(Shown::Multi {
                tx: *tx,
                replies: replies.copy()?,
            }),
            Shown::Got { at, bytes, stat } => Ok(Shown::Got {
                at: *at,
                bytes: bytes.copy()?,
                stat: *stat,
            }),
            Shown::Stated { at, stat } => Ok(Shown::Stated {
                at: *at,
                stat: *stat,
            }),
            Shown::Listed { at, names } => Ok(Shown::Listed {
                at: *at,
                names: names.copy()?,
            }),
            Shown::Refused { code, at, place } => Ok(Shown::Refused {
                code: *code,
                at: *at,
                place: *place,
            }),
            Shown::Plain(code) => Ok(Shown::Plain(*code)),
            Shown::Lost {
                path,
                own,
                found,
                moment,
            } => Ok(Shown::Lost {
                path: path.copy()?,
                own: *own,
                found: *found,
                moment: *moment,
            }),
        }
    }
}

impl Line {
    pub fn copy(&self) -> Result<Line, NoMemory>
        ensures { IfOk result (λ l. l ≡ self.now) }
    {
        match self {
            Line::Tx(printed) => Ok(Line::Tx(printed.copy()?)),
            Line::Reply {
                session,
                command,
                verb,
                shown,
            } => Ok(Line::Reply {
                session: *session,
                command: *command,
                verb: *verb,
                shown: shown.copy()?,
            }),
            Line::Notice {
                session,
                tx,
                kind,
                change,
                path,
            } => Ok(Line::Notice {
                session: *session,
                tx: *tx,
                kind: *kind,
                change: *change,
                path: path.copy()?,
            }),
            Line::Expired { session, tx } => Ok(Line::Expired {
                session: *session,
                tx: *tx,
            }),
        }
    }
}

impl Entry {
    pub fn copy(&self) -> Result<Entry, NoMemory>
        ensures { IfOk result (λ e. e ≡ self.now) }
    {
        Ok(Entry {
            event: self.event,
            op: self.op.copy()?,
            lines: self.lines.copy()?,
        })
    }
}
