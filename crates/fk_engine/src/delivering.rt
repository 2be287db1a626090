//! A lane's head starts a function, and so does a beat.

ghost use Rattle.std.specs.Prelude.{IfOk, OnOk};
ghost use Rattle.fk_print.specs.declared.event.Event.TheVariants as event;
ghost use Rattle.fk_engine.specs.Fit.{FitsEvent};
ghost use Rattle.fk_engine.specs.Parts.{parts_of};
ghost use Rattle.fk_engine.specs.Playing.{AreLinesOf, IsOpOf, Leads};

use crate::heads::{note_at, pushed_at, sent_at};
use crate::machine::Machine;
use crate::parts::Parts;
use fk_base::NoMemory;
use fk_follow::Follower;
use fk_lead::Leader;
use fk_print::{Lines, Op};
use fk_queue::Lane;
use fk_store::Table;
use fk_watch::{Beat, Teller};

impl<T: Table> Parts<T> {
    /// A follower starts on the head of a session's lane.
    pub(crate) fn deliver(&mut self, session: u32) -> Result<(Op, Lines), NoMemory>
        requires { FitsEvent (parts_of T.meaning self.old) (event.Deliver session) }
        ensures op { IfOk result (λ x. IsOpOf (parts_of T.meaning self.old)
            (event.Deliver session) x.0) }
        ensures lines { IfOk result (λ x. AreLinesOf (parts_of T.meaning self.old)
            (event.Deliver session) x.1) }
        ensures after { OnOk result (Leads (parts_of T.meaning self.old) (event.Deliver session)
            (parts_of T.meaning self.new)) }
    {
        let lane = Lane::Session(session);
        let Some(k) = self.services.post.head(lane) else {
            return Ok((Op::Idle, Lines::new(self.alloc)));
        };
        let message = sent_at(self.alloc, &self.services.post, lane, &mut self.reader)?;
        let function = self.functions.next();
        let follower = Follower::start(self.alloc, function, session, k, message);
        self.functions.start(Machine::Follower(follower))?;
        let op = Op::Follower {
            function,
            session,
            k,
        };
        Ok((op, Lines::new(self.alloc)))
    }

    /// A leader starts on the head of its lane.
    pub(crate) fn lead(&mut self) -> Result<(Op, Lines), NoMemory>
        requires { FitsEvent (parts_of T.meaning self.old) event.Leader }
        ensures op { IfOk result (λ x. IsOpOf (parts_of T.meaning self.old) event.Leader x.0) }
        ensures lines { IfOk result (λ x. AreLinesOf (parts_of T.meaning self.old)
            event.Leader x.1) }
        ensures after { OnOk result (Leads (parts_of T.meaning self.old) event.Leader
            (parts_of T.meaning self.new)) }
    {
        let Some(tx) = self.services.post.head(Lane::Leader) else {
            return Ok((Op::Idle, Lines::new(self.alloc)));
        };
        let message = pushed_at(
            self.alloc,
            &self.services.post,
            Lane::Leader,
            &mut self.reader,
        )?;
        let function = self.functions.next();
        let leader = Leader::start(self.alloc, function, tx, message);
        self.functions.start(Machine::Leader(leader))?;
        Ok((Op::Leader { function, tx }, Lines::new(self.alloc)))
    }

    /// A watch function starts on the head of the watch lane.
    pub(crate) fn watch(&mut self) -> Result<(Op, Lines), NoMemory>
        requires { FitsEvent (parts_of T.meaning self.old) event.Watch }
        ensures op { IfOk result (λ x. IsOpOf (parts_of T.meaning self.old) event.Watch x.0) }
        ensures lines { IfOk result (λ x. AreLinesOf (parts_of T.meaning self.old)
            event.Watch x.1) }
        ensures after { OnOk result (Leads (parts_of T.meaning self.old) event.Watch
            (parts_of T.meaning self.new)) }
    {
        let Some(note) = self.services.post.head(Lane::Watch) else {
            return Ok((Op::Idle, Lines::new(self.alloc)));
        };
        let message = note_at(
            self.alloc,
            &self.services.post,
            Lane::Watch,
            &mut self.reader,
        )?;
        let function = self.functions.next();
        let teller = Teller::start(self.alloc, function, note, message);
        self.functions.start(Machine::Teller(teller))?;
        Ok((Op::Teller { function, note }, Lines::new(self.alloc)))
    }

    /// A heartbeat of a session starts.
    pub(crate) fn beat(&mut self, session: u32) -> Result<(Op, Lines), NoMemory>
        requires { FitsEvent (parts_of T.meaning self.old) (event.Beat session) }
        ensures op { IfOk result (λ x. IsOpOf (parts_of T.meaning self.old)
            (event.Beat session) x.0) }
        ensures lines { IfOk result (λ x. AreLinesOf (parts_of T.meaning self.old)
            (event.Beat session) x.1) }
        ensures after { OnOk result (Leads (parts_of T.meaning self.old) (event.Beat session)
            (parts_of T.meaning self.new)) }
    {
        let function = self.functions.next();
        let beat = Beat::start(self.alloc, function, session);
        self.functions.start(Machine::Beat(beat))?;
        Ok((Op::Beat { function, session }, Lines::new(self.alloc)))
    }
}
