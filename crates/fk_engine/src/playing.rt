//! Each event makes its operation.

ghost use Rattle.std.specs.Prelude.{IfOk, OnOk};
ghost use Rattle.fk_engine.specs.Fit.{FitsEvent};
ghost use Rattle.fk_engine.specs.Parts.{parts_of};
ghost use Rattle.fk_engine.specs.Playing.{AreLinesOf, IsGiven, IsOpOf, Leads, SendsReadable};

use crate::parts::Parts;
use fk_base::NoMemory;
use fk_print::{Event, Lines, Op};
use fk_store::Table;

impl<T: Table> Parts<T> {
    /// Makes the operation of an event, and tells it with its public lines.
    pub(crate) fn play(&mut self, event: &Event) -> Result<(Op, Lines), NoMemory>
        requires { FitsEvent (parts_of T.meaning self.old) event.now }
        ensures op { IfOk result (λ x. IsOpOf (parts_of T.meaning self.old) event.now x.0) }
        ensures lines { IfOk result (λ x. AreLinesOf (parts_of T.meaning self.old) event.now x.1) }
        ensures after { OnOk result (Leads (parts_of T.meaning self.old) event.now
            (parts_of T.meaning self.new)) }
        ensures given { OnOk result (IsGiven (parts_of T.meaning self.old) event.now) }
        ensures sent { OnOk result (SendsReadable (parts_of T.meaning self.old) event.now) }
    {
        match *event {
            Event::Client(session) => self.turn(session),
            Event::Deliver(session) => self.deliver(session),
            Event::Leader => self.lead(),
            Event::Watch => self.watch(),
            Event::Beat(session) => self.beat(session),
            Event::Step(function) => self.step(function),
            Event::Crash(function) => Ok(self.crash(function)),
            Event::Fail(function) => self.fail(function),
            Event::FailClient(session) => self.fail_turn(session),
            Event::Clock(moment) => Ok(self.show(moment)),
        }
    }
}
