//! A function in flight.

ghost use Rattle.std.specs.Prelude.{◌≡◌, IfOk, OnOk};
ghost use Rattle.fk_engine.specs.Machines.{IsFit, IsGiven, IsOpOf, IsReadable, Leads, is_ended, lines_by, machine_of, services_after};
ghost use Rattle.fk_engine.specs.Serving.{services_of};

use crate::services::Services;
use crate::times::Times;
use fk_base::NoMemory;
use fk_follow::Follower;
use fk_lead::Leader;
use fk_print::{Line, Lines, Op};
use fk_store::Table;
use fk_watch::{Beat, Teller};
use std::alloc::Global;

/// A function of one of the four kinds.
#[derive(Drop)]
pub enum Machine {
    Follower(Follower),
    Leader(Leader),
    Teller(Teller),
    Beat(Beat),
}

impl Machine {
    /// Whether it makes no more operations.
    pub fn ended(&self) -> bool
        ensures { result ≡ is_ended (machine_of self.now) }
    {
        match self {
            Machine::Follower(follower) => follower.ended(),
            Machine::Leader(leader) => leader.ended(),
            Machine::Teller(teller) => teller.ended(),
            Machine::Beat(beat) => beat.ended(),
        }
    }

    // makes its next operation
    fn operate<T: Table>(
        &mut self,
        services: &mut Services<T>,
        times: Times,
    ) -> Result<Op, NoMemory>
        requires { IsFit (services_of T.meaning services.old) times (machine_of self.old) }
        ensures op { IfOk result (IsOpOf (services_of T.meaning services.old) times
            (machine_of self.old)) }
        ensures machine { OnOk result (Leads (services_of T.meaning services.old) times
            (machine_of self.old) (machine_of self.new)) }
        ensures services { OnOk result (services_of T.meaning services.new
            ≡ services_after (services_of T.meaning services.old) times (machine_of self.old)) }
        ensures given { OnOk result (IsGiven (services_of T.meaning services.old)
            (machine_of self.old)) }
        ensures sent { OnOk result (IsReadable times (machine_of self.old)) }
    {
        match self {
            Machine::Follower(follower) => follower.step(
                &mut services.table,
                &mut services.post,
                times.clock,
                times.lock,
            ),
            Machine::Leader(leader) => leader.step(
                &mut services.table,
                &mut services.post,
                &mut services.watches,
                &mut services.user,
            ),
            Machine::Teller(teller) => teller.step(&mut services.post, &mut services.watches),
            Machine::Beat(beat) => beat.step(
                &mut services.table,
                &mut services.post,
                times.clock,
                times.beat,
            ),
        }
    }

    // the public lines of an operation that it made
    fn lines(&self, alloc: Global, op: &Op) -> Result<Lines, NoMemory>
        ensures { IfOk result (λ l. l ≡ lines_by op.now (machine_of self.now)) }
    {
        let mut lines = Lines::new(alloc);
        if let Machine::Leader(leader) = self
            && let Op::PublishOk { .. } = op
        {
            lines.push(Line::Tx(leader.printed()?))?;
        }
        Ok(lines)
    }

    /// Makes its next operation on the services at a time, and tells it with its public lines.
    /// After `NoMemory` neither it nor the services are to be used further.
    pub fn step<T: Table>(
        &mut self,
        alloc: Global,
        services: &mut Services<T>,
        times: Times,
    ) -> Result<(Op, Lines), NoMemory>
        requires { IsFit (services_of T.meaning services.old) times (machine_of self.old) }
        ensures op { IfOk result (λ x. IsOpOf (services_of T.meaning services.old) times
            (machine_of self.old) x.0) }
        ensures lines { IfOk result (λ x. x.1 ≡ lines_by x.0 (machine_of self.old)) }
        ensures machine { OnOk result (Leads (services_of T.meaning services.old) times
            (machine_of self.old) (machine_of self.new)) }
        ensures services { OnOk result (services_of T.meaning services.new
            ≡ services_after (services_of T.meaning services.old) times (machine_of self.old)) }
        ensures given { OnOk result (IsGiven (services_of T.meaning services.old)
            (machine_of self.old)) }
        ensures sent { OnOk result (IsReadable times (machine_of self.old)) }
    {
        let op = self.operate(services, times)?;
        let lines = self.lines(alloc, &op)?;
        Ok((op, lines))
    }
}
