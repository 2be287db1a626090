//! The functions in flight.

ghost use Rattle.std.specs.Prelude.{◌≡◌, ℕ, ◌≤◌, true, is_some, None, OnErr, OnOk, Some};
ghost use Rattle.fk_user.specs.Ids.{has_id};
ghost use Rattle.fk_watch.specs.Setting.{at};
ghost use Rattle.fk_engine.specs.Entries.{IsUpdated};

use crate::in_flight::InFlight;
use crate::machine::Machine;
use crate::services::Services;
use crate::times::Times;
use fk_base::NoMemory;
use fk_print::{Lines, Op};
use fk_store::Table;
use std::alloc::Global;
use std::collections::BTreeMap;

/// The functions that haven't ended, under their numbers: from 1, in the order of their starts.
#[derive(Drop)]
pub struct Functions {
    started: u64,
    running: BTreeMap<u64, Machine>,
    numbers: InFlight,
    ghost listed: { (n : ℕ) → has_id n numbers ≡ is_some (at n running.entries) },
    ghost low: { (n : ℕ) → is_some (at n running.entries) ≡ true → n ≤ started },
}

// a function stands under a number that is free
fn add(running: &mut BTreeMap<u64, Machine>, number: u64, machine: Machine) -> Result<(), NoMemory>
    ensures ok { OnOk result (IsUpdated running.old.entries running.new.entries number
        (Some machine)) }
    ensures err { OnErr result (running.new.entries ≡ running.old.entries) }
{
    match running.insert(number, machine) {
        Ok(_) => Ok(()),
        Err(_) => Err(NoMemory),
    }
}

// nothing stands under a number any more
fn take_out(running: &mut BTreeMap<u64, Machine>, number: u64)
    ensures { IsUpdated running.old.entries running.new.entries number None }
{
    running.remove(&number);
}

impl Functions {
    ghost use Rattle.std.specs.Prelude.{◌≡◌, ℕ, ◌+◌, ◌-◌, ◌<◌, ◌^◌, List, is_some, slice_get, OnErr, OnOk, IfOk};
    ghost use Rattle.fk_engine.specs.Flights.{AreInFlight, no_functions, with_started, without};
    ghost use Rattle.fk_engine.specs.FlightsStanding.{functions_of};
    ghost use Rattle.fk_engine.specs.Machines.{machine_of};
    ghost use Rattle.fk_engine.specs.Serving.{services_of};
    ghost use Rattle.fk_engine.specs.Stepping.{AreLinesOf, FitsStepOf, IsGiven, IsOpOf, Leads, SendsReadable, function_services};

    /// No function was started.
    #[tactic(auto, unfolding(crate::specs::FlightsStanding::functions_of))]
    pub fn new(alloc: Global) -> Functions
        ensures { functions_of result ≡ no_functions }
    {
        Functions {
            started: 0,
            running: BTreeMap::new(alloc),
            numbers: InFlight::new(alloc),
        }
    }

    /// The numbers of those in flight, from the least on.
    #[tactic(auto, unfolding(crate::specs::FlightsStanding::functions_of))]
    pub fn in_flight(&self) -> &[u64]
        ensures { AreInFlight (functions_of self.now) result.now }
    {
        self.numbers.as_slice()
    }

    /// The number of the first of them.
    pub fn first(&self) -> Option<u64>
        ensures { (ns : List ℕ)
            → AreInFlight (functions_of self.now) ns → result ≡ slice_get ns 0 }
    {
        self.in_flight().first().copied()
    }

    /// Whether a function is in flight.
    #[tactic(auto, unfolding(crate::specs::FlightsStanding::functions_of))]
    pub fn runs(&self, number: u64) -> bool
        ensures { result ≡ is_some ((functions_of self.now).running number) }
    {
        self.running.contains_key(&number)
    }

    /// The number of the next function.
    #[tactic(auto, unfolding(crate::specs::FlightsStanding::functions_of))]
    pub fn next(&self) -> u64
        requires { (functions_of self.now).started < 2 ^ 63 - 1 }
        ensures { result ≡ (functions_of self.now).started + 1 }
    {
        self.started + 1
    }

    /// Starts a function under the next number.
    #[tactic(auto, unfolding(crate::specs::FlightsStanding::functions_of))]
    pub fn start(&mut self, machine: Machine) -> Result<(), NoMemory>
        requires { (functions_of self.old).started < 2 ^ 63 - 1 }
        ensures ok { OnOk result (functions_of self.new
            ≡ with_started (machine_of machine) (functions_of self.old)) }
    {
        let number = self.started + 1;
        add(&mut self.running, number, machine)?;
        match self.numbers.push(number) {
            Ok(()) => {
                self.started = number;
                Ok(())
            }
            Err(NoMemory) => {
                take_out(&mut self.running, number);
                Err(NoMemory)
            }
        }
    }

    /// Ends a function, where it is in flight.
    #[tactic(auto, unfolding(crate::specs::FlightsStanding::functions_of))]
    pub fn end(&mut self, number: u64)
        ensures { functions_of self.new ≡ without number (functions_of self.old) }
    {
        take_out(&mut self.running, number);
        self.numbers.remove(number);
    }

    /// A function makes its next operation on the services at a time, where it is in flight; once
    /// it makes no more it isn't. After `NoMemory` neither these nor the services are to be used
    /// further.
    #[tactic(auto, unfolding(crate::specs::FlightsStanding::functions_of))]
    pub fn step<T: Table>(
        &mut self,
        alloc: Global,
        number: u64,
        services: &mut Services<T>,
        times: Times,
    ) -> Result<(Op, Lines), NoMemory>
        requires { FitsStepOf (services_of T.meaning services.old) times
            ((functions_of self.old).running number) }
        ensures op { IfOk result (λ x. IsOpOf (services_of T.meaning services.old) times
            ((functions_of self.old).running number) x.0) }
        ensures lines { IfOk result (λ x. AreLinesOf (services_of T.meaning services.old) times
            ((functions_of self.old).running number) x.1) }
        ensures after { OnOk result (Leads (services_of T.meaning services.old) times number
            (functions_of self.old) (functions_of self.new)) }
        ensures services { OnOk result (services_of T.meaning services.new
            ≡ function_services (services_of T.meaning services.old) times
            ((functions_of self.old).running number)) }
        ensures given { OnOk result (IsGiven (services_of T.meaning services.old)
            ((functions_of self.old).running number)) }
        ensures sent { OnOk result (SendsReadable times ((functions_of self.old).running number)) }
    {
        let Some(machine) = self.running.get_mut(&number) else {
            return Ok((Op::Idle, Lines::new(alloc)));
        };
        let made = machine.step(alloc, services, times)?;
        if machine.ended() {
            self.end(number);
        }
        Ok(made)
    }
}
