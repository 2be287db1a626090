//! Drains.

ghost use Rattle.std.specs.Prelude.{◌≡◌, ◌+◌, ◌<◌, ◌^◌, true, false, OnOk, OnErr};
ghost use Rattle.fk_spec.specs.Plan.{plan_of};
ghost use Rattle.fk_spec.specs.Schedule.{Drains, Empties, Plays, crashes, drain_begin};
ghost use Rattle.fk_spec.specs.Start.{clock_of};
ghost use Rattle.fk_world.specs.Draining.{DrainsTo, GoesTo, PlaysSome};

use crate::world::World;
use fk_base::NoMemory;
use fk_print::Event;
use fk_store::Table;

impl<T: Table> World<T> {
    // ends these functions
    #[tactic(auto, using(crate::proofs::Emptying::crash_made, crate::proofs::Emptying::none_made, crate::proofs::Emptying::all_made, crate::proofs::Emptying::some_made))]
    fn crash(&mut self, numbers: &[u64]) -> Result<(), NoMemory>
        requires { self.old.spent ≡ false }
        ensures crashed { OnOk result (Plays (crashes numbers.now) self.old.past self.new.past) }
        ensures clock { OnOk result (clock_of self.new.past ≡ clock_of self.old.past) }
        ensures going { OnOk result (self.new.spent ≡ false) }
        ensures so_far { OnErr result (PlaysSome (crashes numbers.now) self.old.past
            self.new.past) }
        ensures spent { OnErr result (self.new.spent ≡ true) }
        ensures deployment { self.new.deployment ≡ self.old.deployment }
    {
        let mut rest = numbers;
        'crashing: while let [number, others @ ..] = rest {
            self.play(&Event::Crash(*number))?;
            rest = others;
        }
        Ok(())
    }

    // goes on until a drain does nothing next
    fn empty(&mut self) -> Result<(), NoMemory>
        requires { self.old.spent ≡ false }
        ensures emptied { OnOk result (Empties (plan_of self.old.deployment) self.old.past
            self.new.past) }
        ensures clock { OnOk result (clock_of self.new.past ≡ clock_of self.old.past) }
        ensures going { OnOk result (self.new.spent ≡ false) }
        ensures so_far { OnErr result (GoesTo (plan_of self.old.deployment) self.old.past
            self.new.past) }
        ensures spent { OnErr result (self.new.spent ≡ true) }
        ensures deployment { self.new.deployment ≡ self.old.deployment }
    {
        'going: while let Some(event) = self.next_of_drain() {
            self.play(&event)?;
        }
        Ok(())
    }

    // ends each function in flight, and lets every lock run out
    #[tactic(auto, using(crate::proofs::Emptying::some_crashed, crate::proofs::Emptying::all_crashed))]
    fn begin_drain(&mut self) -> Result<(), NoMemory>
        requires unspent { self.old.spent ≡ false }
        requires time { clock_of self.old.past + (plan_of self.old.deployment).lock + 1 < 2 ^ 63 }
        ensures begun { OnOk result (Plays (drain_begin (plan_of self.old.deployment)
            self.old.past) self.old.past self.new.past) }
        ensures clock { OnOk result (clock_of self.new.past
            ≡ clock_of self.old.past + (plan_of self.old.deployment).lock + 1) }
        ensures going { OnOk result (self.new.spent ≡ false) }
        ensures so_far { OnErr result (PlaysSome (drain_begin (plan_of self.old.deployment)
            self.old.past) self.old.past self.new.past) }
        ensures spent { OnErr result (self.new.spent ≡ true) }
        ensures deployment { self.new.deployment ≡ self.old.deployment }
    {
        let moment = self.clock() + self.deployment().config.lock + 1;
        let numbers = self.flight()?;
        self.crash(numbers.as_slice())?;
        self.play(&Event::Clock(moment))
    }

    /// Makes the whole of one drain. After `NoMemory` the entries so far stay, and the world is
    /// spent.
    pub fn drain(&mut self) -> Result<(), NoMemory>
        requires { clock_of self.old.past + (plan_of self.old.deployment).lock + 1 < 2 ^ 63 }
        ensures drained { OnOk result (Drains (plan_of self.old.deployment) self.old.past
            self.new.past) }
        ensures clock { OnOk result (clock_of self.new.past
            ≡ clock_of self.old.past + (plan_of self.old.deployment).lock + 1) }
        ensures going { OnOk result (self.new.spent ≡ false) }
        ensures unspent { OnOk result (self.old.spent ≡ false) }
        ensures so_far { OnErr result (DrainsTo (plan_of self.old.deployment) self.old.past
            self.new.past) }
        ensures spent { OnErr result (self.new.spent ≡ true) }
        ensures deployment { self.new.deployment ≡ self.old.deployment }
    {
        if self.spent() {
            return Err(NoMemory);
        }
        self.begin_drain()?;
        self.empty()
    }
}
