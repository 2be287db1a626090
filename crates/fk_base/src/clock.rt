ghost use Rattle.std.specs.Prelude.{◌≡◌};

use std::marker::Model;
use std::time;
use std::time::Instant;

/// Tells the moment, in a unit that the clock chooses.
pub trait Clock {
    fn now(&self) -> u64;
}

/// A clock that always tells one moment.
#[derive(Clone, Copy, Debug)]
pub struct SetClock {
    moment: u64,
}

impl Model for SetClock {
    ghost use Rattle.std.specs.Prelude.{ℕ};

    ghost Value = { ℕ };

    ghost view = { λ c. c.moment };

    ghost inverse = { λ n. record { moment = n } };
}

impl SetClock {
    pub fn new(moment: u64) -> SetClock
        ensures { result ≡ moment }
    {
        SetClock { moment }
    }
}

impl Clock for SetClock {
    fn now(&self) -> u64
        ensures { result ≡ self.now }
    {
        self.moment
    }
}

/// The system's clock, in milliseconds since this value was made; 0 where it can't be read.
#[derive(Drop)]
pub struct RealClock<R: time::Clock> {
    rt: R,
    start: Option<Instant>,
}

impl<R: time::Clock> RealClock<R> {
    pub fn new(rt: R) -> RealClock<R> {
        let start = Instant::now(&rt).ok();
        RealClock { rt, start }
    }

    fn passed(&self) -> Option<u64> {
        let passed = self.start?.elapsed(&self.rt).ok()?;
        u64::try_from(passed.as_millis()).ok()
    }
}

impl<R: time::Clock> Clock for RealClock<R> {
    fn now(&self) -> u64 {
        self.passed().unwrap_or(0)
    }
}
