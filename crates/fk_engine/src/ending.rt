//! A function ends where it stands, and the clock goes on.

ghost use Rattle.fk_print.specs.declared.event.Event.TheVariants as event;
ghost use Rattle.fk_engine.specs.Parts.{parts_of};
ghost use Rattle.fk_engine.specs.Playing.{AreLinesOf, IsOpOf, Leads};

use crate::parts::Parts;
use fk_print::{Lines, Op};
use fk_store::Table;

impl<T: Table> Parts<T> {
    /// A function ends where it stands.
    pub(crate) fn crash(&mut self, function: u64) -> (Op, Lines)
        ensures op { IsOpOf (parts_of T.meaning self.old) (event.Crash function) result.0 }
        ensures lines { AreLinesOf (parts_of T.meaning self.old) (event.Crash function) result.1 }
        ensures after { Leads (parts_of T.meaning self.old) (event.Crash function)
            (parts_of T.meaning self.new) }
    {
        let runs = self.functions.runs(function);
        self.functions.end(function);
        let op = if runs {
            Op::Crash { function }
        } else {
            Op::Idle
        };
        (op, Lines::new(self.alloc))
    }

    /// The clock shows a moment, unless it shows a later one.
    pub(crate) fn show(&mut self, moment: u64) -> (Op, Lines)
        ensures op { IsOpOf (parts_of T.meaning self.old) (event.Clock moment) result.0 }
        ensures lines { AreLinesOf (parts_of T.meaning self.old) (event.Clock moment) result.1 }
        ensures after { Leads (parts_of T.meaning self.old) (event.Clock moment)
            (parts_of T.meaning self.new) }
    {
        let clock = moment.max(self.times.clock);
        self.times.clock = clock;
        (Op::Clock { moment: clock }, Lines::new(self.alloc))
    }
}
