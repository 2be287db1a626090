//! A function makes its next operation, or that one fails.

ghost use Rattle.std.specs.Prelude.{IfOk, OnOk};
ghost use Rattle.fk_print.specs.declared.event.Event.TheVariants as event;
ghost use Rattle.fk_engine.specs.Fit.{FitsEvent};
ghost use Rattle.fk_engine.specs.Parts.{parts_of};
ghost use Rattle.fk_engine.specs.Playing.{AreLinesOf, IsGiven, IsOpOf, Leads, SendsReadable};

use crate::parts::Parts;
use fk_base::NoMemory;
use fk_print::{Lines, Op};
use fk_store::Table;

impl<T: Table> Parts<T> {
    /// A function makes its next operation.
    pub(crate) fn step(&mut self, function: u64) -> Result<(Op, Lines), NoMemory>
        requires { FitsEvent (parts_of T.meaning self.old) (event.Step function) }
        ensures op { IfOk result (λ x. IsOpOf (parts_of T.meaning self.old)
            (event.Step function) x.0) }
        ensures lines { IfOk result (λ x. AreLinesOf (parts_of T.meaning self.old)
            (event.Step function) x.1) }
        ensures after { OnOk result (Leads (parts_of T.meaning self.old) (event.Step function)
            (parts_of T.meaning self.new)) }
        ensures given { OnOk result (IsGiven (parts_of T.meaning self.old) (event.Step function)) }
        ensures sent { OnOk result (SendsReadable (parts_of T.meaning self.old)
            (event.Step function)) }
    {
        self.functions
            .step(self.alloc, function, &mut self.services, self.times)
    }

    /// A function's next operation fails, and it ends.
    pub(crate) fn fail(&mut self, function: u64) -> Result<(Op, Lines), NoMemory>
        requires { FitsEvent (parts_of T.meaning self.old) (event.Fail function) }
        ensures op { IfOk result (λ x. IsOpOf (parts_of T.meaning self.old)
            (event.Fail function) x.0) }
        ensures lines { IfOk result (λ x. AreLinesOf (parts_of T.meaning self.old)
            (event.Fail function) x.1) }
        ensures after { OnOk result (Leads (parts_of T.meaning self.old) (event.Fail function)
            (parts_of T.meaning self.new)) }
        ensures given { OnOk result (IsGiven (parts_of T.meaning self.old) (event.Fail function)) }
        ensures sent { OnOk result (SendsReadable (parts_of T.meaning self.old)
            (event.Fail function)) }
    {
        self.services.arm();
        let made = self
            .functions
            .step(self.alloc, function, &mut self.services, self.times)?;
        self.services.calm();
        Ok(made)
    }
}
