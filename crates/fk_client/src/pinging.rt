//! A client answers a ping.

ghost use Rattle.std.specs.Prelude.{◌≡◌, [], true, is_some, Some, IfOk};
ghost use Rattle.fk_print.specs.declared.op.Op.TheVariants as op;
ghost use Rattle.fk_client.specs.Acting.{GoesOn, Prints};
ghost use Rattle.fk_client.specs.Operation.{failed_if};
ghost use Rattle.fk_client.specs.Services.{table_by};
ghost use Rattle.fk_client.specs.Standing.{client_of};

use crate::client::Client;
use fk_base::NoMemory;
use fk_print::{Lines, Op};
use fk_store::{Table, Transact, Write};

impl Client {
    /// It answers the ping that it owes.
    #[tactic(auto, unfolding(crate::specs::Standing::client_of), using(crate::proofs::Numbers::without_one))]
    pub(crate) fn pong<T: Table>(
        &mut self,
        table: &mut T,
        ping: u64,
    ) -> Result<(Op, Lines), NoMemory>
        requires owed { self.old.owed ≡ Some ping }
        requires session { is_some ((T.meaning table.old).sessions self.old.session) ≡ true }
        ensures op { let t = T.meaning table.old in
            IfOk result (λ r. r.0 ≡ failed_if t.armed (op.Pong self.old.session ping)) }
        ensures lines { Prints result (client_of self.old) }
        ensures client { GoesOn result (client_of self.old) (client_of self.new) }
        ensures table { let t = T.meaning table.old in
            IfOk result (λ r. T.meaning table.new ≡ table_by r.0 t) }
    {
        let session = self.session;
        let writes = [Write::Pong { session, n: ping }];
        match table.transact(&[], &writes) {
            Transact::Done => {
                self.owed = None;
                Ok((Op::Pong { session, ping }, Lines::new(self.alloc)))
            }
            Transact::Missed { .. } => unreachable!(),
            Transact::Failed => Ok((Op::PongFault { session }, Lines::new(self.alloc))),
            Transact::NoMemory => Err(NoMemory),
        }
    }
}
