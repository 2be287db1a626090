//! A client registers the watch of its read.

ghost use Rattle.std.specs.Prelude.{◌≡◌, ◌<◌, ◌^◌, ◌-◌, true, is_some, Option, Some, IfOk};
ghost use Rattle.fk_print.specs.declared.op.Op.TheVariants as op;
ghost use Rattle.fk_tree.specs.Ask.{path_asked};
ghost use Rattle.fk_tree.specs.Watch.{kind_asked};
ghost use Rattle.fk_queue.specs.Meaning as post;
ghost use Rattle.fk_user.specs.Meaning as user;
ghost use Rattle.fk_watch.specs.Kept.{watches_of};
ghost use Rattle.fk_wire.specs.declared.message.Tell.{Tell};
ghost use Rattle.fk_spec.specs.Client.{answered, keeping, watch_or};
ghost use Rattle.fk_client.specs.Acting.{GoesOn, KeepsPost, KeepsTable, KeepsUser, Prints};
ghost use Rattle.fk_client.specs.Known.{reading_as};
ghost use Rattle.fk_client.specs.Meaning.{asks_read, next_ask};
ghost use Rattle.fk_client.specs.Operation.{failed_if};
ghost use Rattle.fk_client.specs.Registering.{after_registered, query_in, register_for, watch_of};
ghost use Rattle.fk_client.specs.Services.{watches_by};
ghost use Rattle.fk_client.specs.Shown.{read_lines, seeing};
ghost use Rattle.fk_client.specs.Sighting.{sight_by};
ghost use Rattle.fk_client.specs.Standing.{client_of};

use crate::client::Client;
use crate::lists::hold;
use crate::reading::Reading;
use crate::want::{Want, want_of};
use fk_base::{Code, NoMemory, Path};
use fk_print::{Lines, Op, Shown};
use fk_tree::{Kind, Query};
use fk_watch::{Register, WatchTable};

// the kind of the watch that a read sets
fn kind_asked(query: &Query) -> Kind
    ensures { result ≡ kind_asked query.now }
{
    match query {
        Query::Get(_) | Query::Stat(_) => Kind::Data,
        Query::Ls(_) => Kind::Child,
    }
}

// the path that a query speaks of
pub fn path_asked(query: &Query) -> &Path
    ensures { result.now ≡ path_asked query.now }
{
    match query {
        Query::Get(path) | Query::Stat(path) | Query::Ls(path) => path,
    }
}

// what becomes of a registration for a read at a number
#[derive(Clone, Copy)]
enum Registered {
    Set(u64),
    Swept(u64),
    Failed,
}

// registers the watch of a query
fn register(
    watches: &mut WatchTable,
    session: u32,
    query: &Query,
    number: u64,
) -> Result<Registered, NoMemory>
    requires { (watches_of watches.old).given < 2 ^ 63 - 1 }
    ensures registered { let watch = watch_of session query.now in
        IfOk result (λ r. r ≡ register_for (watches_of watches.old) watch number) }
    ensures watches { let watch = watch_of session query.now in
        IfOk result (λ r. watches_of watches.new
        ≡ after_registered (watches_of watches.old) watch r) }
{
    match watches.register(session, path_asked(query), kind_asked(query), number) {
        Register::Done(watch) => Ok(Registered::Set(watch)),
        Register::Swept(tx) => Ok(Registered::Swept(tx)),
        Register::Failed => Ok(Registered::Failed),
        Register::NoMemory => Err(NoMemory),
    }
}

impl Client {
    /// It registers the watch of its read.
    #[tactic(auto, unfolding(crate::specs::Standing::client_of), using(crate::proofs::Asking::read_next))]
    pub(crate) fn watch(&mut self, watches: &mut WatchTable) -> Result<(Op, Lines), NoMemory>
        requires reading { is_some self.old.reading ≡ true }
        requires room { (watches_of watches.old).given < 2 ^ 63 - 1 }
        ensures op { let m = client_of self.old in
            let w = watches_of watches.old in
            (q : post.Meaning) (u : user.Meaning) (told : Option Tell)
            → IfOk result (λ r. r.0 ≡ failed_if w.armed
            (watch_or (sight_by q w u told m) m.client m.client.reading op.Idle)) }
        ensures lines { Prints result (client_of self.old) }
        ensures client { GoesOn result (client_of self.old) (client_of self.new) }
        ensures watches { IfOk result (λ r. watches_of watches.new
            ≡ watches_by (client_of self.old) r.0 (watches_of watches.old)) }
        ensures table { KeepsTable result }
        ensures post { KeepsPost result (client_of self.old) }
        ensures user { KeepsUser result }
    {
        let session = self.session;
        let command = self.place();
        let Some(reading) = self.reading.take() else {
            unreachable!();
        };
        let query = self.query()?;
        let number = self.seen.max(reading.stamp);
        match register(watches, session, &query, number)? {
            Registered::Set(watch) => {
                let lines = self.registered(reading, watch)?;
                Ok((
                    Op::WatchSet {
                        session,
                        command,
                        watch,
                    },
                    lines,
                ))
            }
            Registered::Swept(tx) => Ok((
                Op::WatchSwept {
                    session,
                    command,
                    tx,
                },
                Lines::new(self.alloc),
            )),
            Registered::Failed => {
                let lines = self.end(Shown::Plain(Code::SystemError))?;
                Ok((Op::WatchFault { session, command }, lines))
            }
        }
    }

    // its watch is held, and the read is answered
    #[tactic(auto, unfolding(crate::specs::Standing::client_of))]
    fn registered(&mut self, reading: Reading, watch: u64) -> Result<Lines, NoMemory>
        requires reads { asks_read (next_ask (client_of self.old)) ≡ true }
        ensures lines { let m = client_of self.old in
            IfOk result (λ ls. ls ≡ read_lines m (reading_as reading)) }
        ensures client { let m = client_of self.old in
            IfOk result (λ ls. client_of self.new
            ≡ seeing ls (answered (keeping watch m.client)) m) }
    {
        hold(&mut self.held, watch)?;
        self.answer(reading)
    }

    // the query of its next command, a read
    #[tactic(auto, unfolding(crate::specs::Standing::client_of))]
    fn query(&self) -> Result<Query, NoMemory>
        requires reads { asks_read (next_ask (client_of self.now)) ≡ true }
        ensures { IfOk result (λ q. query_in (next_ask (client_of self.now)) ≡ Some q) }
    {
        let Some(command) = self.next() else {
            unreachable!();
        };
        match want_of(self.alloc, command)? {
            Want::Reads(query, _) => Ok(query),
            Want::Writes(_) => unreachable!(),
            Want::Unfit => unreachable!(),
        }
    }
}
