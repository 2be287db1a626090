//! A step of a client.

ghost use Rattle.std.specs.Prelude.{◌≡◌, ◌++◌, true, Option, IfOk, OnOk};
ghost use Rattle.fk_queue.specs.Lanes.{is_session};
ghost use Rattle.fk_queue.specs.Posts.{post_of};
ghost use Rattle.fk_queue.specs.declared.lane.Lane.TheVariants as lane;
ghost use Rattle.fk_user.specs.Stored.{store_of};
ghost use Rattle.fk_watch.specs.Kept.{watches_of};
ghost use Rattle.fk_watch.specs.Services.{services_of};
ghost use Rattle.fk_wire.specs.declared.message.Tell.{Tell};
ghost use Rattle.fk_client.specs.Fit.{IsFit};
ghost use Rattle.fk_client.specs.Idle.{IdleIsExact, is_idle};
ghost use Rattle.fk_client.specs.Operation.{step_op};
ghost use Rattle.fk_client.specs.Services.{post_by, table_by, user_by, watches_by};
ghost use Rattle.fk_client.specs.Shown.{lines_in, made_by, printed, ready_lines};
ghost use Rattle.fk_client.specs.Sighting.{sight_by};
ghost use Rattle.fk_client.specs.Standing.{client_of};
ghost use Rattle.fk_client.specs.Steps.{Steps};
ghost use Rattle.fk_client.specs.Told.{IsTold};

use crate::client::Client;
use crate::replying::flush;
use fk_base::NoMemory;
use fk_print::{Lines, Op};
use fk_queue::{Lane, Post};
use fk_store::Table;
use fk_user::UserStore;
use fk_watch::WatchTable;

impl Client {
    /// Whether it has nothing to do.
    #[tactic(auto, unfolding(crate::specs::Standing::client_of))]
    pub fn idle(&self, post: &Post) -> bool
        requires { is_session (post_of post.now).sessions self.now.session ≡ true }
        ensures idle { result ≡ is_idle (post_of post.now) (client_of self.now) }
        ensures exact { IdleIsExact (post_of post.now) (client_of self.now) }
    {
        if self.owed.is_some() || post.head(Lane::Inbox(self.session)).is_some() {
            return false;
        }
        if self.target().is_some() || self.reading.is_some() {
            return false;
        }
        self.waits()
    }

    // the operation, before what is ready is printed
    #[tactic(auto, unfolding(crate::specs::Standing::client_of))]
    fn act<T: Table>(
        &mut self,
        table: &mut T,
        post: &mut Post,
        watches: &mut WatchTable,
        user: &mut UserStore,
    ) -> Result<(Op, Lines), NoMemory>
        requires { IsFit (T.meaning table.old) (post_of post.old) (watches_of watches.old)
            (client_of self.old) }
        ensures op { let q = post_of post.old in
            (told : Option Tell) → IsTold (q.lanes (lane.Inbox self.old.session)).waiting told
            → IfOk result (λ r. r.0 ≡ step_op (T.meaning table.old) q (watches_of watches.old)
            (store_of user.old) told (client_of self.old)) }
        ensures lines { let q = post_of post.old in
            let m = client_of self.old in
            (told : Option Tell) → IsTold (q.lanes (lane.Inbox self.old.session)).waiting told
            → IfOk result (λ r. r.1
            ≡ lines_in (sight_by q (watches_of watches.old) (store_of user.old) told m) r.0 m) }
        ensures client { let q = post_of post.old in
            (told : Option Tell) → IsTold (q.lanes (lane.Inbox self.old.session)).waiting told
            → IfOk result (λ r. client_of self.new ≡ made_by q (watches_of watches.old)
            (store_of user.old) told r.0 (client_of self.old)) }
        ensures table { IfOk result (λ r. T.meaning table.new
            ≡ table_by r.0 (T.meaning table.old)) }
        ensures post { IfOk result (λ r. post_of post.new
            ≡ post_by (client_of self.old) r.0 (post_of post.old)) }
        ensures watches { IfOk result (λ r. watches_of watches.new
            ≡ watches_by (client_of self.old) r.0 (watches_of watches.old)) }
        ensures user { IfOk result (λ r. store_of user.new ≡ user_by r.0 (store_of user.old)) }
    {
        if let Some(ping) = self.owed {
            return self.pong(table, ping);
        }
        if let Some(number) = post.head(Lane::Inbox(self.session)) {
            return self.take(post, number);
        }
        if let Some(target) = self.target() {
            return self.look(user, target);
        }
        if self.reading.is_some() {
            return self.watch(watches);
        }
        self.begin(post, user)
    }

    /// It makes its operation, and prints what that and the replies that are ready say.
    #[tactic(auto, unfolding(crate::specs::Standing::client_of))]
    pub fn step<T: Table>(
        &mut self,
        table: &mut T,
        post: &mut Post,
        watches: &mut WatchTable,
        user: &mut UserStore,
    ) -> Result<(Op, Lines), NoMemory>
        requires { IsFit (T.meaning table.old) (post_of post.old) (watches_of watches.old)
            (client_of self.old) }
        ensures { IfOk result (λ r. Steps
            (services_of (T.meaning table.old) post.old watches.old user.old)
            (services_of (T.meaning table.new) post.new watches.new user.new)
            (client_of self.old) (client_of self.new) r.0 r.1) }
    {
        let (op, mut lines) = self.act(table, post, watches, user)?;
        self.flush(&mut lines)?;
        Ok((op, lines))
    }

    // prints the replies that are ready
    #[tactic(auto, unfolding(crate::specs::Standing::client_of))]
    fn flush(&mut self, lines: &mut Lines) -> Result<(), NoMemory>
        ensures lines { OnOk result (lines.new ≡ lines.old ++ ready_lines (client_of self.old)) }
        ensures client { OnOk result (client_of self.new ≡ printed (client_of self.old)) }
    {
        flush(
            self.alloc,
            self.session,
            self.commands.as_slice(),
            &mut self.sent,
            &mut self.seen,
            lines,
        )
    }
}
