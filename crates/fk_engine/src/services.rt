//! The four services.

ghost use Rattle.std.specs.Prelude.{◌≡◌};
ghost use Rattle.fk_engine.specs.Serving.{armed, calmed, services_of};

use fk_queue::Post;
use fk_store::Table;
use fk_user::UserStore;
use fk_watch::WatchTable;

/// The conditional table, the queues, the table of watches and the user storage.
#[derive(Drop)]
pub struct Services<T: Table> {
    pub table: T,
    pub post: Post,
    pub watches: WatchTable,
    pub user: UserStore,
}

impl<T: Table> Services<T> {
    /// The next call of each service fails.
    pub fn arm(&mut self)
        ensures { services_of T.meaning self.new ≡ armed (services_of T.meaning self.old) }
    {
        self.table.arm();
        self.post.arm();
        self.watches.arm();
        self.user.arm();
    }

    /// The next call of no service fails.
    pub fn calm(&mut self)
        ensures { services_of T.meaning self.new ≡ calmed (services_of T.meaning self.old) }
    {
        self.table.calm();
        self.post.calm();
        self.watches.calm();
        self.user.calm();
    }
}
