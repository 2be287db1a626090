//! The post: all lanes.

ghost use Rattle.std.specs.Prelude.{◌≡◌, ◌+◌, ◌*◌, length};
ghost use Rattle.fk_region.specs.Kept.{used_by};
ghost use Rattle.fk_queue.specs.declared.lane.Lane.{Lane};
ghost use Rattle.fk_queue.specs.Keeping.{HasOneEach};
ghost use Rattle.fk_queue.specs.Letters.{IsNumbered};
ghost use Rattle.fk_queue.specs.Meaning.{blocks_among, waiting_among};
ghost use Rattle.fk_queue.specs.Places.{lanes_of, slips_of};
ghost use Rattle.fk_queue.specs.Slips.{tickets_in};

use crate::answer::{Ack, Posted};
use crate::lane::{Lane, place_of};
use crate::queue::{Queue, new_queues};
use fk_base::NoMemory;
use fk_region::{Region, Ticket};
use std::alloc::Global;

/// The lanes of the service, over one region that keeps the messages of all. A call that may fail answers
/// `Failed` exactly where the post is armed; it then changes nothing else, raises the count of faults and
/// calms the post.
#[derive(Drop)]
pub struct Post {
    queues: Vec<Queue>,
    region: Region,
    sessions: u32,
    // how many messages wait in all lanes
    waiting: u64,
    armed: bool,
    faults: u64,
    ghost sized: { length queues.items ≡ 2 * sessions + 2 },
    ghost counted: { waiting
        ≡ waiting_among sessions (lanes_of sessions queues.items region.kept) },
    ghost numbered: { (l : Lane) → IsNumbered (lanes_of sessions queues.items region.kept l) },
    ghost backed: { HasOneEach sessions (λ l. tickets_in (slips_of sessions queues.items l))
        region.kept },
    ghost measured: { used_by region.kept
        ≡ blocks_among sessions (lanes_of sessions queues.items region.kept) },
}

impl Post {
    ghost use Rattle.std.specs.Prelude.{◌-◌, ◌^◌, ◌<◌, true, false, is_some, IfOk, OnOk, OnErr};
    ghost use Rattle.fk_queue.specs.Answers.{is_number};
    ghost use Rattle.fk_queue.specs.Keeping.{IsFirst};
    ghost use Rattle.fk_queue.specs.Letters.{head_number};
    ghost use Rattle.fk_queue.specs.Meaning.{called, has_lane, popped, pushed};
    ghost use Rattle.fk_queue.specs.Posts.{post_of, region_of, tickets_of};

    // whether this call fails
    #[tactic(auto, unfolding(crate::specs::Posts::post_of, crate::specs::Posts::region_of))]
    fn fails(&mut self) -> bool
        ensures answer { result ≡ (post_of self.old).armed }
        ensures after { post_of self.new ≡ called (post_of self.old) }
        ensures region { region_of self.new ≡ region_of self.old }
        ensures same { result ≡ false → self.new ≡ self.old }
    {
        if self.armed {
            self.armed = false;
            self.faults = self.faults.saturating_add(1);
            return true;
        }
        false
    }

    // adds a message at the end of a lane, and gives its number
    #[tactic(auto, unfolding(crate::specs::Posts::post_of, crate::specs::Posts::region_of))]
    fn add(&mut self, lane: Lane, message: &[u8]) -> Result<u64, NoMemory>
        requires message { 0 < length message.now }
        requires lane { has_lane (post_of self.old) lane ≡ true }
        requires room { ((post_of self.old).lanes lane).given < 2 ^ 63 - 1 }
        ensures number { IfOk result (λ n. n ≡ ((post_of self.old).lanes lane).given + 1) }
        ensures ok { OnOk result (post_of self.new ≡ pushed lane message.now (post_of self.old)) }
        ensures err { OnErr result (post_of self.new ≡ post_of self.old) }
        ensures region { OnErr result (region_of self.new ≡ region_of self.old) }
    {
        if self.waiting == u64::MAX {
            return Err(NoMemory);
        }
        match self.queues[place_of(lane)].push(&mut self.region, message) {
            Ok(number) => {
                self.waiting += 1;
                Ok(number)
            }
            Err(NoMemory) => Err(NoMemory),
        }
    }

    // removes a lane's head
    #[tactic(auto, unfolding(crate::specs::Posts::post_of))]
    fn remove(&mut self, lane: Lane)
        requires lane { has_lane (post_of self.old) lane ≡ true }
        requires head { is_some (head_number ((post_of self.old).lanes lane)) ≡ true }
        ensures { post_of self.new ≡ popped lane (post_of self.old) }
    {
        self.queues[place_of(lane)].pop(&mut self.region);
        self.waiting -= 1;
    }

    // whether the head has this number
    fn is_head(&self, lane: Lane, number: u64) -> bool
        requires { has_lane (post_of self.now) lane ≡ true }
        ensures { result ≡ is_number number (head_number ((post_of self.now).lanes lane)) }
    {
        match self.head(lane) {
            None => false,
            Some(head) => head == number,
        }
    }
}

impl Post {
    ghost use Rattle.std.specs.Prelude.{◌-◌, ◌^◌, ◌<◌, true, is_some, Some, IfOk};
    ghost use Rattle.fk_region.specs.Kept.{bytes_under};
    ghost use Rattle.fk_queue.specs.Answers.{IsPosted, ack_of, after_ack, after_push};
    ghost use Rattle.fk_queue.specs.Keeping.{AreKept, HasOneEach, IsFirst, StaysUnlessAt};
    ghost use Rattle.fk_queue.specs.Letters.{head_bytes, head_number};
    ghost use Rattle.fk_queue.specs.Meaning.{armed, blocks_in, calmed, has_lane, new_post, waiting_in};
    ghost use Rattle.fk_queue.specs.Posts.{post_of, region_of, tickets_of};

    /// A new post for sessions 1 to `sessions`: all lanes are empty, and it is calm.
    #[tactic(auto, unfolding(crate::specs::Posts::post_of))]
    pub fn new(alloc: Global, sessions: u32) -> Result<Post, NoMemory>
        ensures { IfOk result (λ p. post_of p ≡ new_post sessions) }
    {
        Ok(Post {
            queues: new_queues(alloc, 2 * sessions as usize + 2)?,
            region: Region::new(alloc),
            sessions,
            waiting: 0,
            armed: false,
            faults: 0,
        })
    }

    /// Adds a message at the end of a lane. May fail. It takes all its memory first, and refused it leaves
    /// the region as it was. A post holds at most 2^64 - 1 messages, and has no memory for more.
    pub fn push(&mut self, lane: Lane, message: &[u8]) -> Posted
        requires message { 0 < length message.now }
        requires lane { has_lane (post_of self.old) lane ≡ true }
        requires room { ((post_of self.old).lanes lane).given < 2 ^ 63 - 1 }
        ensures answer { IsPosted (post_of self.old) lane result }
        ensures after { post_of self.new ≡ after_push (post_of self.old) lane message.now result }
        ensures region { StaysUnlessAt result (region_of self.old) (region_of self.new) }
    {
        if self.fails() {
            return Posted::Failed;
        }
        match self.add(lane, message) {
            Ok(number) => Posted::At(number),
            Err(NoMemory) => Posted::NoMemory,
        }
    }

    /// The number of a lane's head.
    #[tactic(auto, unfolding(crate::specs::Posts::post_of))]
    pub fn head(&self, lane: Lane) -> Option<u64>
        requires { has_lane (post_of self.now) lane ≡ true }
        ensures { result ≡ head_number ((post_of self.now).lanes lane) }
    {
        self.queues[place_of(lane)].head()
    }

    /// The ticket for a head's message.
    #[tactic(auto, unfolding(crate::specs::Posts::post_of, crate::specs::Posts::region_of, crate::specs::Posts::tickets_of))]
    pub fn head_ticket(&self, lane: Lane) -> &Ticket
        requires lane { has_lane (post_of self.now) lane ≡ true }
        requires head { is_some (head_number ((post_of self.now).lanes lane)) ≡ true }
        ensures head { IsFirst result.now (tickets_of self.now lane) }
        ensures bytes { bytes_under result.now (region_of self.now).kept
            ≡ Some (head_bytes ((post_of self.now).lanes lane)) }
    {
        self.queues[place_of(lane)].head_ticket()
    }

    /// The length of a head's message, in bytes.
    #[tactic(auto, unfolding(crate::specs::Posts::region_of))]
    pub fn head_len(&self, lane: Lane) -> usize
        requires lane { has_lane (post_of self.now) lane ≡ true }
        requires head { is_some (head_number ((post_of self.now).lanes lane)) ≡ true }
        ensures { result ≡ length (head_bytes ((post_of self.now).lanes lane)) }
    {
        self.region.len(self.head_ticket(lane))
    }

    /// Moves a head's message into a slice of its length.
    #[tactic(auto, unfolding(crate::specs::Posts::region_of))]
    pub fn copy_head(&self, lane: Lane, into: &mut [u8])
        requires lane { has_lane (post_of self.now) lane ≡ true }
        requires head { is_some (head_number ((post_of self.now).lanes lane)) ≡ true }
        requires len { length into.old ≡ length (head_bytes ((post_of self.now).lanes lane)) }
        ensures { into.new ≡ head_bytes ((post_of self.now).lanes lane) }
    {
        self.region.copy_out(self.head_ticket(lane), into);
    }

    /// Removes a lane's head where it has this number, and gives its ticket back. May fail.
    pub fn ack(&mut self, lane: Lane, number: u64) -> Ack
        requires { has_lane (post_of self.old) lane ≡ true }
        ensures answer { result ≡ ack_of (post_of self.old) lane number }
        ensures after { post_of self.new ≡ after_ack (post_of self.old) lane result }
    {
        if self.fails() {
            return Ack::Failed;
        }
        if !self.is_head(lane, number) {
            return Ack::NotHead;
        }
        self.remove(lane);
        Ack::Acked
    }

    /// How many messages wait in all lanes.
    #[tactic(auto, unfolding(crate::specs::Posts::post_of))]
    pub fn waiting(&self) -> u64
        ensures { result ≡ waiting_in (post_of self.now) }
    {
        self.waiting
    }

    /// How many blocks of the region hold the messages that wait.
    #[tactic(auto, unfolding(crate::specs::Posts::post_of, crate::specs::Posts::region_of))]
    pub fn used(&self) -> usize
        ensures blocks { result ≡ blocks_in (post_of self.now) }
        ensures region { result ≡ used_by (region_of self.now).kept }
    {
        self.region.used()
    }

    /// The region: it keeps the messages that wait in all lanes, each under a ticket of its own, and
    /// nothing else.
    #[tactic(auto, unfolding(crate::specs::Posts::post_of, crate::specs::Posts::region_of, crate::specs::Posts::tickets_of))]
    pub fn region(&self) -> &Region
        ensures same { result.now ≡ region_of self.now }
        ensures tickets { HasOneEach (post_of self.now).sessions (tickets_of self.now)
            result.now.kept }
        ensures bytes { (l : Lane) → AreKept result.now.kept (tickets_of self.now l)
            ((post_of self.now).lanes l) }
    {
        &self.region
    }

    /// The next call that may fail does.
    #[tactic(auto, unfolding(crate::specs::Posts::post_of))]
    pub fn arm(&mut self)
        ensures { post_of self.new ≡ armed (post_of self.old) }
    {
        self.armed = true;
    }

    /// The next call doesn't fail.
    #[tactic(auto, unfolding(crate::specs::Posts::post_of))]
    pub fn calm(&mut self)
        ensures { post_of self.new ≡ calmed (post_of self.old) }
    {
        self.armed = false;
    }

    /// How often a call failed.
    #[tactic(auto, unfolding(crate::specs::Posts::post_of))]
    pub fn faults(&self) -> u64
        ensures { result ≡ (post_of self.now).faults }
    {
        self.faults
    }

    /// In each lane the numbers of the messages are consecutive, and the last one is the lane's count.
    #[tactic(auto, unfolding(crate::specs::Posts::post_of))]
    pub fn numbered(&self)
        ensures { (l : Lane) → IsNumbered ((post_of self.now).lanes l) }
    {}
}
