//! The messages at the heads of lanes.

ghost use Rattle.std.specs.Prelude.{◌≡◌, true, is_some, IfOk, Some};
ghost use Rattle.fk_queue.specs.Letters.{head_number};
ghost use Rattle.fk_queue.specs.Meaning.{has_lane};
ghost use Rattle.fk_queue.specs.Posts.{post_of};
ghost use Rattle.fk_wire.specs.NoteText.{IsNoteText};
ghost use Rattle.fk_wire.specs.PushedText.{IsPushedText};
ghost use Rattle.fk_wire.specs.SentText.{IsSentText};
ghost use Rattle.fk_wire.specs.declared.message.Note.{Note};
ghost use Rattle.fk_wire.specs.declared.message.Pushed.{Pushed};
ghost use Rattle.fk_wire.specs.declared.message.Sent.{Sent};
ghost use Rattle.fk_engine.specs.Heads.{IsHead, IsReadable};

use fk_base::NoMemory;
use fk_client::read_head;
use fk_queue::{Lane, Post};
use fk_wire::{Note, Pushed, Reader, Sent, note_of, pushed_of, sent_of};
use std::alloc::Global;

/// The request at the head of a session's lane.
pub fn sent_at(
    alloc: Global,
    post: &Post,
    lane: Lane,
    reader: &mut Reader,
) -> Result<Sent, NoMemory>
    requires lane { has_lane (post_of post.now) lane ≡ true }
    requires head { is_some (head_number ((post_of post.now).lanes lane)) ≡ true }
    requires readable { IsReadable IsSentText ((post_of post.now).lanes lane).waiting }
    ensures told { IfOk result (λ m. IsHead IsSentText ((post_of post.now).lanes lane).waiting
        (Some m)) }
    ensures back { (m : Sent) → IsHead IsSentText ((post_of post.now).lanes lane).waiting (Some m)
        → IfOk result (λ n. n ≡ m) }
{
    read_head(post, lane, reader)?;
    sent_of(alloc, reader)
}

/// The push at the head of the leader's lane.
pub fn pushed_at(
    alloc: Global,
    post: &Post,
    lane: Lane,
    reader: &mut Reader,
) -> Result<Pushed, NoMemory>
    requires lane { has_lane (post_of post.now) lane ≡ true }
    requires head { is_some (head_number ((post_of post.now).lanes lane)) ≡ true }
    requires readable { IsReadable IsPushedText ((post_of post.now).lanes lane).waiting }
    ensures told { IfOk result (λ m. IsHead IsPushedText ((post_of post.now).lanes lane).waiting
        (Some m)) }
    ensures back { (m : Pushed) → IsHead IsPushedText ((post_of post.now).lanes lane).waiting
        (Some m) → IfOk result (λ n. n ≡ m) }
{
    read_head(post, lane, reader)?;
    pushed_of(alloc, reader)
}

/// The note at the head of the watch lane.
pub fn note_at(
    alloc: Global,
    post: &Post,
    lane: Lane,
    reader: &mut Reader,
) -> Result<Note, NoMemory>
    requires lane { has_lane (post_of post.now) lane ≡ true }
    requires head { is_some (head_number ((post_of post.now).lanes lane)) ≡ true }
    requires readable { IsReadable IsNoteText ((post_of post.now).lanes lane).waiting }
    ensures told { IfOk result (λ m. IsHead IsNoteText ((post_of post.now).lanes lane).waiting
        (Some m)) }
    ensures back { (m : Note) → IsHead IsNoteText ((post_of post.now).lanes lane).waiting (Some m)
        → IfOk result (λ n. n ≡ m) }
{
    read_head(post, lane, reader)?;
    note_of(alloc, reader)
}
