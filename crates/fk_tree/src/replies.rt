//! What an applied request is answered.

ghost use Rattle.std.specs.Prelude.{◌≡◌, IfOk};
ghost use Rattle.fk_tree.specs.Apply.{part_replies, part_reply_of, reply_of};

use crate::applied::{Applied, Made};
use crate::lists::Replies;
use crate::reply::{PartReply, Reply};
use crate::request::{Part, Request};
use fk_base::NoMemory;
use std::alloc::Global;

/// The reply to an applied request.
pub fn reply_to(alloc: Global, applied: &Applied) -> Result<Reply, NoMemory>
    ensures { IfOk result (λ r. r ≡ reply_of applied.now) }
{
    match &applied.request {
        Request::Create { .. } => Ok(Reply::Created(applied.name.copy()?)),
        Request::Set { .. } => Ok(Reply::Version(applied.version)),
        Request::Delete { .. } => Ok(Reply::Deleted),
        Request::Close { .. } => Ok(Reply::Closed),
        Request::Multi(parts) => Ok(Reply::Multi(replies(
            alloc,
            parts.as_slice(),
            applied.made.as_slice(),
        )?)),
    }
}

fn part_reply(part: &Part, made: &Made) -> Result<PartReply, NoMemory>
    ensures { IfOk result (λ r. r ≡ part_reply_of part.now made.now) }
{
    match part {
        Part::Create { .. } => Ok(PartReply::Created(made.name.copy()?)),
        Part::Set { .. } => Ok(PartReply::Version(made.version)),
        Part::Delete { .. } => Ok(PartReply::Deleted),
    }
}

#[tactic(auto, using(crate::proofs::Listing::replies_step))]
fn replies(alloc: Global, parts: &[Part], made: &[Made]) -> Result<Replies, NoMemory>
    ensures { IfOk result (λ r. r ≡ part_replies parts.now made.now) }
{
    let mut replies = Replies::new(alloc);
    'answering: for (place, part) in parts.iter().enumerate() {
        let Some(made) = made.get(place) else {
            return Ok(replies);
        };
        replies.push(part_reply(part, made)?)?;
    }
    Ok(replies)
}
