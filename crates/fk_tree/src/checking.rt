//! Whether a request of an open session passes on the nodes.

ghost use Rattle.std.specs.Prelude.{◌≡◌, ℕ, Bool, None, IfErr, IfOk, OnOk};
ghost use Rattle.fk_tree.specs.Check.{at_place, check_create, check_open, HasFewParts, IsFault};
ghost use Rattle.fk_tree.specs.Rows.{shown};

use crate::codes::{create_code, delete_code, set_code};
use crate::fault::CheckFault;
use crate::parts::check_parts;
use crate::request::Request;
use crate::sequence::final_path;
use crate::slots::{Slots, node_at};
use fk_base::{Code, NoMemory, Path};
use std::alloc::Global;

pub fn check_open(
    alloc: Global,
    slots: &Slots,
    session: u32,
    request: &Request,
) -> Result<(), CheckFault>
    requires parts { HasFewParts request.now }
    ensures passes { (closed : ℕ → Bool) → OnOk result (check_open (shown slots.now.entries closed) session request.now ≡ None) }
    ensures refused { (closed : ℕ → Bool) → IfErr result (λ e. IsFault e (check_open (shown slots.now.entries closed) session request.now)) }
{
    match request {
        Request::Create { path, seq, .. } => answer(create_code_at(slots, path, *seq)?),
        Request::Set { path, version, .. } => answer(set_code(*version, node_at(slots, path))),
        Request::Delete { path, version } => {
            answer(delete_code(path, *version, node_at(slots, path)))
        }
        Request::Close { .. } => Ok(()),
        Request::Multi(parts) => check_parts(alloc, slots, session, parts.as_slice()),
    }
}

/// Passes without a code.
pub fn answer(code: Option<Code>) -> Result<(), CheckFault>
    ensures passes { OnOk result (code ≡ None) }
    ensures refused { IfErr result (λ e. IsFault e (at_place 0 code)) }
{
    match code {
        None => Ok(()),
        Some(code) => Err(CheckFault::Refused { code, place: 0 }),
    }
}

#[tactic(auto, using(crate::proofs::Refusing::create_code_is))]
fn create_code_at(slots: &Slots, path: &Path, seq: bool) -> Result<Option<Code>, NoMemory>
    ensures { (closed : ℕ → Bool) → IfOk result (λ c. c ≡ check_create (shown slots.now.entries closed) path.now seq) }
{
    let Some(parent) = path.parent()? else {
        return Ok(Some(Code::NodeExists));
    };
    let Some(parent) = node_at(slots, &parent) else {
        return Ok(Some(Code::NoNode));
    };
    let path = final_path(path, seq, parent.made)?;
    Ok(create_code(Some(parent), node_at(slots, &path).is_some()))
}
