//! The parts of a multi, each on the nodes after the parts before it.

ghost use Rattle.std.specs.Prelude.{◌≡◌, ◌≤◌, ◌++◌, ℕ, Bool, length, false, None, IfErr, IfOk, OnOk};
ghost use Rattle.std.specs.Option.{option_copied};
ghost use Rattle.fk_tree.specs.Check.{check_create, check_part, check_parts, IsFault};
ghost use Rattle.fk_tree.specs.Edit.{after_edits, part_edits};
ghost use Rattle.fk_tree.specs.Fill.{fill_part, fill_parts, version_of};
ghost use Rattle.fk_tree.specs.Rows.{shown};

use crate::applied::Made;
use crate::codes::{create_code, delete_code, set_code};
use crate::edit::Edit;
use crate::effect_list::push_part;
use crate::fault::CheckFault;
use crate::lists::{Edits, Mades};
use crate::node::Node;
use crate::node_edit::up;
use crate::request::Part;
use crate::slots::Slots;
use crate::writes::node_after;
use fk_base::{Code, NoMemory, Path};
use std::alloc::Global;

/// The first part that is refused, with its place from 1.
#[tactic(auto, using(crate::proofs::Parting::check_stops, crate::proofs::Parting::check_goes))]
pub fn check_parts(
    alloc: Global,
    slots: &Slots,
    session: u32,
    parts: &[Part],
) -> Result<(), CheckFault>
    requires few { length parts.now ≤ 16 }
    ensures passes { (closed : ℕ → Bool) → OnOk result (check_parts (shown slots.now.entries closed) session 1 parts.now ≡ None) }
    ensures refused { (closed : ℕ → Bool) → IfErr result (λ e. IsFault e (check_parts (shown slots.now.entries closed) session 1 parts.now)) }
{
    let mut edits = Edits::new(alloc);
    let mut place = 1;
    'checking: for part in parts {
        match part_code(slots, edits.as_slice(), part)? {
            None => {}
            Some(code) => return Err(CheckFault::Refused { code, place }),
        }
        push_after(slots, &mut edits, session, part)?;
        place += 1;
    }
    Ok(())
}

/// What each part comes to.
#[tactic(auto, using(crate::proofs::Parting::fill_goes))]
pub fn fill_parts(
    alloc: Global,
    slots: &Slots,
    session: u32,
    parts: &[Part],
) -> Result<Mades, NoMemory>
    ensures { (closed : ℕ → Bool) → IfOk result (λ ms. ms ≡ fill_parts (shown slots.now.entries closed) session parts.now) }
{
    let mut edits = Edits::new(alloc);
    let mut made = Mades::new(alloc);
    'filling: for part in parts {
        made.push(part_made(alloc, slots, edits.as_slice(), part)?)?;
        push_after(slots, &mut edits, session, part)?;
    }
    Ok(made)
}

// the edits of a part after those of the parts before it
fn push_after(slots: &Slots, edits: &mut Edits, session: u32, part: &Part) -> Result<(), NoMemory>
    ensures { (closed : ℕ → Bool) → OnOk result (edits.new ≡ edits.old ++ part_edits session part.now (fill_part (after_edits (shown slots.now.entries closed) 0 0 edits.old) part.now)) }
{
    let made = part_made(edits.allocator(), slots, edits.as_slice(), part)?;
    push_part(edits, session, part, &made)
}

// the code of a part behind these edits
fn part_code(slots: &Slots, edits: &[Edit], part: &Part) -> Result<Option<Code>, NoMemory>
    ensures { (closed : ℕ → Bool) → IfOk result (λ c. c ≡ check_part (after_edits (shown slots.now.entries closed) 0 0 edits.now) part.now) }
{
    match part {
        Part::Create { path, .. } => code_under_parent(slots, edits, path),
        Part::Set { path, version, .. } => {
            let node = node_after(slots, path, edits, 0, 0)?;
            Ok(set_code(*version, node.as_ref()))
        }
        Part::Delete { path, version } => {
            let node = node_after(slots, path, edits, 0, 0)?;
            Ok(delete_code(path, *version, node.as_ref()))
        }
    }
}

fn code_under_parent(slots: &Slots, edits: &[Edit], path: &Path) -> Result<Option<Code>, NoMemory>
    ensures { (closed : ℕ → Bool) → IfOk result (λ c. c ≡ check_create (after_edits (shown slots.now.entries closed) 0 0 edits.now) path.now false) }
{
    let Some(parent) = path.parent()? else {
        return Ok(Some(Code::NodeExists));
    };
    let parent = node_after(slots, &parent, edits, 0, 0)?;
    let taken = node_after(slots, path, edits, 0, 0)?.is_some();
    Ok(create_code(parent.as_ref(), taken))
}

// what a part comes to behind these edits
fn part_made(alloc: Global, slots: &Slots, edits: &[Edit], part: &Part) -> Result<Made, NoMemory>
    ensures { (closed : ℕ → Bool) → IfOk result (λ m. m ≡ fill_part (after_edits (shown slots.now.entries closed) 0 0 edits.now) part.now) }
{
    match part {
        Part::Create { path, .. } => Ok(Made {
            name: path.copy()?,
            version: 0,
        }),
        Part::Set { path, .. } => {
            let node = node_after(slots, path, edits, 0, 0)?;
            Ok(Made {
                name: Path::root(alloc),
                version: up(version_of(node.as_ref())),
            })
        }
        Part::Delete { .. } => Ok(Made {
            name: Path::root(alloc),
            version: 0,
        }),
    }
}

/// The version of a node, else 0.
pub fn version_of(node: Option<&Node>) -> u32
    ensures { result ≡ version_of (option_copied node.entry) }
{
    node.map_or(0, |node| node.version)
}
