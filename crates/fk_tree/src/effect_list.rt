//! The edits of an applied request.

ghost use Rattle.std.specs.Prelude.{◌≡◌, ◌++◌, IfOk, MatchOption, OnOk, false, true};
ghost use Rattle.fk_base.specs.Path.{is_root, last_name, parent};
ghost use Rattle.fk_tree.specs.Edit.{create_edits, delete_edits, deletes_edits, effects, owner_for, part_edits, parts_edits, set_edits};

use crate::applied::{Applied, Made};
use crate::edit::{Edit, What};
use crate::lists::Edits;
use crate::request::{Part, Request};
use fk_base::{Bytes, NoMemory, Path, Text};
use std::alloc::Global;

/// The edits of an applied request, node by node, in their order. Where a multi has more parts than
/// entries of `made`, or fewer, what is over counts for nothing.
pub fn effects(alloc: Global, applied: &Applied) -> Result<Edits, NoMemory>
    ensures { IfOk result (λ edits. edits ≡ effects applied.now) }
{
    let mut edits = Edits::new(alloc);
    match &applied.request {
        Request::Create { bytes, eph, .. } => {
            push_create(
                &mut edits,
                &applied.name,
                bytes,
                owner(applied.session, *eph),
            )?
        }
        Request::Set { path, bytes, .. } => push_set(&mut edits, path, bytes)?,
        Request::Delete { path, .. } => push_delete(&mut edits, path)?,
        Request::Close { .. } => push_deletes(&mut edits, applied.gone.as_slice())?,
        Request::Multi(parts) => push_parts(
            &mut edits,
            applied.session,
            parts.as_slice(),
            applied.made.as_slice(),
        )?,
    }
    Ok(edits)
}

// the owner of a node that a session makes
pub fn owner(session: u32, eph: bool) -> u32
    ensures { result ≡ owner_for session eph }
{
    if eph { session } else { 0 }
}

// the parent and the last name, which the root doesn't have
pub fn parent_and_name(path: &Path) -> Result<Option<(Path, Text)>, NoMemory>
    ensures { IfOk result (λ o. MatchOption o (is_root path.now ≡ true)
        (λ c. (is_root path.now ≡ false) × (c.0 ≡ parent path.now) × (c.1 ≡ last_name path.now))) }
{
    match last_name(path) {
        None => Ok(None),
        Some(name) => match path.parent()? {
            None => Ok(None),
            Some(parent) => Ok(Some((parent, name.copy()?))),
        },
    }
}

// the last name, which the root doesn't have
#[tactic(auto, using(crate::proofs::Listing::last_is))]
fn last_name(path: &Path) -> Option<&Text>
    ensures { MatchOption result (is_root path.now ≡ true)
        (λ n. (is_root path.now ≡ false) × (n.now ≡ last_name path.now)) }
{
    match path.as_slice() {
        [] => None,
        [.., name] => Some(name),
    }
}

fn push_create(edits: &mut Edits, path: &Path, bytes: &Bytes, owner: u32) -> Result<(), NoMemory>
    ensures { OnOk result (edits.new ≡ edits.old ++ create_edits path.now bytes.now owner) }
{
    edits.push(Edit {
        path: path.copy()?,
        what: What::Make {
            bytes: bytes.copy()?,
            owner,
        },
    })?;
    if let Some((parent, name)) = parent_and_name(path)? {
        edits.push(Edit {
            path: parent,
            what: What::AddName(name),
        })?;
    }
    Ok(())
}

fn push_set(edits: &mut Edits, path: &Path, bytes: &Bytes) -> Result<(), NoMemory>
    ensures { OnOk result (edits.new ≡ edits.old ++ set_edits path.now bytes.now) }
{
    edits.push(Edit {
        path: path.copy()?,
        what: What::Replace(bytes.copy()?),
    })
}

fn push_delete(edits: &mut Edits, path: &Path) -> Result<(), NoMemory>
    ensures { OnOk result (edits.new ≡ edits.old ++ delete_edits path.now) }
{
    edits.push(Edit {
        path: path.copy()?,
        what: What::Remove,
    })?;
    if let Some((parent, name)) = parent_and_name(path)? {
        edits.push(Edit {
            path: parent,
            what: What::DropName(name),
        })?;
    }
    Ok(())
}

fn push_deletes(edits: &mut Edits, paths: &[Path]) -> Result<(), NoMemory>
    ensures { OnOk result (edits.new ≡ edits.old ++ deletes_edits paths.now) }
{
    'deleting: for path in paths {
        push_delete(edits, path)?;
    }
    Ok(())
}

pub fn push_part(edits: &mut Edits, session: u32, part: &Part, made: &Made) -> Result<(), NoMemory>
    ensures { OnOk result (edits.new ≡ edits.old ++ part_edits session part.now made.now) }
{
    match part {
        Part::Create { bytes, eph, .. } => push_create(
            edits,
            &made.name,
            bytes,
            owner(session, *eph),
        ),
        Part::Set { path, bytes, .. } => push_set(edits, path, bytes),
        Part::Delete { path, .. } => push_delete(edits, path),
    }
}

fn push_parts(
    edits: &mut Edits,
    session: u32,
    parts: &[Part],
    made: &[Made],
) -> Result<(), NoMemory>
    ensures { OnOk result (edits.new ≡ edits.old ++ parts_edits session parts.now made.now) }
{
    'making: for (place, part) in parts.iter().enumerate() {
        let Some(made) = made.get(place) else {
            return Ok(());
        };
        push_part(edits, session, part, made)?;
    }
    Ok(())
}
