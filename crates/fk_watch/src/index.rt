//! The numbers of watches by their paths and sessions.

ghost use Rattle.std.specs.Prelude.{◌≡◌, true, None, Some, OnOk, OnErr};
ghost use Rattle.fk_watch.specs.Index.{has_place, number_in, KeepsNumbers, SetsNumber};

use fk_base::{NoMemory, Path};
use std::alloc::Global;
use std::collections::BTreeMap;

/// The number of the watch that each session has on a path.
pub type Index = BTreeMap<Path, BTreeMap<u32, u64>>;

pub fn number_in(index: &Index, path: &Path, session: u32) -> Option<u64>
    ensures { result ≡ number_in index.now path.now session }
{
    match index.get(path) {
        None => None,
        Some(numbers) => numbers.get(&session).copied(),
    }
}

// sees that a path has a place
#[tactic(auto, using(crate::proofs::Indexing::place_added, crate::proofs::Indexing::placed))]
fn add_place(alloc: Global, index: &mut Index, path: &Path) -> Result<(), NoMemory>
    ensures place { OnOk result (has_place path.now index.new ≡ true) }
    ensures same { KeepsNumbers index.old index.new }
{
    if !index.contains_key(path) {
        index.insert(path.copy()?, BTreeMap::new(alloc))?;
    }
    Ok(())
}

// puts a number where the path has a place
fn put_number(index: &mut Index, path: &Path, session: u32, number: u64) -> Result<(), NoMemory>
    requires { has_place path.now index.old ≡ true }
    ensures ok { OnOk result (SetsNumber path.now session (Some number) index.old index.new) }
    ensures err { OnErr result (KeepsNumbers index.old index.new) }
{
    match index.get_mut(path) {
        None => Err(NoMemory),
        Some(numbers) => match numbers.insert(session, number) {
            Ok(_) => Ok(()),
            Err(_) => Err(NoMemory),
        },
    }
}

pub fn add_number(
    alloc: Global,
    index: &mut Index,
    path: &Path,
    session: u32,
    number: u64,
) -> Result<(), NoMemory>
    ensures ok { OnOk result (SetsNumber path.now session (Some number) index.old index.new) }
    ensures err { OnErr result (KeepsNumbers index.old index.new) }
{
    add_place(alloc, index, path)?;
    put_number(index, path, session, number)
}

pub fn drop_number(index: &mut Index, path: &Path, session: u32)
    ensures { SetsNumber path.now session None index.old index.new }
{
    if let Some(numbers) = index.get_mut(path) {
        numbers.remove(&session);
    }
}
