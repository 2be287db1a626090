//! Paths put into path order.

ghost use Rattle.std.specs.Prelude.{◌≡◌, ◌≤◌, ◌<◌, true, false, length, slice_index_or, IfOk, OnOk};
ghost use Rattle.fk_base.specs.Path.{path_cmp, same_path};
ghost use Rattle.fk_store.specs.Owning.{path_from};
ghost use Rattle.fk_tree.specs.Sorted.{in_path_order, with_key};

use fk_base::{NoMemory, Path};
use std::alloc::Global;
use std::cmp::Ordering;
use std::collections::VecDeque;

// the place of the first path that isn't below this one
#[tactic(auto, using(crate::proofs::Placing::place_step, crate::proofs::Placing::place_end))]
fn place_for(paths: &VecDeque<Path>, path: &Path) -> usize
    ensures place { result ≡ path_from 0 path.now paths.now.items }
    ensures within { result ≤ length paths.now.items }
{
    let mut place = 0;
    'passing: while let Some(other) = paths.get(place) {
        if path.compare(other) != Ordering::Greater {
            return place;
        }
        place += 1;
    }
    place
}

// whether a path stands at a place
fn stands_at(paths: &VecDeque<Path>, place: usize, path: &Path) -> bool
    ensures there { result ≡ true → (place < length paths.now.items)
        × (same_path path.now (slice_index_or paths.now.items place path.now) ≡ true) }
    ensures other { result ≡ false → place < length paths.now.items
        → same_path path.now (slice_index_or paths.now.items place path.now) ≡ false }
{
    match paths.get(place) {
        None => false,
        Some(other) => path.same(other),
    }
}

// puts a path to its place; one that is there already isn't added
#[tactic(auto, using(fk_store::proofs::Gathering::put_at_place, fk_store::proofs::Gathering::kept_at_place))]
fn add_path(paths: &mut VecDeque<Path>, path: &Path) -> Result<(), NoMemory>
    ensures { OnOk result (paths.new.items ≡ with_key path_cmp path.now paths.old.items) }
{
    let place = place_for(paths, path);
    if stands_at(paths, place, path) {
        return Ok(());
    }
    paths.insert(place, path.copy()?)?;
    Ok(())
}

// the same paths in a vector
fn listed(alloc: Global, mut paths: VecDeque<Path>) -> Result<Vec<Path>, NoMemory>
    ensures { IfOk result (λ ps. ps.items ≡ paths.items) }
{
    let mut list = Vec::new(alloc);
    'listing: while let Some(path) = paths.pop_front() {
        list.push(path)?;
    }
    Ok(list)
}

/// The paths in path order, each once. Takes linear time where they nearly rise: each path is then
/// put near the front of those behind it.
pub fn in_order(alloc: Global, paths: &[Path]) -> Result<Vec<Path>, NoMemory>
    ensures { IfOk result (λ ps. ps.items ≡ in_path_order paths.now) }
{
    let mut sorted = VecDeque::new(alloc);
    let mut left = paths.len();
    'sorting: while left > 0 {
        left -= 1;
        add_path(&mut sorted, &paths[left])?;
    }
    listed(alloc, sorted)
}
