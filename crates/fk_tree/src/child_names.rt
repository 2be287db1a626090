//! The names of a node's children, which are sorted by their bytes.

ghost use Rattle.std.specs.Prelude.{◌≡◌, ◌≤◌, ◌<◌, length, insert, remove, MatchResult, OnOk, OnErr, true, false};
ghost use Rattle.fk_base.specs.Path.{name_cmp};
ghost use Rattle.fk_tree.specs.Sorted.{add_name, drop_name, found_from, has_name, place_from, rises};

use fk_base::{Names, NoMemory, Text};
use std::cmp::Ordering;

/// Where a name stands first.
pub fn place_of(names: &[Text], name: &Text) -> Option<usize>
    ensures { result ≡ found_from 0 name.now names.now }
{
    'seeking: for (place, other) in names.iter().enumerate() {
        if name.cmp(other) == Ordering::Equal {
            return Some(place);
        }
    }
    None
}

// the place of the first name that isn't below this one
fn place_for(names: &[Text], name: &Text) -> usize
    ensures place { result ≡ place_from 0 name.now names.now }
    ensures within { result ≤ length names.now }
{
    'passing: for (place, other) in names.iter().enumerate() {
        if name.cmp(other) != Ordering::Greater {
            return place;
        }
    }
    names.len()
}

/// Puts a name that isn't there to its place.
#[tactic(auto, using(crate::proofs::Sorting::put_at_place))]
pub fn add_name(names: &mut Names, name: &Text) -> Result<(), NoMemory>
    requires { has_name name.now names.old ≡ false }
    ensures ok { OnOk result (names.new ≡ add_name name.now names.old) }
    ensures err { OnErr result (names.new ≡ names.old) }
{
    let place = place_for(names.as_slice(), name);
    names.insert(place, name.copy()?)
}

/// Takes a name out.
#[tactic(auto, using(crate::proofs::Sorting::found_below, crate::proofs::Sorting::none_dropped, crate::proofs::Sorting::one_dropped, crate::proofs::Sorting::removed_shorter))]
pub fn drop_name(names: &mut Names, name: &Text)
    ensures { names.new ≡ drop_name name.now names.old }
{
    'dropping: while let Some(place) = place_of(names.as_slice(), name) {
        names.remove(place);
    }
}

/// The place of the first name that isn't below this one, among names that rise: in constant time
/// above all of them, else in logarithmic time.
#[tactic(auto, using(crate::proofs::Seeking::place_above))]
pub fn sorted_place(names: &[Text], name: &Text) -> usize
    requires { rises name_cmp names.now ≡ true }
    ensures { result ≡ place_from 0 name.now names.now }
{
    match names.last() {
        None => 0,
        Some(last) if name.cmp(last).is_gt() => names.len(),
        Some(_) => halved_place(names, name),
    }
}

#[tactic(auto, using(crate::proofs::Seeking::place_low, crate::proofs::Seeking::place_high))]
fn halved_place(names: &[Text], name: &Text) -> usize
    requires { rises name_cmp names.now ≡ true }
    ensures { result ≡ place_from 0 name.now names.now }
{
    let mut low = 0;
    let mut high = names.len();
    'halving: while low < high {
        let middle = low + (high - low) / 2;
        if name.cmp(&names[middle]).is_gt() {
            low = middle + 1;
        } else {
            high = middle;
        }
    }
    low
}

/// Whether a name is among names that rise.
pub fn has_sorted(names: &[Text], name: &Text) -> bool
    requires { rises name_cmp names.now ≡ true }
    ensures { result ≡ has_name name.now names.now }
{
    seek(names, name).is_ok()
}

/// Where a name stands among names that rise, or where it belongs.
#[tactic(auto, using(crate::proofs::Seeking::absent_here, crate::proofs::Seeking::absent_end, crate::proofs::Seeking::present_here, crate::proofs::Seeking::place_in_list))]
pub fn seek(names: &[Text], name: &Text) -> Result<usize, usize>
    requires { rises name_cmp names.now ≡ true }
    ensures within { MatchResult result (λ i. i < length names.now) (λ i. i ≤ length names.now) }
    ensures place { MatchResult result (λ i. i ≡ place_from 0 name.now names.now) (λ i. i ≡ place_from 0 name.now names.now) }
    ensures there { MatchResult result (λ i. has_name name.now names.now ≡ true) (λ i. has_name name.now names.now ≡ false) }
{
    let place = sorted_place(names, name);
    let Some(other) = names.get(place) else {
        return Err(place);
    };
    if name.cmp(other).is_eq() {
        return Ok(place);
    }
    Err(place)
}
