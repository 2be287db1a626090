//! What a client prints, it has seen.

ghost use Rattle.std.specs.Prelude.{◌≡◌, ◌∷◌, [], ◌++◌, OnOk};
ghost use Rattle.fk_spec.specs.Shown.{seen_in, shown_number};

use fk_base::NoMemory;
use fk_print::{Line, Lines, Shown};

/// The number of the tree that a reply speaks of.
fn shown_number(shown: &Shown) -> Option<u64>
    ensures { result ≡ shown_number shown.now }
{
    match shown {
        Shown::Created { tx, .. }
        | Shown::Version { tx, .. }
        | Shown::Done { tx }
        | Shown::Multi { tx, .. } => Some(*tx),
        Shown::Got { at, .. }
        | Shown::Stated { at, .. }
        | Shown::Listed { at, .. }
        | Shown::Refused { at, .. } => Some(*at),
        Shown::Plain(_) | Shown::Lost { .. } => None,
    }
}

/// The greatest number that a client has seen once it printed a line.
fn seen_in(client: u32, line: &Line, seen: u64) -> u64
    ensures { result ≡ seen_in client line.now seen }
{
    match line {
        Line::Tx(_) => seen,
        Line::Reply { session, shown, .. } => {
            if *session != client {
                return seen;
            }
            match shown_number(shown) {
                None => seen,
                Some(number) => number.max(seen),
            }
        }
        Line::Notice { session, tx, .. } | Line::Expired { session, tx } => {
            if *session == client {
                seen.max(*tx)
            } else {
                seen
            }
        }
    }
}

/// Prints a line.
pub fn print(client: u32, seen: &mut u64, lines: &mut Lines, line: Line) -> Result<(), NoMemory>
    ensures seen { OnOk result (seen.new ≡ seen_in client line seen.old) }
    ensures lines { OnOk result (lines.new ≡ lines.old ++ line ∷ []) }
{
    *seen = seen_in(client, &line, *seen);
    lines.push(line)
}
