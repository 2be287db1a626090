ghost use Rattle.std.specs.Prelude.{◌≡◌, ℕ, ◌+◌, ◌<◌, ◌≤◌, List, length, Err, Option, Some, vec_len, IfOk};
ghost use Rattle.std.specs.Io.KnownBytes.{Consumes, IsAtEnd};
ghost use Rattle.fk_base.specs.Faults.{Rose};
ghost use Rattle.fk_base.specs.Source.{TakesAtMost, TakesCount};

use std::alloc::Global;
use thiserror::Error;

/// What a read gives.
#[derive(Clone, Copy, Debug, PartialEq, Eq)]
pub enum Got {
    /// These many bytes, at the front of the buffer.
    Bytes(usize),
    /// Nothing is left.
    End,
    Failed,
}

/// Where bytes come from.
pub trait Source {
    ghost use Rattle.std.specs.Prelude.{◌≡◌, ℕ, ◌<◌, ◌≤◌, List, length, Option};
    ghost use Rattle.fk_base.specs.Faults.{Rose};
    ghost use Rattle.fk_base.specs.Source.{ReadGives};

    /// The bytes that are left, where they are told.
    ghost left: { Self → Option (List ℕ) };

    /// How many reads have failed, up to the largest `u64`.
    ghost faults: { Self → ℕ };

    fn read(&mut self, into: &mut [u8]) -> Got
        requires { 0 < length into.old }
        ensures gives { ReadGives (left self.old) (left self.new) into.new result }
        ensures cause { result ≡ Got.Failed → Rose (faults self.old) (faults self.new) }
        ensures later { faults self.old ≤ faults self.new };
}

/// Why not all was read.
#[derive(Clone, Copy, Debug, PartialEq, Eq, Error)]
pub enum ReadAll {
    #[error("a read failed")]
    ReadFault,
    /// More bytes than `LIMIT` came.
    #[error("too long")]
    TooLong,
    #[error("out of memory")]
    NoMemory,
}

/// The most bytes that are read whole: 4 MiB.
pub const LIMIT: usize = 4_194_304;

/// Reads to the end, but not past the first byte beyond `LIMIT`.
pub fn read_all<S: Source>(alloc: Global, source: &mut S) -> Result<Vec<u8>, ReadAll>
    ensures read { IfOk result (λ v. Consumes (S.left source.old) (S.left source.new) v.items) }
    ensures end { IfOk result (λ v. IsAtEnd (S.left source.new)) }
    ensures short { IfOk result (λ v. vec_len v ≤ LIMIT) }
    ensures fault { result ≡ Err ReadAll.ReadFault → Rose (S.faults source.old) (S.faults source.new) }
    ensures long { result ≡ Err ReadAll.TooLong → TakesCount (S.left source.old) (S.left source.new) (LIMIT + 1) }

    // What it says of a source that tells its bytes.
    ensures whole { (xs : List ℕ) → S.left source.old ≡ Some xs → IfOk result (λ v. v.items ≡ xs) }
    ensures beyond { (xs : List ℕ) → S.left source.old ≡ Some xs → result ≡ Err ReadAll.TooLong → LIMIT < length xs }

    // At any result.
    ensures taken { TakesAtMost (S.left source.old) (S.left source.new) (LIMIT + 1) }
    ensures later { S.faults source.old ≤ S.faults source.new }
{
    let mut all = Vec::new(alloc);
    let mut buffer = [0u8; 8192];
    'reading: while all.len() <= LIMIT {
        let room = buffer.len().min(LIMIT + 1 - all.len());
        match source.read(&mut buffer[..room]) {
            Got::Bytes(count) => {
                if all.extend_from_slice(&buffer[..count]).is_err() {
                    return Err(ReadAll::NoMemory);
                }
            }
            Got::End => return Ok(all),
            Got::Failed => return Err(ReadAll::ReadFault),
        }
    }
    Err(ReadAll::TooLong)
}
