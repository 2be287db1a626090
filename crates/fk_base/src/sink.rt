ghost use Rattle.std.specs.Prelude.{◌≡◌, ◌≤◌};
ghost use Rattle.std.specs.Io.KnownBytes.{Appends};
ghost use Rattle.fk_base.specs.Faults.{Rose};
ghost use Rattle.fk_base.specs.Sink.{AppendsFront};

/// What a write does.
#[derive(Clone, Copy, Debug, PartialEq, Eq)]
pub enum Put {
    /// These many bytes of the piece were taken.
    Took(usize),
    Failed,
}

/// Where bytes go.
pub trait Sink {
    ghost use Rattle.std.specs.Prelude.{◌≡◌, ℕ, ◌<◌, ◌≤◌, List, length, Option};
    ghost use Rattle.fk_base.specs.Faults.{Rose};
    ghost use Rattle.fk_base.specs.Sink.{WriteTakes};

    /// The bytes that were taken, where they are told.
    ghost taken: { Self → Option (List ℕ) };

    /// How many writes have failed, up to the largest `u64`.
    ghost faults: { Self → ℕ };

    fn write(&mut self, piece: &[u8]) -> Put
        requires { 0 < length piece.now }
        ensures takes { WriteTakes (taken self.old) (taken self.new) piece.now result }
        ensures cause { result ≡ Put.Failed → Rose (faults self.old) (faults self.new) }
        ensures later { faults self.old ≤ faults self.new };
}

/// Whether the whole piece was written.
#[derive(Clone, Copy, Debug, PartialEq, Eq)]
pub enum WriteAll {
    Done,
    Failed,
}

/// Offers what is left of the piece until all of it is taken or a write fails.
pub fn write_all<K: Sink>(sink: &mut K, piece: &[u8]) -> WriteAll
    ensures done { result ≡ WriteAll.Done → Appends (K.taken sink.old) (K.taken sink.new) piece.now }
    ensures fault { result ≡ WriteAll.Failed → Rose (K.faults sink.old) (K.faults sink.new) }
    ensures front { result ≡ WriteAll.Failed → AppendsFront (K.taken sink.old) (K.taken sink.new) piece.now }
    ensures later { K.faults sink.old ≤ K.faults sink.new }
{
    let mut at = 0;
    'writing: while at < piece.len() {
        match sink.write(&piece[at..]) {
            Put::Took(count) => at += count,
            Put::Failed => return WriteAll::Failed,
        }
    }
    WriteAll::Done
}
