ghost use Rattle.std.specs.Prelude.{◌≡◌};
ghost use Rattle.fk_script.specs.declared.place.Place.TheVariants as place;
ghost use Rattle.fk_script.specs.SoFar.{is_schedule, kind_at, kind_of};

use crate::words::Word;

/// Where a line stands.
#[derive(Clone, Copy, Debug, PartialEq, Eq)]
pub(crate) enum Place {
    /// Before the first client and the schedule.
    Start,
    /// In a client.
    Client,
    /// In the schedule.
    Schedule,
}

/// What a line is, by its first word and its place.
#[derive(Clone, Copy, Debug, PartialEq, Eq)]
pub(crate) enum Kind {
    Skipped,
    Lock,
    Beat,
    Client,
    Schedule,
    Command,
    Event,
    Unknown,
}

impl Place {
    pub(crate) fn is_schedule(self) -> bool
        ensures { result ≡ is_schedule self }
    {
        match self {
            Place::Start | Place::Client => false,
            Place::Schedule => true,
        }
    }

    /// What a line is that stands here.
    pub(crate) fn kind_of(self, words: &[Word<'_>]) -> Kind
        ensures { result ≡ kind_of self words.now }
    {
        match words {
            [] => Kind::Skipped,
            [word, ..] => {
                if word.starts_with(b'#') {
                    Kind::Skipped
                } else {
                    self.kind_at(word)
                }
            }
        }
    }

    fn kind_at(self, word: &Word<'_>) -> Kind
        ensures { result ≡ kind_at self word.now }
    {
        match self {
            Place::Start => start_kind(word),
            Place::Client => client_kind(word),
            Place::Schedule => Kind::Event,
        }
    }
}

fn start_kind(word: &Word<'_>) -> Kind
    ensures { result ≡ kind_at place.Start word.now }
{
    if word.is("lock") {
        Kind::Lock
    } else if word.is("beat") {
        Kind::Beat
    } else if word.is("client") {
        Kind::Client
    } else if word.is("schedule") {
        Kind::Schedule
    } else {
        Kind::Unknown
    }
}

fn client_kind(word: &Word<'_>) -> Kind
    ensures { result ≡ kind_at place.Client word.now }
{
    if word.is("client") {
        Kind::Client
    } else if word.is("schedule") {
        Kind::Schedule
    } else {
        Kind::Command
    }
}
