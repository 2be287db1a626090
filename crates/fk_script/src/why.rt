ghost use Rattle.std.specs.Prelude.{◌≡◌};
ghost use Rattle.fk_script.specs.Reasons.{why_text};

/// Why a line offends. The first line that does is told, with the first reason in this order.
#[derive(Clone, Copy, Debug, PartialEq, Eq)]
pub enum Why {
    NotUtf8,
    /// The last line has no line feed.
    Unended,
    UnknownLine,
    UnknownCommand,
    UnknownEvent,
    BadOption,
    BadWords,
    BadNumber,
    BadName,
    RepeatedName,
    UnknownClient,
    BadBase64,
    TooMany,
    /// A schedule stands where none may.
    Schedule,
}

impl Why {
    /// The reason's name.
    pub fn text(self) -> &'static str
        ensures { result.now ≡ why_text self }
    {
        match self {
            Why::NotUtf8 => "NotUtf8",
            Why::Unended => "Unended",
            Why::UnknownLine => "UnknownLine",
            Why::UnknownCommand => "UnknownCommand",
            Why::UnknownEvent => "UnknownEvent",
            Why::BadOption => "BadOption",
            Why::BadWords => "BadWords",
            Why::BadNumber => "BadNumber",
            Why::BadName => "BadName",
            Why::RepeatedName => "RepeatedName",
            Why::UnknownClient => "UnknownClient",
            Why::BadBase64 => "BadBase64",
            Why::TooMany => "TooMany",
            Why::Schedule => "Schedule",
        }
    }
}
