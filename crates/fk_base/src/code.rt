ghost use Rattle.std.specs.Prelude.{◌≡◌};
ghost use Rattle.fk_base.specs.Code.{number_of, name_of};

/// Why a command is refused: the codes of ZooKeeper's client interface that this profile has.
#[derive(Clone, Copy, Debug, PartialEq, Eq)]
pub enum Code {
    SystemError,
    ConnectionLoss,
    BadArguments,
    NoNode,
    BadVersion,
    NoChildrenForEphemerals,
    NodeExists,
    NotEmpty,
    SessionExpired,
}

impl Code {
    /// The code's number in ZooKeeper's client interface.
    pub fn number(self) -> i32
        ensures { result ≡ number_of self }
    {
        match self {
            Code::SystemError => -1,
            Code::ConnectionLoss => -4,
            Code::BadArguments => -8,
            Code::NoNode => -101,
            Code::BadVersion => -103,
            Code::NoChildrenForEphemerals => -108,
            Code::NodeExists => -110,
            Code::NotEmpty => -111,
            Code::SessionExpired => -112,
        }
    }

    /// The code's name in ZooKeeper's client interface, in capitals.
    pub fn name(self) -> &'static str
        ensures { result.now ≡ name_of self }
    {
        match self {
            Code::SystemError => "SYSTEMERROR",
            Code::ConnectionLoss => "CONNECTIONLOSS",
            Code::BadArguments => "BADARGUMENTS",
            Code::NoNode => "NONODE",
            Code::BadVersion => "BADVERSION",
            Code::NoChildrenForEphemerals => "NOCHILDRENFOREPHEMERALS",
            Code::NodeExists => "NODEEXISTS",
            Code::NotEmpty => "NOTEMPTY",
            Code::SessionExpired => "SESSIONEXPIRED",
        }
    }
}
