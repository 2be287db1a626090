//! Laws: what a deployment asks, and what its turns name, is within the limits of messages.
#![tactic(auto)]

mod turns;

ghost use Rattle.fk_limits.specs.Deployments.{AsksAreLimited, AsksAreReadable, ClientsAreFew, CommandsAreFew, RequestsAreLimited, RequestsAreReadable};

pub use turns::turns_are_within_limits;

/// A law: the request of each command, and of each message that a session's lane is given, is
/// within the limits of messages, and the message is read back; a client has at most 2,048
/// commands, and there are at most 64 clients.
pub fn deployments_ask_within_limits()
    ensures asks { AsksAreLimited }
    ensures requests { RequestsAreLimited }
    ensures readable_asks { AsksAreReadable }
    ensures readable_requests { RequestsAreReadable }
    ensures commands { CommandsAreFew }
    ensures clients { ClientsAreFew }
{}
