//! A client acts as the client of the rules, which keeps less of a command that it sent.

ghost use Rattle.fk_client.specs.Knowing.{ComesToTheSame, MakesTheSameOp};

/// What the rules know of a client makes its operation.
pub fn makes_the_same_op()
    ensures { MakesTheSameOp }
{}

/// What the rules know of a client comes to what they know of it after an operation.
pub fn comes_to_the_same()
    ensures { ComesToTheSame }
{}
