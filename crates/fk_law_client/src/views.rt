ghost use Rattle.fk_law_client.specs.Views.{DeploymentsWriteByWrites, EachViewNeverFalls};

/// A law: what asks for a change in a deployment has the verb of a write.
pub fn deployments_write_by_writes()
    ensures { DeploymentsWriteByWrites }
{}

/// A law: a read's number is at least each number that its client was shown before.
pub fn view_never_falls()
    ensures { EachViewNeverFalls }
{}
