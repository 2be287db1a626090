ghost use Rattle.fk_law_reply.specs.Plans.{DeploymentsHaveFittingVerbs};

/// A law: in a deployment the verb of a command fits what it asks.
pub fn deployments_have_fitting_verbs()
    ensures { DeploymentsHaveFittingVerbs }
{}
