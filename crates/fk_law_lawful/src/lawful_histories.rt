ghost use Rattle.fk_law_lawful.specs.Everything.{EveryHistoryIsLawful, EveryPromiseIsKept};

/// A law: every history of a deployment that the rules allow is lawful: each of its prefixes keeps
/// every promise.
pub fn every_history_is_lawful()
    ensures promises { EveryPromiseIsKept }
    ensures lawful { EveryHistoryIsLawful }
{}
