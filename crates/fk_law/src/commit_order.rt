ghost use Rattle.fk_law.specs.Rising.{CommitsRiseOnAPath, CommitsRiseInASession, CommitterHoldsItsPaths, OneOfTwoCommits};

/// A law: a push that commits is beyond each committed one whose function was granted one of its
/// function's paths.
pub fn commits_rise_on_a_path()
    ensures { CommitsRiseOnAPath }
{}

/// A law: a push that commits is beyond each committed one of its session.
pub fn commits_rise_in_a_session()
    ensures { CommitsRiseInASession }
{}

/// A law: where a push commits, each path that its function was granted was granted to it last.
pub fn committer_holds_its_paths()
    ensures { CommitterHoldsItsPaths }
{}

/// A law: of two uncommitted pushes whose functions were granted one path, where one commits the
/// other never does.
pub fn one_of_two_commits()
    ensures { OneOfTwoCommits }
{}

/// A law: commits of functions that were granted a common path stand in the order of their numbers,
/// and each path of the one that commits was granted to its function last.
pub fn commits_in_order_on_a_path()
    ensures order { CommitsRiseOnAPath }
    ensures held { CommitterHoldsItsPaths }
{
    commits_rise_on_a_path();
    committer_holds_its_paths();
}
