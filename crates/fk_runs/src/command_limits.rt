ghost use Rattle.fk_runs.specs.Limits.{DataAtItsLimit, DataBeyondIt, PartBeyondIt, PathAtItsLimit, PathBeyondIt, RootIsKept, RootIsKeptByParts, SequentialAtItsLimit, SequentialBeyondIt};

/// What stands at a limit is asked for, and what is beyond it is unfit.
pub fn limits_of_commands()
    ensures data { DataAtItsLimit }
    ensures more_data { DataBeyondIt }
    ensures path { PathAtItsLimit }
    ensures longer_path { PathBeyondIt }
    ensures sequential { SequentialAtItsLimit }
    ensures longer_sequential { SequentialBeyondIt }
    ensures root { RootIsKept }
    ensures root_by_parts { RootIsKeptByParts }
    ensures part { PartBeyondIt }
{}
