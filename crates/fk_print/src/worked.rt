ghost use Rattle.fk_print.specs.Worked.{AreWorked};

/// Law: the definitions give these lines, whose texts were found without them.
pub fn worked_lines()
    ensures { AreWorked }
{}
