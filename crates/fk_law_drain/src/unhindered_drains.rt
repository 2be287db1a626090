ghost use Rattle.fk_law_drain.specs.Draining.{DrainsAreCalm, DrainsAreUnhindered};

/// A law: in a drain one function after another works on the head of its lane, and none is
/// hindered.
pub fn drains_are_unhindered()
    ensures calm { DrainsAreCalm }
    ensures goes { DrainsAreUnhindered }
{}
