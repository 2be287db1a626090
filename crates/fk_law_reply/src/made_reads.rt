ghost use Rattle.fk_law_reply.specs.Reads.{ReadsShowTheTree};

/// A law: a read that a client has made shows the tree of the number at which it is answered.
pub fn reads_show_the_tree()
    ensures { ReadsShowTheTree }
{}
