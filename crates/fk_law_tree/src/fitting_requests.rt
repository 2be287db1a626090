ghost use Rattle.fk_law_tree.specs.Fitting.{FitsWhatIsShown, OneFits, SameReply};

/// A law: what fits what a tree shows is what is filled on the tree.
pub fn fits_what_is_shown()
    ensures { FitsWhatIsShown }
{}

/// A law: a request fits a view in one way.
pub fn one_fits()
    ensures { OneFits }
{}

/// A law: a request has the same reply where it reads the same.
pub fn same_reply()
    ensures { SameReply }
{}
