ghost use Rattle.fk_watch.specs.OneList.{AreOneList, IsOneEpoch};

/// A law: what a sweep lists of the fired watches, and the epoch, are the only such lists.
pub fn sweep_lists_one_way()
    ensures fired { AreOneList }
    ensures epoch { IsOneEpoch }
{}
