ghost use Rattle.fk_law_tree.specs.Editors.{OnlyEditorsCount, OnlyItsEditsCount, OwnedWasEdited, SameEditors, UneditedStays};

/// A law: edits leave at a path what the edits of that path leave.
pub fn only_its_edits_count()
    ensures { OnlyItsEditsCount }
{}

/// A law: an applied request that doesn't edit a path leaves its node alone.
pub fn unedited_stays()
    ensures { UneditedStays }
{}

/// A law: after applied requests a path has the node that its editors alone leave there.
pub fn only_editors_count()
    ensures count { OnlyEditorsCount }
    ensures same { SameEditors }
{}

/// A law: a node that a session owns was edited.
pub fn owned_was_edited()
    ensures { OwnedWasEdited }
{}
