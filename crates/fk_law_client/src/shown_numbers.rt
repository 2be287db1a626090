ghost use Rattle.fk_law_client.specs.Shown.{SeenIsPublished};

/// A law: each number that a client was shown is at most the mark.
pub fn seen_is_published()
    ensures { SeenIsPublished }
{}
