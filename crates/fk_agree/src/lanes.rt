ghost use Rattle.fk_agree.specs.Heads.{LeaderHeadIsItsPush, SessionHeadIsItsRequest, WatchHeadIsItsNote};
ghost use Rattle.fk_agree.specs.Letters.{HeadIsPopped, HeadsAreTheRules, LanesAreCounted, LetterIsPushed, NewPostStands, PostStays};

/// A law: a new post is what the rules say of no history, and a line that leaves each lane leaves
/// the post.
pub fn post_starts_and_stays()
    ensures new { NewPostStands }
    ensures stays { PostStays }
{}

/// A law: a line that puts a message into one lane is a push there, and one that removes a lane's
/// head is an acknowledgement.
pub fn letters_are_pushed_and_popped()
    ensures pushed { LetterIsPushed }
    ensures popped { HeadIsPopped }
{}

/// A law: each lane of functions holds the messages that it was given and didn't lose, numbered up
/// to its count, and its head is the one that the rules name.
pub fn heads_are_the_rules()
    ensures counted { LanesAreCounted }
    ensures heads { HeadsAreTheRules }
{}

/// A law: the head of each lane of functions is the text of the request, the push or the note that
/// has its number.
pub fn heads_are_their_messages()
    ensures session { SessionHeadIsItsRequest }
    ensures leader { LeaderHeadIsItsPush }
    ensures watch { WatchHeadIsItsNote }
{}
