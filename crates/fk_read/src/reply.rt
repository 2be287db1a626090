ghost use Rattle.std.specs.Prelude.{◌≡◌, [], IfOk, length, ℕ};
ghost use Rattle.std.specs.List.{AllByRecursion};
ghost use Rattle.fk_print.specs.WellFormed.{IsPartReply, IsShown, IsShownName, IsStat, is_of_tree};
ghost use Rattle.fk_base.specs.Limits.{IsNumber, IsSmall};
ghost use Rattle.fk_read.specs.ReadAct.{take_onto};
ghost use Rattle.fk_read.specs.ReadReply.{coded, err_of, has_places, ok_by, refused_by, shown_of, stat_of, take_reply};
ghost use Rattle.fk_read.specs.ReadWords.{name_of_word};
ghost use Rattle.fk_read.specs.Reads.{Reads, Takes, take};

use crate::ending::read_spot_at;
use crate::piece::{path_word, small};
use crate::unread::Unread;
use crate::words::{Cut, is};
use fk_base::{Code, Names};
use fk_print::{Shown, Verb};
use fk_tree::{PartReply, Replies, Stat};

/// Reads what a command of this verb is answered.
pub(crate) fn read_shown(verb: Verb, words: &mut Cut) -> Result<Shown, Unread>
    ensures reads { Reads result (shown_of verb words.old) }
    ensures fits { IfOk result (IsShown verb) }
{
    let word = words.word()?;
    if is(word, "ok") {
        let at = words.at()?;
        return read_ok(verb, at, words);
    }
    read_err(verb, words)
}

fn read_ok(verb: Verb, at: u64, words: &mut Cut) -> Result<Shown, Unread>
    requires { IsNumber at }
    ensures reads { Reads result (ok_by verb at words.old) }
    ensures fits { IfOk result (IsShown verb) }
{
    match verb {
        Verb::Create => {
            let path = words.path()?;
            Ok(Shown::Created { tx: at, path })
        }
        Verb::Set => {
            let version = words.small()?;
            Ok(Shown::Version { tx: at, version })
        }
        Verb::Delete | Verb::Close => Ok(Shown::Done { tx: at }),
        Verb::Get => {
            let bytes = words.data()?;
            let stat = read_stat(words)?;
            Ok(Shown::Got { at, bytes, stat })
        }
        Verb::Stat => {
            let stat = read_stat(words)?;
            Ok(Shown::Stated { at, stat })
        }
        Verb::Ls => {
            let count = words.number()?;
            let names = read_names(count, words)?;
            Ok(Shown::Listed { at, names })
        }
        Verb::Multi => {
            let count = words.number()?;
            let replies = read_replies(count, words)?;
            Ok(Shown::Multi { tx: at, replies })
        }
    }
}

fn read_err(verb: Verb, words: &mut Cut) -> Result<Shown, Unread>
    ensures reads { Reads result (err_of verb words.old) }
    ensures fits { IfOk result (IsShown verb) }
{
    let word = words.word()?;
    if is(word, "LOCKLOST") {
        let path = words.path()?;
        let own = words.number()?;
        let found = words.number()?;
        let moment = words.number()?;
        return Ok(Shown::Lost {
            path,
            own,
            found,
            moment,
        });
    }
    let code = words.code()?;
    read_coded(verb, code, words)
}

/// Reads a code's place and number, if it has them.
fn read_coded(verb: Verb, code: Code, words: &mut Cut) -> Result<Shown, Unread>
    ensures reads { Reads result (coded verb code words.old) }
    ensures fits { IfOk result (IsShown verb) }
{
    let Some(word) = words.next() else {
        if code_of_tree(code) {
            return Err(Unread::Malformed);
        }
        return Ok(Shown::Plain(code));
    };
    let (place, at) = read_spot_at(word, words)?;
    refused(verb, code, place, at)
}

fn refused(verb: Verb, code: Code, place: u32, at: u64) -> Result<Shown, Unread>
    requires { IsSmall place × IsNumber at }
    ensures reads { Reads result (refused_by verb code (place, at)) }
    ensures fits { IfOk result (IsShown verb) }
{
    if code_of_tree(code) && (with_places(verb) || place == 0) {
        return Ok(Shown::Refused { code, at, place });
    }
    Err(Unread::Malformed)
}

/// Whether a code holds at a number of the tree.
fn code_of_tree(code: Code) -> bool
    ensures { result ≡ is_of_tree code }
{
    match code {
        Code::SystemError | Code::ConnectionLoss | Code::BadArguments => false,
        Code::NoNode
        | Code::BadVersion
        | Code::NoChildrenForEphemerals
        | Code::NodeExists
        | Code::NotEmpty
        | Code::SessionExpired => true,
    }
}

/// Whether a command of this verb has parts.
fn with_places(verb: Verb) -> bool
    ensures { result ≡ has_places verb }
{
    match verb {
        Verb::Multi => true,
        Verb::Create | Verb::Set | Verb::Delete | Verb::Get | Verb::Stat | Verb::Ls | Verb::Close =>
            false,
    }
}

fn read_stat(words: &mut Cut) -> Result<Stat, Unread>
    ensures reads { Reads result (stat_of words.old) }
    ensures fits { IfOk result IsStat }
{
    let czxid = words.number()?;
    let mzxid = words.number()?;
    let pzxid = words.number()?;
    let ctime = words.number()?;
    let mtime = words.number()?;
    let version = words.small()?;
    let cversion = words.small()?;
    let aversion = words.small()?;
    let owner = words.small()?;
    let length = words.small()?;
    let children = words.small()?;
    Ok(Stat {
        czxid,
        mzxid,
        pzxid,
        ctime,
        mtime,
        version,
        cversion,
        aversion,
        owner,
        length,
        children,
    })
}

fn read_names(count: u64, words: &mut Cut) -> Result<Names, Unread>
    ensures reads { Takes result words.new (take_onto (take name_of_word) count [] words.old) }
    ensures fits { IfOk result (λ names. AllByRecursion IsShownName names) }
    ensures counted { IfOk result (λ names. length names ≡ count) }
{
    let mut names = Names::new(words.allocator());
    'reading: for _done in 0..count {
        let name = words.name()?;
        names.push(name)?;
    }
    Ok(names)
}

fn read_replies(count: u64, words: &mut Cut) -> Result<Replies, Unread>
    ensures reads { Takes result words.new (take_onto take_reply count [] words.old) }
    ensures fits { IfOk result (λ replies. AllByRecursion IsPartReply replies) }
    ensures counted { IfOk result (λ replies. length replies ≡ count) }
{
    let mut replies = Replies::new(words.allocator());
    'reading: for _done in 0..count {
        let reply = read_reply(words)?;
        replies.push(reply)?;
    }
    Ok(replies)
}

fn read_reply(words: &mut Cut) -> Result<PartReply, Unread>
    ensures reads { Takes result words.new (take_reply words.old) }
    ensures fits { IfOk result IsPartReply }
{
    let word = words.word()?;
    if let Some(version) = small(word) {
        return Ok(PartReply::Version(version));
    }
    if is(word, "-") {
        return Ok(PartReply::Deleted);
    }
    let path = path_word(words.allocator(), word)?;
    Ok(PartReply::Created(path))
}
