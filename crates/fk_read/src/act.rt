ghost use Rattle.std.specs.Prelude.{◌≡◌, [], IfOk, length};
ghost use Rattle.std.specs.List.{AllByRecursion};
ghost use Rattle.fk_print.specs.WellFormed.{IsAct, IsPart};
ghost use Rattle.fk_base.specs.Limits.{IsNumber, IsPath};
ghost use Rattle.fk_read.specs.ReadAct.{act_of, create_act, multi_act, set_act, take_onto, take_part};
ghost use Rattle.fk_read.specs.ReadWords.{path_of_word};
ghost use Rattle.fk_read.specs.Reads.{Reads, Takes, take};

use crate::unread::Unread;
use crate::words::{Cut, is};
use fk_base::Paths;
use fk_print::Act;
use fk_tree::{Part, Parts};

/// Reads what a transaction did.
pub(crate) fn read_act(words: &mut Cut) -> Result<Act, Unread>
    ensures reads { Reads result (act_of words.old) }
    ensures fits { IfOk result IsAct }
{
    let word = words.word()?;
    if is(word, "create") {
        return read_create(words);
    }
    if is(word, "set") {
        return read_set(words);
    }
    if is(word, "delete") {
        let version = words.expected()?;
        let path = words.path()?;
        return Ok(Act::Delete { path, version });
    }
    if is(word, "multi") {
        return read_multi(words);
    }
    let count = words.number()?;
    let gone = read_paths(count, words)?;
    let evict = is(word, "evict");
    Ok(Act::Close { evict, gone })
}

fn read_create(words: &mut Cut) -> Result<Act, Unread>
    ensures reads { Reads result (create_act words.old) }
    ensures fits { IfOk result IsAct }
{
    let flags = words.word()?;
    let path = words.path()?;
    let bytes = words.data()?;
    let seq = is(flags, "s") || is(flags, "se");
    let eph = is(flags, "e") || is(flags, "se");
    Ok(Act::Create {
        path,
        bytes,
        seq,
        eph,
    })
}

fn read_set(words: &mut Cut) -> Result<Act, Unread>
    ensures reads { Reads result (set_act words.old) }
    ensures fits { IfOk result IsAct }
{
    let version = words.expected()?;
    let path = words.path()?;
    let bytes = words.data()?;
    Ok(Act::Set {
        path,
        bytes,
        version,
    })
}

fn read_multi(words: &mut Cut) -> Result<Act, Unread>
    ensures reads { Reads result (multi_act words.old) }
    ensures fits { IfOk result IsAct }
{
    let count = words.number()?;
    if 1 <= count && count <= 16 {
        let parts = read_parts(count, words)?;
        return Ok(Act::Multi(parts));
    }
    Err(Unread::Malformed)
}

fn read_parts(count: u64, words: &mut Cut) -> Result<Parts, Unread>
    ensures reads { Takes result words.new (take_onto take_part count [] words.old) }
    ensures fits { IfOk result (λ parts. AllByRecursion IsPart parts) }
    ensures counted { IfOk result (λ parts. length parts ≡ count) }
{
    let mut parts = Parts::new(words.allocator());
    'reading: for _done in 0..count {
        let part = read_part(words)?;
        parts.push(part)?;
    }
    Ok(parts)
}

fn read_paths(count: u64, words: &mut Cut) -> Result<Paths, Unread>
    ensures reads { Takes result words.new (take_onto (take path_of_word) count [] words.old) }
    ensures fits { IfOk result (λ paths. AllByRecursion IsPath paths) }
    ensures counted { IfOk result (λ paths. length paths ≡ count) }
{
    let mut paths = Paths::new(words.allocator());
    'reading: for _done in 0..count {
        let path = words.path()?;
        paths.push(path)?;
    }
    Ok(paths)
}

fn read_part(words: &mut Cut) -> Result<Part, Unread>
    ensures reads { Takes result words.new (take_part words.old) }
    ensures fits { IfOk result IsPart }
{
    let word = words.word()?;
    if is(word, "create") {
        let flags = words.word()?;
        let path = words.path()?;
        let bytes = words.data()?;
        let eph = is(flags, "e");
        return Ok(Part::Create { path, bytes, eph });
    }
    let version = words.expected()?;
    let path = words.path()?;
    if is(word, "set") {
        let bytes = words.data()?;
        return Ok(Part::Set {
            path,
            bytes,
            version,
        });
    }
    Ok(Part::Delete { path, version })
}
