//! What a command wants.

ghost use Rattle.std.specs.Prelude.{◌≡◌, ◌++◌, if◌then◌else◌, true, Some, None, option_map, IfOk};
ghost use Rattle.fk_spec.specs.Client.{is_close, is_write};
ghost use Rattle.fk_spec.specs.Plan.{ask_of, parts_of, part_of, path_within, verb_of, waits, want_of};
ghost use Rattle.fk_client.specs.Wanted.{want_as};

use fk_base::{Bytes, NoMemory, Path, PathFault, Text};
use fk_print::Verb;
use fk_script::{Command, PartCommand};
use fk_tree::{Part, Parts, Query, Request};
use std::alloc::Global;

/// How many bytes of data a command may bring.
const DATA_LIMIT: usize = 16_384;

/// How many bytes the text of a path may have.
const PATH_LIMIT: usize = 512;

/// The same for a sequential create, whose ten digits come behind.
const NUMBERED_LIMIT: usize = 502;

/// What a command wants: nothing that can be asked, a change of the tree, or an answer from it,
/// with a watch or without.
#[derive(Drop)]
pub enum Want {
    Unfit,
    Writes(Request),
    Reads(Query, bool),
}

// the path that a word means, where it means one and isn't too long
fn path_within(alloc: Global, text: &Text, limit: usize) -> Result<Option<Path>, NoMemory>
    ensures { IfOk result (λ o. o ≡ path_within limit text.now) }
{
    if text.len() > limit {
        return Ok(None);
    }
    match Path::parse(alloc, text.as_str()) {
        Ok(path) => Ok(Some(path)),
        Err(PathFault::BadPath) => Ok(None),
        Err(PathFault::NoMemory) => Err(NoMemory),
    }
}

fn want_create(
    alloc: Global,
    path: &Text,
    bytes: &Bytes,
    seq: bool,
    eph: bool,
) -> Result<Want, NoMemory>
    ensures { let command = Command.Create path.now bytes.now seq eph true in
        IfOk result (λ w. want_as w ≡ want_of command) }
{
    if bytes.len() > DATA_LIMIT {
        return Ok(Want::Unfit);
    }
    let limit = if seq { NUMBERED_LIMIT } else { PATH_LIMIT };
    let Some(path) = path_within(alloc, path, limit)? else {
        return Ok(Want::Unfit);
    };
    let bytes = bytes.copy()?;
    Ok(Want::Writes(Request::Create {
        path,
        bytes,
        seq,
        eph,
    }))
}

fn want_set(alloc: Global, path: &Text, bytes: &Bytes, version: i32) -> Result<Want, NoMemory>
    ensures { IfOk result (λ w.
        want_as w ≡ want_of (Command.Set path.now bytes.now version true)) }
{
    if bytes.len() > DATA_LIMIT {
        return Ok(Want::Unfit);
    }
    let Some(path) = path_within(alloc, path, PATH_LIMIT)? else {
        return Ok(Want::Unfit);
    };
    let bytes = bytes.copy()?;
    Ok(Want::Writes(Request::Set {
        path,
        bytes,
        version,
    }))
}

fn want_delete(alloc: Global, path: &Text, version: i32) -> Result<Want, NoMemory>
    ensures { IfOk result (λ w. want_as w ≡ want_of (Command.Delete path.now version true)) }
{
    let Some(path) = path_within(alloc, path, PATH_LIMIT)? else {
        return Ok(Want::Unfit);
    };
    if path.is_root() {
        return Ok(Want::Unfit);
    }
    Ok(Want::Writes(Request::Delete { path, version }))
}

fn part_of(alloc: Global, part: &PartCommand) -> Result<Option<Part>, NoMemory>
    ensures { IfOk result (λ o. o ≡ part_of part.now) }
{
    match part {
        PartCommand::Create { path, bytes, eph } => create_part(alloc, path, bytes, *eph),
        PartCommand::Set {
            path,
            bytes,
            version,
        } => set_part(alloc, path, bytes, *version),
        PartCommand::Delete { path, version } => delete_part(alloc, path, *version),
    }
}

fn create_part(
    alloc: Global,
    path: &Text,
    bytes: &Bytes,
    eph: bool,
) -> Result<Option<Part>, NoMemory>
    ensures { IfOk result (λ o. o ≡ part_of (PartCommand.Create path.now bytes.now eph)) }
{
    let Some(path) = path_within(alloc, path, PATH_LIMIT)? else {
        return Ok(None);
    };
    if bytes.len() > DATA_LIMIT {
        return Ok(None);
    }
    let bytes = bytes.copy()?;
    Ok(Some(Part::Create { path, bytes, eph }))
}

fn set_part(
    alloc: Global,
    path: &Text,
    bytes: &Bytes,
    version: i32,
) -> Result<Option<Part>, NoMemory>
    ensures { IfOk result (λ o. o ≡ part_of (PartCommand.Set path.now bytes.now version)) }
{
    let Some(path) = path_within(alloc, path, PATH_LIMIT)? else {
        return Ok(None);
    };
    if bytes.len() > DATA_LIMIT {
        return Ok(None);
    }
    let bytes = bytes.copy()?;
    Ok(Some(Part::Set {
        path,
        bytes,
        version,
    }))
}

fn delete_part(alloc: Global, path: &Text, version: i32) -> Result<Option<Part>, NoMemory>
    ensures { IfOk result (λ o. o ≡ part_of (PartCommand.Delete path.now version)) }
{
    let Some(path) = path_within(alloc, path, PATH_LIMIT)? else {
        return Ok(None);
    };
    if path.is_root() {
        return Ok(None);
    }
    Ok(Some(Part::Delete { path, version }))
}

// adds the parts that these mean, and tells whether each of them is fit
fn push_parts(alloc: Global, parts: &mut Parts, commands: &[PartCommand]) -> Result<bool, NoMemory>
    ensures { let all = option_map (λ ps. parts.old ++ ps) (parts_of commands.now) in
        IfOk result (λ fit. all ≡ (if fit then Some parts.new else None)) }
{
    match commands {
        [] => Ok(true),
        [first, rest @ ..] => match part_of(alloc, first)? {
            None => Ok(false),
            Some(part) => {
                parts.push(part)?;
                push_parts(alloc, parts, rest)
            }
        },
    }
}

fn want_multi(alloc: Global, commands: &[PartCommand]) -> Result<Want, NoMemory>
    ensures { IfOk result (λ w. want_as w ≡ want_of (Command.Multi commands.now true)) }
{
    let mut parts = Parts::new(alloc);
    if push_parts(alloc, &mut parts, commands)? {
        Ok(Want::Writes(Request::Multi(parts)))
    } else {
        Ok(Want::Unfit)
    }
}

/// What a command wants.
pub fn want_of(alloc: Global, command: &Command) -> Result<Want, NoMemory>
    ensures { IfOk result (λ w. want_as w ≡ want_of command.now) }
{
    match command {
        Command::Create {
            path,
            bytes,
            seq,
            eph,
            ..
        } => want_create(alloc, path, bytes, *seq, *eph),
        Command::Set {
            path,
            bytes,
            version,
            ..
        } => want_set(alloc, path, bytes, *version),
        Command::Delete { path, version, .. } => want_delete(alloc, path, *version),
        Command::Get { path, watch } => match path_within(alloc, path, PATH_LIMIT)? {
            None => Ok(Want::Unfit),
            Some(path) => Ok(Want::Reads(Query::Get(path), *watch)),
        },
        Command::Stat { path, watch } => match path_within(alloc, path, PATH_LIMIT)? {
            None => Ok(Want::Unfit),
            Some(path) => Ok(Want::Reads(Query::Stat(path), *watch)),
        },
        Command::Ls { path, watch } => match path_within(alloc, path, PATH_LIMIT)? {
            None => Ok(Want::Unfit),
            Some(path) => Ok(Want::Reads(Query::Ls(path), *watch)),
        },
        Command::Close => Ok(Want::Writes(Request::Close { evict: false })),
        Command::Multi { parts, .. } => want_multi(alloc, parts.as_slice()),
    }
}

/// The verb of a command's reply.
pub fn verb_of(command: &Command) -> Verb
    ensures { result ≡ verb_of command.now }
{
    match command {
        Command::Create { .. } => Verb::Create,
        Command::Set { .. } => Verb::Set,
        Command::Delete { .. } => Verb::Delete,
        Command::Get { .. } => Verb::Get,
        Command::Stat { .. } => Verb::Stat,
        Command::Ls { .. } => Verb::Ls,
        Command::Close => Verb::Close,
        Command::Multi { .. } => Verb::Multi,
    }
}

/// Whether the next command has to wait for this one's reply.
pub fn waits(command: &Command) -> bool
    ensures { result ≡ waits command.now }
{
    match command {
        Command::Create { wait, .. }
        | Command::Set { wait, .. }
        | Command::Delete { wait, .. }
        | Command::Multi { wait, .. } => *wait,
        Command::Get { .. } | Command::Stat { .. } | Command::Ls { .. } | Command::Close => true,
    }
}

/// Whether it changes the tree.
pub fn is_write(command: &Command) -> bool
    ensures { result ≡ is_write (verb_of command.now) }
{
    match command {
        Command::Create { .. }
        | Command::Set { .. }
        | Command::Delete { .. }
        | Command::Close
        | Command::Multi { .. } => true,
        Command::Get { .. } | Command::Stat { .. } | Command::Ls { .. } => false,
    }
}

/// Whether it ends its session.
pub fn is_close(command: &Command) -> bool
    ensures { result ≡ is_close (Some (ask_of command.now)) }
{
    match command {
        Command::Close => true,
        Command::Create { .. }
        | Command::Set { .. }
        | Command::Delete { .. }
        | Command::Multi { .. }
        | Command::Get { .. }
        | Command::Stat { .. }
        | Command::Ls { .. } => false,
    }
}
