//! The texts of messages, as they were written out by hand.

ghost use Rattle.std.specs.Prelude.{IfOk};
ghost use Rattle.fk_wire.specs.Limits.{IsLimitedRequest};

use fk_base::{Bytes, Path};
use fk_tree::Request;
use fk_wire::{
    Sent, WireFault, decode_note, decode_pushed, decode_send, decode_tell, encode_note,
    encode_pushed, encode_send, encode_tell,
};
use std::alloc::Global;
use std::test::Fail;

const CREATE: &str =
    r#"{"op":{"data":"aGk=","e":false,"path":"/x","s":false,"t":"create"},"seen":0,"v":2}"#;

const MULTI: &str =
    r#"{"op":{"parts":[{"data":"","e":true,"path":"/a","s":false,"t":"create"},{"data":"AA==","path":"/é/\"","t":"set","version":-1},{"path":"/c","t":"delete","version":2147483647}],"t":"multi"},"seen":9223372036854775807,"v":2}"#;

const PUSHED: &str =
    r#"{"client":4294967295,"gone":["/a","/a/b"],"inv":1,"k":1,"made":[{"name":"/","version":4294967295}],"moment":0,"name":"/","op":{"parts":[{"data":"","path":"/x","t":"set","version":3}],"t":"multi"},"paths":["/","/x"],"v":2,"version":0}"#;

const FIRST_PUSHED: &str =
    r#"{"client":1,"gone":[],"inv":1,"k":1,"moment":11,"name":"/x","op":{"data":"aGk=","e":false,"path":"/x","s":false,"t":"create"},"paths":["/","/x"],"v":1,"version":0}"#;

const SECOND_PUSHED: &str =
    r#"{"client":1,"gone":[],"inv":1,"k":1,"made":[],"moment":11,"name":"/x","op":{"data":"aGk=","e":false,"path":"/x","s":false,"t":"create"},"paths":["/","/x"],"v":2,"version":0}"#;

const NOTE: &str =
    r#"{"fired":[{"client":1,"id":1,"kind":"data","path":"/x","type":"NodeDataChanged"},{"client":2,"id":9223372036854775807,"kind":"child","path":"/","type":"NodeChildrenChanged"}],"tx":2,"v":2}"#;

/// A message of each kind that an inbox is told.
const TELLS: [&str; 6] = [
    r#"{"k":1,"made":[{"name":"/x","version":0},{"name":"/","version":4294967295}],"name":"/","t":"done","tx":1,"v":2,"version":0}"#,
    r#"{"k":2,"t":"evicted","tx":2,"v":2}"#,
    r#"{"at":1,"code":-110,"k":2,"place":0,"t":"refused","v":2}"#,
    r#"{"found":2,"k":1,"moment":11,"own":0,"path":"/","t":"lost","v":2}"#,
    r#"{"client":1,"id":1,"kind":"data","path":"/x","t":"watch","tx":2,"type":"NodeDeleted","v":2}"#,
    r#"{"n":9223372036854775807,"t":"ping","v":2}"#,
];

/// Whether the sent request that a text says has this text in the second version.
fn sent(alloc: Global, text: &str, second: &str) -> Result<bool, WireFault> {
    let message = decode_send(alloc, text.as_bytes())?;
    let copy = message.copy()?;
    Ok(encode_send(alloc, &copy)?.as_slice() == second.as_bytes())
}

/// Whether the pushed request that a text says has this text in the second version.
fn pushed(alloc: Global, text: &str, second: &str) -> Result<bool, WireFault> {
    let message = decode_pushed(alloc, text.as_bytes())?;
    let copy = message.copy()?;
    Ok(encode_pushed(alloc, &copy)?.as_slice() == second.as_bytes())
}

/// Whether the note that a text says has this text in the second version.
fn noted(alloc: Global, text: &str, second: &str) -> Result<bool, WireFault> {
    let note = decode_note(alloc, text.as_bytes())?;
    let copy = note.copy()?;
    Ok(encode_note(alloc, &copy)?.as_slice() == second.as_bytes())
}

/// Whether the tell that a text says has this text in the second version.
fn told(alloc: Global, text: &str, second: &str) -> Result<bool, WireFault> {
    let tell = decode_tell(alloc, text.as_bytes())?;
    let copy = tell.copy()?;
    Ok(encode_tell(alloc, &copy)?.as_slice() == second.as_bytes())
}

/// A create within the limits.
fn create(alloc: Global) -> Result<Request, Fail>
    ensures { IfOk result IsLimitedRequest }
{
    Ok(Request::Create {
        path: Path::parse(alloc, "/x")?,
        bytes: Bytes::from_slice(alloc, b"hi")?,
        seq: false,
        eph: false,
    })
}

/// Whether such a create has its text.
fn writes_a_create(alloc: Global) -> Result<bool, Fail> {
    let message = Sent {
        request: create(alloc)?,
        seen: 0,
    };
    Ok(encode_send(alloc, &message)?.as_slice() == CREATE.as_bytes())
}

#[test]
fn a_create_is_written(rt: HostRuntime) -> Result<(), Fail> {
    assert!(rt; writes_a_create(rt.alloc())?);
    Ok(())
}

#[test]
fn requests_go_and_come_back(rt: HostRuntime) -> Result<(), Fail> {
    assert!(rt; sent(rt.alloc(), CREATE, CREATE)?);
    assert!(rt; sent(rt.alloc(), MULTI, MULTI)?);
    assert!(rt; pushed(rt.alloc(), PUSHED, PUSHED)?);
    Ok(())
}

#[test]
fn the_first_version_is_read(rt: HostRuntime) -> Result<(), Fail> {
    assert!(rt; pushed(rt.alloc(), FIRST_PUSHED, SECOND_PUSHED)?);
    Ok(())
}

#[test]
fn notes_go_and_come_back(rt: HostRuntime) -> Result<(), Fail> {
    assert!(rt; noted(rt.alloc(), NOTE, NOTE)?);
    Ok(())
}

#[test]
fn tells_go_and_come_back(rt: HostRuntime) -> Result<(), Fail> {
    for text in TELLS.iter() {
        assert!(rt; told(rt.alloc(), text, text)?, "{text}");
    }
    Ok(())
}
