//! One deployment over both tables.

ghost use Rattle.fk_script.specs.PrintLaws.{IsMeant};

use fk_base::{Bytes, Names, NoMemory, Text};
use fk_index::IndexTable;
use fk_print::render;
use fk_run::play;
use fk_script::{Deployment, generate};
use fk_store::{ListTable, Table};
use fk_world::World;
use std::alloc::Global;
use std::test::Fail;

/// The text of a world's history.
fn text<T: Table>(alloc: Global, world: &World<T>) -> Result<Bytes, NoMemory> {
    let mut clients = Names::new(alloc);
    for name in ["c1", "c2", "c3", "c4"] {
        clients.push(Text::from_str(alloc, name)?)?;
    }
    render(alloc, &clients, world.history())
}

/// The text of a deployment's history, played over lists.
fn over_lists(alloc: Global, deployment: Deployment) -> Result<Bytes, NoMemory>
    requires { IsMeant deployment }
{
    let sessions = deployment.clients.as_slice().len() as u32;
    let table = ListTable::new(alloc, sessions)?;
    text(alloc, &play(alloc, deployment, table)?)
}

/// The same, played over the ordered table.
fn by_index(alloc: Global, deployment: Deployment) -> Result<Bytes, NoMemory>
    requires { IsMeant deployment }
{
    let sessions = deployment.clients.as_slice().len() as u32;
    let table = IndexTable::new(alloc, sessions)?;
    text(alloc, &play(alloc, deployment, table)?)
}

#[test]
fn plays_alike_over_both_tables(rt: HostRuntime) -> Result<(), Fail> {
    let listed = over_lists(rt.alloc(), generate(rt.alloc(), 3, 50)?)?;
    let indexed = by_index(rt.alloc(), generate(rt.alloc(), 3, 50)?)?;
    assert!(rt; listed.as_slice().len() == 105_025 && listed.as_slice() == indexed.as_slice());
    Ok(())
}
