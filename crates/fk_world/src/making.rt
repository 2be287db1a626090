//! The clients of a deployment.

ghost use Rattle.std.specs.Prelude.{◌≡◌, ◌≤◌, length, map, IfOk};
ghost use Rattle.fk_client.specs.Standing.{client_of};
ghost use Rattle.fk_spec.specs.Plan.{all_asks};
ghost use Rattle.fk_world.specs.World.{AreShort, new_clients};

use fk_base::NoMemory;
use fk_client::Client;
use fk_script::Block;
use std::alloc::Global;

/// A client for each block, whose session is its place, from 1.
pub(crate) fn clients_of(alloc: Global, blocks: &[Block]) -> Result<Vec<Client>, NoMemory>
    requires few { length blocks.now ≤ 64 }
    requires short { AreShort blocks.now }
    ensures clients { IfOk result (λ cs. map client_of cs.items
        ≡ new_clients 1 (all_asks blocks.now)) }
    ensures count { IfOk result (λ cs. length cs.items ≡ length blocks.now) }
{
    let mut made = Vec::new(alloc);
    let mut session = 0;
    let mut rest = blocks;
    'making: while let [block, others @ ..] = rest {
        session += 1;
        made.push(Client::new(alloc, session, block.commands.copy()?))?;
        rest = others;
    }
    Ok(made)
}
