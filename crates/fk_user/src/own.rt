ghost use Rattle.std.specs.Prelude.{◌≡◌, ◌++◌, ◌∷◌, [], ℕ, true, Option, IfOk, OnOk};
ghost use Rattle.fk_tree.specs.Edit.{edited};
ghost use Rattle.fk_tree.specs.Touch.{edits_at};
ghost use Rattle.fk_tree.specs.declared.node.Node.{Node};
ghost use Rattle.fk_user.specs.Own.{are_own};

use fk_base::{NoMemory, Path};
use fk_tree::{Edit, Edits};
use std::alloc::Global;

/// Those of these edits that are of one path's node, in their order, as a put of that path takes them.
#[tactic(auto, using(crate::proofs::Owning::own_rest))]
pub fn own_edits(alloc: Global, edits: &[Edit], path: &Path) -> Result<Edits, NoMemory>
    ensures edits { IfOk result (λ own. own ≡ edits_at path.now edits.now) }
    ensures own { IfOk result (λ own. are_own path.now own ≡ true) }
    ensures all { IfOk result (λ own. (tx moment : ℕ) (o : Option Node) → edited tx moment path.now own o ≡ edited tx moment path.now edits.now o) }
{
    let mut own = Edits::new(alloc);
    'choosing: for change in edits {
        push_own(&mut own, change, path)?;
    }
    Ok(own)
}

fn push_own(own: &mut Edits, change: &Edit, path: &Path) -> Result<(), NoMemory>
    ensures { OnOk result (own.new ≡ own.old ++ edits_at path.now (change.now ∷ [])) }
{
    if path.same(&change.path) {
        own.push(change.copy()?)?;
    }
    Ok(())
}
