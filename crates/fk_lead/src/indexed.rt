//! A push with its edits by their paths.

ghost use Rattle.std.specs.Prelude.{◌≡◌, ◌++◌, ◌∷◌, [], ℕ, true, if◌then◌else◌, IfOk, OnOk};
ghost use Rattle.fk_base.specs.Path.{PathNames, same_path};
ghost use Rattle.fk_settle.specs.Transaction.{applied_as};
ghost use Rattle.fk_tree.specs.Edit.{effects};
ghost use Rattle.fk_tree.specs.Touch.{edits_at};
ghost use Rattle.fk_user.specs.Own.{are_own};
ghost use Rattle.fk_lead.specs.Indexed.{AreByPath, kept_at};

use fk_base::{NoMemory, Path};
use fk_settle::applied_as;
use fk_tree::{Edit, Edits, effects};
use fk_wire::Pushed;
use std::alloc::Global;
use std::collections::BTreeMap;
use std::marker::Model;

type EditMap = BTreeMap<Path, Edits>;

// takes out what is kept under a path
fn take(alloc: Global, own: &mut EditMap, path: &Path) -> Edits
    ensures taken { result ≡ kept_at own.old path.now }
    ensures rest { (p : PathNames) → kept_at own.new p
        ≡ (if same_path p path.now then [] else kept_at own.old p) }
{
    match own.remove(path) {
        None => Edits::new(alloc),
        Some(edits) => edits,
    }
}

// keeps one more edit under its path
fn keep(alloc: Global, own: &mut EditMap, change: &Edit) -> Result<(), NoMemory>
    ensures { OnOk result ((p : PathNames) → kept_at own.new p
        ≡ kept_at own.old p ++ edits_at p (change.now ∷ [])) }
{
    let mut edits = take(alloc, own, &change.path);
    edits.push(change.copy()?)?;
    own.insert(change.path.copy()?, edits)?;
    Ok(())
}

// what is kept under a path
fn edits_at(alloc: Global, own: &EditMap, path: &Path) -> Result<Edits, NoMemory>
    ensures { IfOk result (λ es. es ≡ kept_at own.now path.now) }
{
    match own.get(path) {
        None => Ok(Edits::new(alloc)),
        Some(edits) => edits.copy(),
    }
}

// keeps each of these edits under its path
#[tactic(auto, using(fk_user::proofs::Owning::own_rest))]
fn by_path(alloc: Global, edits: &[Edit]) -> Result<EditMap, NoMemory>
    ensures { IfOk result (λ own. AreByPath own edits.now) }
{
    let mut own = BTreeMap::new(alloc);
    'keeping: for change in edits {
        keep(alloc, &mut own, change)?;
    }
    Ok(own)
}

/// A push, which it means. Once one of its edits was asked for, it keeps them all by their paths.
#[derive(Drop)]
pub struct IndexedPush {
    message: Pushed,
    own: Option<EditMap>,
}

impl Model for IndexedPush {
    ghost use Rattle.fk_wire.specs.declared.message.Pushed.{Pushed};
    ghost use Rattle.fk_lead.specs.Indexed.{IsIndexOf};

    ghost Value = { Pushed };

    ghost view = { λ p. p.message };

    ghost invariant = { λ p. IsIndexOf p.own p.message };
}

impl IndexedPush {
    pub fn new(message: Pushed) -> IndexedPush
        ensures { result ≡ message }
    {
        IndexedPush { message, own: None }
    }

    pub fn get(&self) -> &Pushed
        ensures { result.now ≡ self.now }
    {
        &self.message
    }

    /// Its edits of one path, in their order.
    #[tactic(auto, using(crate::proofs::Indexing::own_at_any, fk_user::proofs::Owning::own_are_own))]
    pub fn edits(&mut self, alloc: Global, path: &Path) -> Result<Edits, NoMemory>
        ensures same { self.new ≡ self.old }
        ensures edits { (tx : ℕ) → IfOk result (λ es. es
            ≡ edits_at path.now (effects (applied_as tx self.old))) }
        ensures own { IfOk result (λ es. are_own path.now es ≡ true) }
    {
        if let Some(own) = &self.own {
            return edits_at(alloc, own, path);
        }
        let all = effects(alloc, &applied_as(0, &self.message)?)?;
        let own = by_path(alloc, all.as_slice())?;
        let edits = edits_at(alloc, &own, path)?;
        self.own = Some(own);
        Ok(edits)
    }
}
