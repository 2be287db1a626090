ghost use Rattle.std.specs.Prelude.{◌≡◌, ◌↔◌, [], ◌∷◌, ◌++◌, length, true, false, IsTrue, IsNone, IfOk, IfSome, Err, Some, None};
ghost use Rattle.fk_base.specs.Path.{are_names, is_name, is_root, parent, path_cmp, path_of, path_text, same_path};

use crate::memory::NoMemory;
use crate::names::Names;
use crate::path_rules;
use crate::text::Text;
use std::alloc::Global;
use std::cmp::Ordering;
use std::marker::Model;
use thiserror::Error;

/// Why a text is no path, or a name no name.
#[derive(Clone, Copy, Debug, PartialEq, Eq, Error)]
pub enum PathFault {
    /// The rules of a path refuse it.
    #[error("not a path")]
    BadPath,
    #[error("out of memory")]
    NoMemory,
}

/// A path of the tree, seen as the list of its names; the root has none.
#[derive(Drop)]
pub struct Path {
    names: Names,
}

impl Model for Path {
    ghost use Rattle.std.specs.Prelude.{◌≡◌, ℕ, List, true};
    ghost use Rattle.fk_base.specs.Path.{are_names};

    ghost Value = { List (List ℕ) };

    ghost view = { λ p. p.names };

    ghost invariant = { λ p. are_names p.names ≡ true };
}

impl Path {
    /// The path `/`.
    pub fn root(alloc: Global) -> Path
        ensures { result ≡ [] }
    {
        Path {
            names: Names::new(alloc),
        }
    }

    /// The path that a text means: `/`, or one or more names, each after a slash.
    pub fn parse(alloc: Global, text: &str) -> Result<Path, PathFault>
        ensures path { IfOk result (λ p. path_of text.now ≡ Some p) }
        ensures bad { (result ≡ Err PathFault.BadPath) ↔ (path_of text.now ≡ None) }
    {
        let Some(rest) = text.strip_prefix('/') else {
            return Err(PathFault::BadPath);
        };
        if rest.is_empty() {
            return Ok(Path::root(alloc));
        }
        if !path_rules::are_names(rest) {
            return Err(PathFault::BadPath);
        }
        match path_rules::names_of(alloc, rest) {
            Ok(names) => Ok(Path { names }),
            Err(_) => Err(PathFault::NoMemory),
        }
    }

    /// The path as it is written.
    pub fn text(&self) -> Result<Text, NoMemory>
        ensures text { IfOk result (λ t. t ≡ path_text self.now) }
        ensures names { are_names self.now ≡ true }
    {
        let mut text = Text::new(self.names.allocator());
        'writing: for name in self.names.as_slice() {
            text.push_str("/")?;
            text.push_str(name.as_str())?;
        }
        if self.is_root() {
            text.push_str("/")?;
        }
        Ok(text)
    }

    /// The path of the parent, which the root doesn't have.
    #[tactic(auto, using(crate::proofs::PathOrder::parent_is))]
    pub fn parent(&self) -> Result<Option<Path>, NoMemory>
        ensures root { IfOk result (λ o. IsNone o ↔ IsTrue (is_root self.now)) }
        ensures parent { IfOk result (λ o. IfSome o (λ p. p ≡ parent self.now)) }
    {
        match self.names.as_slice() {
            [] => Ok(None),
            [front @ .., _last] => Ok(Some(Path {
                names: Names::from_slice(self.names.allocator(), front)?,
            })),
        }
    }

    /// The path of a child.
    pub fn child(&self, name: &str) -> Result<Path, PathFault>
        ensures child { IfOk result (λ p. p ≡ self.now ++ name.now ∷ []) }
        ensures bad { (result ≡ Err PathFault.BadPath) ↔ (is_name name.now ≡ false) }
    {
        if !path_rules::is_name(name) {
            return Err(PathFault::BadPath);
        }
        match self.names.with(name) {
            Ok(names) => Ok(Path { names }),
            Err(_) => Err(PathFault::NoMemory),
        }
    }

    /// The order of paths, in which a parent stands before its children.
    pub fn compare(&self, other: &Path) -> Ordering
        ensures { result ≡ path_cmp self.now other.now }
    {
        self.names.as_slice().cmp(other.names.as_slice())
    }

    pub fn same(&self, other: &Path) -> bool
        ensures test { result ≡ same_path self.now other.now }
        ensures same { IsTrue result ↔ (self.now ≡ other.now) }
    {
        self.compare(other).is_eq()
    }

    pub fn is_root(&self) -> bool
        ensures { result ≡ is_root self.now }
    {
        self.names.is_empty()
    }

    /// How many names it has.
    pub fn len(&self) -> usize
        ensures { result ≡ length self.now }
    {
        self.names.len()
    }

    /// The names, from the root on.
    pub fn as_slice(&self) -> &[Text]
        ensures { result.now ≡ self.now }
    {
        self.names.as_slice()
    }

    pub fn copy(&self) -> Result<Path, NoMemory>
        ensures { IfOk result (λ p. p ≡ self.now) }
    {
        Ok(Path {
            names: self.names.copy()?,
        })
    }
}

impl PartialEq for Path {
    ghost use Rattle.std.specs.Cmp.{eq_by_cmp_equiv, partial_equiv_from_equiv};
    ghost use Rattle.fk_base.specs.Path.{same_path};
    ghost use Rattle.std.specs.Cmp.Lexicographic.{lists_total, nat_list_cmp_total};

    ghost eq = { same_path };

    ghost laws = { partial_equiv_from_equiv (eq_by_cmp_equiv (lists_total nat_list_cmp_total)) };

    fn eq(&self, other: &Self) -> bool {
        self.same(other)
    }
}

impl Eq for Path {
    ghost use Rattle.std.specs.Cmp.{eq_by_cmp_equiv};
    ghost use Rattle.std.specs.Cmp.Lexicographic.{lists_total, nat_list_cmp_total};

    ghost laws = { eq_by_cmp_equiv (lists_total nat_list_cmp_total) };
}

impl PartialOrd for Path {
    ghost use Rattle.std.specs.Prelude.{Some};
    ghost use Rattle.std.specs.Cmp.{partial_order_from_total};
    ghost use Rattle.std.specs.Cmp.Lexicographic.{lists_total, nat_list_cmp_total};
    ghost use Rattle.fk_base.specs.Path.{path_cmp};

    ghost partial_cmp = { λ x y. Some (path_cmp x y) };

    ghost laws = { partial_order_from_total (lists_total nat_list_cmp_total) };

    fn partial_cmp(&self, other: &Self) -> Option<Ordering> {
        Some(self.cmp(other))
    }
}

impl Ord for Path {
    ghost use Rattle.std.specs.Prelude.{refl};
    ghost use Rattle.std.specs.Cmp.Lexicographic.{lists_total, nat_list_cmp_total};
    ghost use Rattle.fk_base.specs.Path.{path_cmp};

    ghost cmp = { path_cmp };

    ghost total = { lists_total nat_list_cmp_total };

    ghost matches_partial_cmp = { λ x y. refl };

    ghost matches_eq = { λ x y. refl };

    fn cmp(&self, other: &Self) -> Ordering {
        self.compare(other)
    }
}
