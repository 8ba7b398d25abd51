//! The values by which a group is found.
ghost use Rattle.std.specs.Prelude.{◌≡◌, IfOk};

use indexmap::Equivalent;
use olap_meaning::{OutOfMemory, ValueId};
use smallvec::SmallVec;
use std::alloc::Global;
use std::hash::{Hash, Hasher};
use std::marker::Model;

/// This many values stand in a key itself; where there are more, they stand beside it.
const FEW: usize = 4;

/// The values of a group. It is found by a slice of them.
#[derive(Drop)]
pub(crate) struct Key {
    values: SmallVec<ValueId, FEW>,
}

impl Model for Key {
    ghost use Rattle.std.specs.Prelude.{ℕ, List};

    ghost Value = { List ℕ };

    ghost view = { λ k. k.values.items };
}

impl Key {
    /// The key of some values.
    pub(crate) fn new(alloc: Global, values: &[ValueId]) -> Result<Key, OutOfMemory>
        ensures { IfOk result (λ key. key ≡ values.now) }
    {
        let values = SmallVec::from_slice(alloc, values)?;
        Ok(Key { values })
    }

    /// Its values.
    pub(crate) fn as_slice(&self) -> &[ValueId]
        ensures { result.now ≡ self.now }
    {
        self.values.as_slice()
    }
}

impl PartialEq for Key {
    ghost use Rattle.std.specs.Prelude.{bytes_eq};
    ghost use Rattle.std.specs.Cmp.{partial_equiv_from_equiv};
    ghost use Rattle.std.proofs.lemmas.Cmp.{nat_list_eq_equiv};

    ghost eq = { bytes_eq };

    ghost laws = { partial_equiv_from_equiv nat_list_eq_equiv };

    fn eq(&self, other: &Key) -> bool {
        self.as_slice() == other.as_slice()
    }
}

impl Eq for Key {
    ghost use Rattle.std.proofs.lemmas.Cmp.{nat_list_eq_equiv};

    ghost laws = { nat_list_eq_equiv };
}

impl Hash for Key {
    ghost use Rattle.std.specs.Hash as fed;
    ghost use Rattle.std.proofs.Common.{ap};
    ghost use Rattle.std.specs.Cmp.Lexicographic.{bytes_decides};

    ghost hash_input = { fed.slice fed.u32 };

    ghost respects_eq = { λ x y same. ap (fed.slice fed.u32) ((bytes_decides x y).0 same) };

    fn hash<H: Hasher>(&self, state: &mut H) {
        self.as_slice().hash(state);
    }
}

impl Equivalent<Key> for &[ValueId] {
    ghost use Rattle.std.specs.Prelude.{bytes_eq};
    ghost use Rattle.std.specs.Hash as fed;
    ghost use Rattle.std.proofs.Common.{ap};
    ghost use Rattle.std.specs.Cmp.Lexicographic.{bytes_decides};
    ghost use Rattle.std.proofs.lemmas.Cmp.{nat_list_eq_equiv};

    ghost equivalent = { λ values key. bytes_eq values.now key };

    ghost respects_hash = { λ values key same. ap (fed.slice fed.u32) ((bytes_decides values.now key).0 same) };

    ghost respects_eq = { λ values x y. nat_list_eq_equiv.congr values.now x y };

    fn equivalent(&self, key: &Key) -> bool {
        *self == key.as_slice()
    }
}
