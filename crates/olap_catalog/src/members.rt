//! The children of paths in the hierarchies, from the trees of members: their values, and their names.
ghost use Rattle.std.specs.Prelude.{◌≡◌, ◌++◌, ◌∷◌, [], true, All, map};
ghost use Rattle.std.specs.List.{find};
ghost use Rattle.olap_meaning.specs.declared.cells.Member.TheVariants as member;
ghost use Rattle.olap_meaning.specs.MemberOf.{IsMemberOf};
ghost use Rattle.catalog_tables.specs.Names.{is_alike};
ghost use Rattle.olap_catalog.specs.Members.{child_text, child_values};

use crate::catalog::Catalog;
use catalog_tables::Likeness;
use member_trees::Node;
use olap_meaning::{HierarchyId, ValueId};

/// What stands below a path of a hierarchy.
#[derive(Clone, Copy, PartialEq, Eq)]
pub(crate) enum Below {
    /// The all member, which is looked for with the first level.
    All,
    /// A child, by its value in the level below.
    Child(ValueId),
}

impl Catalog {
    // The first child of a path whose name is so much like this one, by its value.
    pub(crate) fn child_alike(
        &self,
        h: HierarchyId,
        path: &[ValueId],
        likeness: Likeness,
        name: &str,
    ) -> Option<ValueId>
        ensures { result
            ≡ find
            (λ value. is_alike likeness name.now (child_text self.now h path.now value))
            (child_values self.now h path.now) }
    {
        for node in self.nodes_below(h, path) {
            if likeness.holds(name, self.child_name(h, path, node.value)) {
                return Some(node.value);
            }
        }
        None
    }

    // The first child of the top of a hierarchy, by its value.
    pub(crate) fn first_child(&self, h: HierarchyId) -> Option<ValueId>
        ensures { result ≡ find (λ value. true) (child_values self.now h []) }
    {
        match self.nodes_below(h, &[]).first() {
            None => None,
            Some(node) => Some(node.value),
        }
    }

    // The members one level below a path of a hierarchy, in their order.
    fn nodes_below(&self, h: HierarchyId, path: &[ValueId]) -> &[Node]
        ensures values { map (λ node. node.value) result.now ≡ child_values self.now h path.now }
        ensures own { All
            (λ node. IsMemberOf self.now 0 (member.At h (path.now ++ node.value ∷ [])))
            result.now }
    {
        let _ = &self.hierarchies;
        match self.tree_at(h) {
            None => &[],
            Some(tree) => tree.nodes_below(path),
        }
    }

    // The name of a path's child, by its value.
    fn child_name(&self, h: HierarchyId, path: &[ValueId], value: ValueId) -> &str
        requires { IsMemberOf self.now 0 (member.At h (path.now ++ value ∷ [])) }
        ensures { result.now ≡ child_text self.now h path.now value }
    {
        let levels = self.hierarchy(h).levels.as_slice();
        self.value_name(levels[path.len()], value)
    }
}
