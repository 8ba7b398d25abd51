//! The levels of a cube, their members and the members' children, from the trees of members.
ghost use Rattle.std.specs.Prelude.{◌≡◌, ◌<◌, ◌⊎◌, ◌++◌, ℕ, Ok, Err, All, length, drop, map, option_map, slice_get, IfOk, IfErr, IfSome, IsErrAnd, option_copied};
ghost use Rattle.olap_meaning.specs.Catalog as meaning;
ghost use Rattle.olap_meaning.specs.MemberOf.{IsLevelIn, IsMemberOf};
ghost use Rattle.olap_catalog.specs.Members.{or_fault};
ghost use Rattle.olap_catalog.specs.Parts.{tree_of};

use crate::catalog::Catalog;
use crate::fault::NameFault;
use crate::paths::unknown;
use catalog_tables::match_of;
use member_trees::MemberTree;
use olap_meaning::{
    CubeId, HierarchyId, LevelRef, List, MeasureId, Member, OutOfMemory, Text, ValueId,
};
use std::alloc::Global;

impl Catalog {
    /// The level that a path of names means in a cube: one name is a root, that is `Measures` or the full name of one of
    /// the cube's hierarchies; two are a hierarchy and one of its levels. Each name is found by its exact text first,
    /// and then by the first that differs in the case of ASCII letters alone. A path is refused with its first name
    /// that has no match: a second name after `Measures` has none, nor has a third name. It takes no memory except for
    /// the name of its fault.
    pub fn find_level(&self, cube: CubeId, path: &[Text]) -> Result<LevelRef, NameFault>
        requires known { cube < length self.now.cubes }
        requires named { 0 < length path.now }
        ensures ok { IfOk result
            (λ level. meaning.level_of self.now cube path.now ≡ Ok level) }
        ensures own { IfOk result (λ level. IsLevelIn self.now level) }
        ensures err { IfErr result
            (λ e. IsErrAnd (meaning.level_of self.now cube path.now)
            (λ name. (e ≡ NameFault.OutOfMemory) ⊎ (e ≡ NameFault.UnknownMember name))) }
    {
        let _ = &self.hierarchies;
        let root = match self.find_root(cube, path[0].as_str()) {
            None => return Err(unknown(&path[0])),
            Some(root) => root,
        };
        if path.len() == 1 {
            return Ok(root);
        }
        match root {
            LevelRef::Measures => Err(unknown(&path[1])),
            LevelRef::Whole(h) => self.level_named(h, path),
            LevelRef::One(_h, _level) => Err(unknown(&path[1])),
        }
    }

    // The level of a hierarchy that the second name of a path means.
    fn level_named(&self, h: HierarchyId, path: &[Text]) -> Result<LevelRef, NameFault>
        requires { 1 < length path.now }
        ensures ok { IfOk result
            (λ level. meaning.level_from self.now (LevelRef.Whole h) (drop 1 path.now)
            ≡ Ok level) }
        ensures own { IfOk result (λ level. IsLevelIn self.now level) }
        ensures err { IfErr result
            (λ e. IsErrAnd (meaning.level_from self.now (LevelRef.Whole h) (drop 1 path.now))
            (λ name. (e ≡ NameFault.OutOfMemory) ⊎ (e ≡ NameFault.UnknownMember name))) }
    {
        match self.level_place(h, path[1].as_str()) {
            None => Err(unknown(&path[1])),
            Some(level) => {
                if path.len() > 2 {
                    return Err(unknown(&path[2]));
                }
                Ok(LevelRef::One(h, level))
            }
        }
    }

    // The place of a hierarchy's level, by its name.
    fn level_place(&self, h: HierarchyId, name: &str) -> Option<u32>
        ensures found { result ≡ meaning.match_of name.now (meaning.level_names self.now h) }
        ensures known { IfSome result (λ level. IsLevelIn self.now (LevelRef.One h level)) }
    {
        let _ = &self.hierarchies;
        match self.level_names.get(h.0 as usize) {
            None => None,
            Some(names) => match match_of(name, names.as_slice()) {
                None => None,
                Some(level) => Some(level as u32),
            },
        }
    }

    /// How many children a member has. It takes no memory.
    pub fn child_count(&self, member: &Member) -> u32
        ensures { result ≡ length (meaning.children self.now member.now) }
    {
        match member {
            Member::Measure(_) => 0,
            Member::All(h) => self.count_below(*h, &[]),
            Member::At(h, path) => self.count_below(*h, path.as_slice()),
        }
    }

    // How many members are one level below a path of a hierarchy.
    fn count_below(&self, h: HierarchyId, path: &[ValueId]) -> u32
        ensures { result ≡ length (meaning.children self.now (Member.At h path.now)) }
    {
        match self.tree_at(h) {
            None => 0,
            Some(tree) => tree.child_count(path),
        }
    }

    /// The children of a member, by first appearance in the table: none of a measure; of an all member those of the
    /// first level; else those one level below.
    pub fn children(&self, alloc: Global, member: &Member) -> Result<List<Member>, OutOfMemory>
        ensures children { IfOk result (λ found. found ≡ meaning.children self.now member.now) }
        ensures own { IfOk result (λ found. (cube : ℕ) → All (IsMemberOf self.now cube) found) }
    {
        let _ = &self.hierarchies;
        match member {
            Member::Measure(_) => Ok(List::new(alloc)),
            Member::All(h) => self.members_below(alloc, *h, &[]),
            Member::At(h, path) => self.members_below(alloc, *h, path.as_slice()),
        }
    }

    // The members one level below a path of a hierarchy.
    fn members_below(
        &self,
        alloc: Global,
        h: HierarchyId,
        path: &[ValueId],
    ) -> Result<List<Member>, OutOfMemory>
        ensures { IfOk result
            (λ found. found ≡ meaning.children self.now (Member.At h path.now)) }
    {
        match self.tree_at(h) {
            None => Ok(List::new(alloc)),
            Some(tree) => members_at(alloc, h, tree.children(alloc, path)?),
        }
    }

    /// How many members some levels have. It takes no memory.
    pub fn level_count(&self, cube: CubeId, level: LevelRef) -> u64
        requires known { cube < length self.now.cubes }
        requires level { IsLevelIn self.now level }
        ensures { result ≡ length (meaning.level_members self.now cube level) }
    {
        match level {
            LevelRef::Measures => self.cube(cube).measures.len() as u64,
            LevelRef::Whole(h) => self.whole_count(h),
            LevelRef::One(h, level) => self.count_at(h, level),
        }
    }

    // How many members a hierarchy has.
    fn whole_count(&self, h: HierarchyId) -> u64
        ensures { result ≡ length (meaning.level_members self.now 0 (LevelRef.Whole h)) }
    {
        let all = if self.has_all(h) { 1 } else { 0 };
        match self.tree_at(h) {
            None => all,
            Some(tree) => all + tree.count_under(),
        }
    }

    // How many members a level of a hierarchy has.
    fn count_at(&self, h: HierarchyId, level: u32) -> u64
        requires { IsLevelIn self.now (LevelRef.One h level) }
        ensures { result ≡ length (meaning.level_members self.now 0 (LevelRef.One h level)) }
    {
        let _ = &self.hierarchies;
        match self.tree_at(h) {
            None => 0,
            Some(tree) => tree.count_at(level + 1) as u64,
        }
    }

    /// The members of some levels of a cube in hierarchical order: the measures; or the all member where there is one,
    /// and then each member before those below it; or those of one level.
    pub fn level_members(
        &self,
        alloc: Global,
        cube: CubeId,
        level: LevelRef,
    ) -> Result<List<Member>, OutOfMemory>
        requires known { cube < length self.now.cubes }
        requires level { IsLevelIn self.now level }
        ensures members { IfOk result
            (λ found. found ≡ meaning.level_members self.now cube level) }
        ensures own { IfOk result (λ found. All (IsMemberOf self.now cube) found) }
    {
        let _ = &self.hierarchies;
        match level {
            LevelRef::Measures => self.measures(alloc, cube),
            LevelRef::Whole(h) => self.whole_members(alloc, h),
            LevelRef::One(h, level) => self.members_of_level(alloc, h, level),
        }
    }

    // The measures of a cube.
    fn measures(&self, alloc: Global, cube: CubeId) -> Result<List<Member>, OutOfMemory>
        requires { cube < length self.now.cubes }
        ensures { IfOk result (λ found. found ≡ meaning.measure_members self.now cube) }
    {
        let _ = &self.cubes;
        let measures = self.cube(cube).measures.as_slice();
        let mut members = List::new(alloc);
        for measure in 0..measures.len() {
            members.push(Member::Measure(MeasureId(measure as u16)))?;
        }
        Ok(members)
    }

    // The all member of a hierarchy where it has one, and then all others.
    fn whole_members(&self, alloc: Global, h: HierarchyId) -> Result<List<Member>, OutOfMemory>
        ensures { IfOk result
            (λ found. found ≡ meaning.level_members self.now 0 (LevelRef.Whole h)) }
    {
        let mut members = List::new(alloc);
        if self.has_all(h) {
            members.push(Member::All(h))?;
        }
        match self.tree_at(h) {
            None => Ok(members),
            Some(tree) => with_members(members, h, tree.paths_under(alloc)?),
        }
    }

    // The members of one level of a hierarchy.
    fn members_of_level(
        &self,
        alloc: Global,
        h: HierarchyId,
        level: u32,
    ) -> Result<List<Member>, OutOfMemory>
        requires { IsLevelIn self.now (LevelRef.One h level) }
        ensures { IfOk result
            (λ found. found ≡ meaning.level_members self.now 0 (LevelRef.One h level)) }
    {
        let _ = &self.hierarchies;
        match self.tree_at(h) {
            None => Ok(List::new(alloc)),
            Some(tree) => members_at(alloc, h, tree.paths_at(alloc, level + 1)?),
        }
    }

    // The tree of a hierarchy's members, None where the schema has no hierarchy of this place.
    pub(crate) fn tree_at(&self, h: HierarchyId) -> Option<&MemberTree>
        ensures { option_copied result
            ≡ option_map (tree_of self.now) (slice_get self.now.hierarchies h) }
    {
        self.trees.get(h.0 as usize)
    }
}

// The members of a hierarchy with some paths.
fn members_at(
    alloc: Global,
    h: HierarchyId,
    paths: List<List<ValueId>>,
) -> Result<List<Member>, OutOfMemory>
    ensures { IfOk result (λ found. found ≡ map (Member.At h) paths) }
{
    with_members(List::new(alloc), h, paths)
}

// Some members, and then those of a hierarchy with some paths.
fn with_members(
    members: List<Member>,
    h: HierarchyId,
    paths: List<List<ValueId>>,
) -> Result<List<Member>, OutOfMemory>
    ensures { IfOk result (λ found. found ≡ members ++ map (Member.At h) paths) }
{
    let mut found = members;
    for path in paths.into_vec() {
        found.push(Member::At(h, path))?;
    }
    Ok(found)
}
