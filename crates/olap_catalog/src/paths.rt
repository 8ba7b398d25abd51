//! Paths of names: the members that they mean.
ghost use Rattle.std.specs.Prelude.{◌≡◌, ◌<◌, ◌⊎◌, ◌&&◌, ◌++◌, ◌∷◌, [], true, ℕ, None, Some, Ok, Err, length, bytes_eq, slice_get, option_and_then, option_map, map, ok_or, IfOk, IfErr, IfSome};
ghost use Rattle.std.specs.Option.{option_or};
ghost use Rattle.std.specs.List.{zip};
ghost use Rattle.olap_meaning.specs.History.{is_some_and};
ghost use Rattle.olap_meaning.specs.Catalog as meaning;
ghost use Rattle.catalog_tables.specs.Names.{is_alike, is_but_case};
ghost use Rattle.olap_meaning.specs.MemberOf.{IsMemberOf};
ghost use Rattle.olap_meaning.specs.Catalog.{all_text};
ghost use Rattle.olap_catalog.specs.Members.{below_by, onward, members_below, spot, member_or_fault, from_root_or_fault};

use crate::catalog::Catalog;
use crate::fault::NameFault;
use crate::members::Below;
use catalog_tables::{Likeness, match_of};
use olap_meaning::{
    ColumnId, CubeId, HierarchyId, LevelRef, List, MeasureId, Member, OutOfMemory, Text, ValueId,
};
use std::alloc::Global;

impl Catalog {
    // Whether a hierarchy has an all member whose name is so much like this one.
    fn all_is(&self, h: HierarchyId, likeness: Likeness, name: &str) -> bool
        ensures { result ≡ is_some_and (is_alike likeness name.now) (all_text self.now h) }
    {
        match self.hierarchies.get(h.0 as usize) {
            None => false,
            Some(hierarchy) => match &hierarchy.all_member {
                None => false,
                Some(all) => likeness.holds(name, all.as_str()),
            },
        }
    }

    // The first below a path whose name is so much like this one, with the all member before them where it is asked for.
    fn find_alike(
        &self,
        h: HierarchyId,
        with_all: bool,
        path: &[ValueId],
        likeness: Likeness,
        name: &str,
    ) -> Option<Below>
        ensures { result ≡ below_by (is_alike likeness name.now) self.now h with_all path.now }
    {
        if with_all && self.all_is(h, likeness, name) {
            return Some(Below::All);
        }
        match self.child_alike(h, path, likeness, name) {
            None => None,
            Some(value) => Some(Below::Child(value)),
        }
    }

    // What a name means below a path, with the all member before it where it is asked for.
    fn find_below(
        &self,
        h: HierarchyId,
        with_all: bool,
        path: &[ValueId],
        name: &str,
    ) -> Option<Below>
        ensures { result
            ≡ option_or (below_by (bytes_eq name.now) self.now h with_all path.now)
            (below_by (is_but_case name.now) self.now h with_all path.now) }
    {
        match self.find_alike(h, with_all, path, Likeness::Exact, name) {
            Some(below) => Some(below),
            None => self.find_alike(h, with_all, path, Likeness::ButCase, name),
        }
    }

    // The first member of a hierarchy: its all member, or without one the first of its first level.
    fn default_below(&self, h: HierarchyId) -> Option<Below>
        ensures { result ≡ below_by (λ name. true) self.now h true [] }
    {
        if self.has_all(h) {
            return Some(Below::All);
        }
        match self.first_child(h) {
            None => None,
            Some(value) => Some(Below::Child(value)),
        }
    }

    // Whether a hierarchy has an all member.
    pub(crate) fn has_all(&self, h: HierarchyId) -> bool
        ensures { result ≡ is_some_and (λ name. true) (all_text self.now h) }
    {
        match self.hierarchies.get(h.0 as usize) {
            None => false,
            Some(hierarchy) => hierarchy.all_member.is_some(),
        }
    }

    // The member that a name means below a path, by its path.
    fn step(
        &self,
        h: HierarchyId,
        with_all: bool,
        path: List<ValueId>,
        name: &Text,
    ) -> Result<List<ValueId>, NameFault>
        requires { with_all ≡ true → path ≡ [] }
        ensures ok { IfOk result
            (λ longer. (cube : ℕ)
            → meaning.named self.now cube (members_below self.now h with_all path) name.now
            ≡ Ok (spot h longer)) }
        ensures err { IfErr result
            (λ e. (e ≡ NameFault.OutOfMemory)
            ⊎ ((e ≡ NameFault.UnknownMember name.now)
            × ((cube : ℕ)
            → meaning.named self.now cube (members_below self.now h with_all path) name.now
            ≡ Err name.now))) }
    {
        let below = match self.find_below(h, with_all, path.as_slice(), name.as_str()) {
            None => return Err(unknown(name)),
            Some(below) => below,
        };
        match extended(path, below) {
            Ok(longer) => Ok(longer),
            Err(_) => Err(NameFault::OutOfMemory),
        }
    }

    // The member that a path means whose first name is a hierarchy.
    fn member_named(
        &self,
        alloc: Global,
        cube: CubeId,
        h: HierarchyId,
        path: &[Text],
    ) -> Result<Member, NameFault>
        requires { 0 < length path.now }
        ensures ok { IfOk result
            (λ member. from_root_or_fault self.now cube (LevelRef.Whole h) path.now ≡ Ok member) }
        ensures err { IfErr result
            (λ e. (e ≡ NameFault.OutOfMemory)
            ⊎ (from_root_or_fault self.now cube (LevelRef.Whole h) path.now ≡ Err e)) }
    {
        let first = match self.default_below(h) {
            None => return Err(unknown(&path[0])),
            Some(first) => first,
        };
        let top = List::new(alloc);
        if path.len() == 1 {
            return match extended(top, first) {
                Ok(values) => Ok(member_of(h, values)),
                Err(_) => Err(NameFault::OutOfMemory),
            };
        }
        let mut found = match self.step(h, true, top, &path[1]) {
            Ok(found) => found,
            Err(fault) => return Err(fault),
        };
        for i in 2..path.len() {
            found = match self.step(h, false, found, &path[i]) {
                Ok(next) => next,
                Err(fault) => return Err(fault),
            };
        }
        Ok(member_of(h, found))
    }

    // The member that a path means whose first name is that of the measures.
    fn measure_named(&self, cube: CubeId, path: &[Text]) -> Result<Member, NameFault>
        requires known { cube < length self.now.cubes }
        requires named { 0 < length path.now }
        ensures ok { IfOk result
            (λ member. from_root_or_fault self.now cube LevelRef.Measures path.now ≡ Ok member) }
        ensures err { IfErr result
            (λ e. (e ≡ NameFault.OutOfMemory)
            ⊎ (from_root_or_fault self.now cube LevelRef.Measures path.now ≡ Err e)) }
    {
        let names = &self.measure_names.as_slice()[cube.0 as usize];
        if names.is_empty() {
            return Err(unknown(&path[0]));
        }
        if path.len() == 1 {
            return Ok(Member::Measure(MeasureId(0)));
        }
        let name = &path[1];
        match match_of(name.as_str(), names.as_slice()) {
            None => Err(unknown(name)),
            Some(measure) => {
                if path.len() > 2 {
                    return Err(unknown(&path[2]));
                }
                Ok(Member::Measure(MeasureId(measure as u16)))
            }
        }
    }

    /// The member that a path of names means in a cube. The first name is `Measures` or the full name of one of the
    /// cube's hierarchies; alone it means the first measure, or the hierarchy's default member. Each name is found
    /// by its exact text first, and then by the first that differs in the case of ASCII letters alone. A path
    /// without a match is refused with its first name that has none.
    pub fn find_member(
        &self,
        alloc: Global,
        cube: CubeId,
        path: &[Text],
    ) -> Result<Member, NameFault>
        requires known { cube < length self.now.cubes }
        requires named { 0 < length path.now }
        ensures ok { IfOk result (λ member. member_or_fault self.now cube path.now ≡ Ok member) }
        ensures own { IfOk result (λ member. IsMemberOf self.now cube member) }
        ensures err { IfErr result
            (λ e. (e ≡ NameFault.OutOfMemory) ⊎ (member_or_fault self.now cube path.now ≡ Err e)) }
    {
        let _ = &self.hierarchies;
        let root = match self.find_root(cube, path[0].as_str()) {
            None => return Err(unknown(&path[0])),
            Some(root) => root,
        };
        match root {
            LevelRef::Measures => self.measure_named(cube, path),
            LevelRef::Whole(h) => self.member_named(alloc, cube, h, path),
            LevelRef::One(_h, _level) => Err(unknown(&path[0])),
        }
    }

    /// The default member of a hierarchy (Schema Guide, "The 'all' member"): its all member, or without one the first
    /// member of its first level. None where it has no member.
    pub fn default_member(
        &self,
        alloc: Global,
        h: HierarchyId,
    ) -> Result<Option<Member>, OutOfMemory>
        ensures found { IfOk result
            (λ found. (cube : ℕ)
            → meaning.default_member self.now cube (LevelRef.Whole h) ≡ found) }
        ensures own { IfOk result
            (λ found. IfSome found (λ member. (cube : ℕ) → IsMemberOf self.now cube member)) }
    {
        let _ = &self.hierarchies;
        let Some(first) = self.default_below(h) else {
            return Ok(None);
        };
        let top = List::new(alloc);
        let values = extended(top, first)?;
        Ok(Some(member_of(h, values)))
    }

    /// The box of a member: the first columns of its hierarchy with the values of its path, and nothing for a
    /// measure and for an all member.
    pub fn cell_box(
        &self,
        alloc: Global,
        member: &Member,
    ) -> Result<List<(ColumnId, ValueId)>, OutOfMemory>
        ensures { IfOk result (λ pairs. pairs ≡ meaning.box self.now member.now) }
    {
        match member {
            Member::Measure(_) => Ok(List::new(alloc)),
            Member::All(_) => Ok(List::new(alloc)),
            Member::At(h, path) => match self.hierarchies.get(h.0 as usize) {
                None => Ok(List::new(alloc)),
                Some(hierarchy) => paired(alloc, hierarchy.levels.as_slice(), path.as_slice()),
            },
        }
    }
}

// Columns and values side by side, as far as both go.
fn paired(
    alloc: Global,
    columns: &[ColumnId],
    values: &[ValueId],
) -> Result<List<(ColumnId, ValueId)>, OutOfMemory>
    ensures { IfOk result (λ pairs. pairs ≡ zip columns.now values.now) }
{
    let mut pairs = List::new(alloc);
    for i in 0..columns.len().min(values.len()) {
        pairs.push((columns[i], values[i]))?;
    }
    Ok(pairs)
}

// The member of a path: the all member where it is empty.
fn member_of(h: HierarchyId, values: List<ValueId>) -> Member
    ensures { result ≡ spot h values }
{
    if values.is_empty() {
        return Member::All(h);
    }
    Member::At(h, values)
}

// A path that goes on to what stands below it.
fn extended(path: List<ValueId>, below: Below) -> Result<List<ValueId>, OutOfMemory>
    ensures { IfOk result (λ longer. longer ≡ onward path below) }
{
    let mut longer = path;
    if let Below::Child(value) = below {
        longer.push(value)?;
    }
    Ok(longer)
}

// The fault of a name without a match.
pub(crate) fn unknown(name: &Text) -> NameFault
    ensures { (result ≡ NameFault.OutOfMemory) ⊎ (result ≡ NameFault.UnknownMember name.now) }
{
    match name.copy() {
        Ok(name) => NameFault::UnknownMember { name },
        Err(_) => NameFault::OutOfMemory,
    }
}
