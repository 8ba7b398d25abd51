//! The titles of members.
ghost use Rattle.std.specs.Prelude.{ℕ, ◌≡◌, ◌<◌, true, All, length, IfOk};
ghost use Rattle.std.specs.Option.{IsSome};
ghost use Rattle.olap_meaning.specs.Catalog.{all_text};
ghost use Rattle.olap_meaning.specs.MemberOf.{IsMemberOf, measure_count, level_columns, is_path};
ghost use Rattle.query_meaning.specs.Titles.{IsTitle, title, tuple_title};
ghost use Rattle.result_layout.specs.Named.{IsNamed};

use olap_catalog::Catalog;
use olap_meaning::{CubeId, HierarchyId, MeasureId, Member, OutOfMemory, Text, ValueId, name_text};
use std::alloc::Global;

/// The title of a member in a grid.
pub fn member_title(
    alloc: Global,
    catalog: &Catalog,
    cube: CubeId,
    member: &Member,
) -> Result<Text, OutOfMemory>
    requires { IsMemberOf catalog.now cube member.now }
    ensures title { IfOk result (λ text. text ≡ title catalog.now cube member.now) }
    ensures named { IfOk result IsNamed }
{
    match member {
        Member::Measure(measure) => measure_title(alloc, catalog, cube, *measure),
        Member::All(h) => all_title(alloc, catalog, *h),
        Member::At(h, path) => path_title(alloc, catalog, *h, path.as_slice()),
    }
}

/// The title of a tuple in a grid: those of its members, with a comma and a space between each two.
pub fn tuple_title(
    alloc: Global,
    catalog: &Catalog,
    cube: CubeId,
    tuple: &[Member],
) -> Result<Text, OutOfMemory>
    requires { All (IsMemberOf catalog.now cube) tuple.now }
    ensures title { IfOk result (λ text. text ≡ tuple_title catalog.now cube tuple.now) }
    ensures form { IfOk result IsTitle }
{
    let mut title = String::new(alloc);
    for i in 0..tuple.len() {
        if i > 0 {
            title.push_str(", ")?;
        }
        let member = member_title(alloc, catalog, cube, &tuple[i])?;
        title.push_str(member.as_str())?;
    }
    Ok(Text::from_string(title))
}

// The title of a measure.
fn measure_title(
    alloc: Global,
    catalog: &Catalog,
    cube: CubeId,
    measure: MeasureId,
) -> Result<Text, OutOfMemory>
    requires cube { cube < length catalog.now.cubes }
    requires measure { measure < measure_count catalog.now cube }
    ensures title { IfOk result (λ text. text ≡ title catalog.now cube (Member.Measure measure)) }
    ensures named { IfOk result IsNamed }
{
    catalog.has_names();
    let root = name_text(alloc, "Measures")?;
    let measures = catalog.cube(cube).measures.as_slice();
    let name = name_text(alloc, measures[measure.0 as usize].name.as_str())?;
    let title = format!(in alloc; "{root}.{name}")?;
    Ok(Text::from_string(title))
}

// The title of an all member.
fn all_title(alloc: Global, catalog: &Catalog, h: HierarchyId) -> Result<Text, OutOfMemory>
    requires hierarchy { h < length catalog.now.hierarchies }
    requires named { IsSome (all_text catalog.now h) }
    ensures title { IfOk result
        (λ text. (cube : ℕ) → text ≡ title catalog.now cube (Member.All h)) }
    ensures named { IfOk result IsNamed }
{
    catalog.has_names();
    let hierarchy = name_text(alloc, catalog.full_name(h))?;
    let all = catalog.hierarchy(h).all_member.as_ref().unwrap();
    let name = name_text(alloc, all.as_str())?;
    let title = format!(in alloc; "{hierarchy}.{name}")?;
    Ok(Text::from_string(title))
}

// The title of a member by its path: its hierarchy and each value of the path.
fn path_title(
    alloc: Global,
    catalog: &Catalog,
    h: HierarchyId,
    path: &[ValueId],
) -> Result<Text, OutOfMemory>
    requires hierarchy { h < length catalog.now.hierarchies }
    requires path { is_path catalog.now (level_columns catalog.now h) path.now ≡ true }
    ensures title { IfOk result
        (λ text. (cube : ℕ) → text ≡ title catalog.now cube (Member.At h path.now)) }
    ensures named { IfOk result IsNamed }
{
    catalog.has_names();
    let mut title = name_text(alloc, catalog.full_name(h))?.into_string();
    let levels = catalog.hierarchy(h).levels.as_slice();
    for i in 0..path.len() {
        let name = name_text(alloc, catalog.value_name(levels[i], path[i]))?;
        title.push_str(".")?;
        title.push_str(name.as_str())?;
    }
    Ok(Text::from_string(title))
}
