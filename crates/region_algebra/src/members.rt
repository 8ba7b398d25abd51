//! The regions of members, and of the measures.
ghost use Rattle.std.specs.Prelude.{◌≡◌, ◌<◌, ◌∷◌, [], length, map, take, IfOk};
ghost use Rattle.std.specs.List.{zip};
ghost use Rattle.olap_meaning.specs.MemberOf.{IsMemberOf};
ghost use Rattle.query_meaning.specs.RegionMeaning as meaning;
ghost use Rattle.region_algebra.specs.Regions.{HasHierarchy, IsBoundedOf};

use olap_catalog::Catalog;
use olap_meaning::{
    ColumnId, CubeId, HierarchyId, List, MeasureId, Member, OutOfMemory, Region, RegionBox,
    RegionDim, ValueId,
};
use std::alloc::Global;

/// The region of a member: its one box. A measure's box has that measure alone; an all member's names no column.
pub fn member(
    alloc: Global,
    catalog: &Catalog,
    cube: CubeId,
    member: &Member,
) -> Result<Region, OutOfMemory>
    requires known { cube < length catalog.now.cubes }
    requires own { IsMemberOf catalog.now cube member.now }
    ensures region { IfOk result
        (λ region. region ≡ meaning.member_region catalog.now cube member.now) }
    ensures own { IfOk result (IsBoundedOf catalog.now cube) }
{
    let mut boxes = List::new(alloc);
    boxes.push(member_box(alloc, catalog, member)?)?;
    let dims = one_dim(alloc, dim_of(catalog, member))?;
    Ok(Region { cube, dims, boxes })
}

/// The region of the measures: one box, with all measures of the cube.
pub fn measures(alloc: Global, catalog: &Catalog, cube: CubeId) -> Result<Region, OutOfMemory>
    requires { cube < length catalog.now.cubes }
    ensures region { IfOk result (λ region. region ≡ meaning.measures_region catalog.now cube) }
    ensures own { IfOk result (IsBoundedOf catalog.now cube) }
{
    let mut boxes = List::new(alloc);
    boxes.push(RegionBox {
        measures: Some(measures_of(alloc, catalog, cube)?),
        columns: List::new(alloc),
    })?;
    let dims = one_dim(alloc, RegionDim::Measures)?;
    Ok(Region { cube, dims, boxes })
}

// The measures of a cube, by number.
fn measures_of(
    alloc: Global,
    catalog: &Catalog,
    cube: CubeId,
) -> Result<List<MeasureId>, OutOfMemory>
    requires { cube < length catalog.now.cubes }
    ensures { IfOk result (λ measures. measures ≡ meaning.measures_of catalog.now cube) }
{
    catalog.is_whole();
    let count = catalog.cube(cube).measures.len();
    let mut measures = List::new(alloc);
    for i in 0..count {
        measures.push(MeasureId(i as u16))?;
    }
    Ok(measures)
}

// A dimension alone.
fn one_dim(alloc: Global, dimension: RegionDim) -> Result<List<RegionDim>, OutOfMemory>
    ensures { IfOk result (λ dims. dims ≡ dimension ∷ []) }
{
    let mut dims = List::new(alloc);
    dims.push(dimension)?;
    Ok(dims)
}

/// The dimension of a member.
pub(crate) fn dim_of(catalog: &Catalog, member: &Member) -> RegionDim
    requires { HasHierarchy catalog.now member.now }
    ensures { result ≡ meaning.dim_of catalog.now member.now }
{
    match member {
        Member::Measure(_) => RegionDim::Measures,
        Member::All(h) => hierarchy_dim(catalog, *h),
        Member::At(h, _) => hierarchy_dim(catalog, *h),
    }
}

// The dimension of a hierarchy.
fn hierarchy_dim(catalog: &Catalog, h: HierarchyId) -> RegionDim
    requires { h < length catalog.now.hierarchies }
    ensures { result ≡ meaning.hierarchy_dim catalog.now h }
{
    RegionDim::Dimension(catalog.hierarchy(h).dimension)
}

// The measures that a member names.
fn named_measures(alloc: Global, member: &Member) -> Result<Option<List<MeasureId>>, OutOfMemory>
    ensures { IfOk result (λ measures. measures ≡ meaning.named_measures member.now) }
{
    match member {
        Member::Measure(m) => {
            let mut measures = List::new(alloc);
            measures.push(*m)?;
            Ok(Some(measures))
        }
        Member::All(_) => Ok(None),
        Member::At(_, _) => Ok(None),
    }
}

// Some columns with one value each.
fn with_lists(
    alloc: Global,
    pairs: &[(ColumnId, ValueId)],
) -> Result<List<(ColumnId, List<ValueId>)>, OutOfMemory>
    ensures { IfOk result (λ columns. columns ≡ map (λ pair. (pair.0, pair.1 ∷ [])) pairs.now) }
{
    let mut columns = List::new(alloc);
    for pair in pairs {
        let mut values = List::new(alloc);
        values.push(pair.1)?;
        columns.push((pair.0, values))?;
    }
    Ok(columns)
}

// The box of a member.
fn member_box(alloc: Global, catalog: &Catalog, member: &Member) -> Result<RegionBox, OutOfMemory>
    ensures { IfOk result (λ made. made ≡ meaning.member_box catalog.now member.now) }
{
    let measures = named_measures(alloc, member)?;
    let pairs = catalog.cell_box(alloc, member)?;
    let columns = with_lists(alloc, pairs.as_slice())?;
    Ok(RegionBox { measures, columns })
}

// A value alone.
fn one_value(alloc: Global, value: ValueId) -> Result<List<ValueId>, OutOfMemory>
    ensures { IfOk result (λ values. values ≡ value ∷ []) }
{
    let mut values = Vec::with_capacity(alloc, 1)?;
    values.push(value)?;
    Ok(List::from_vec(values))
}

// A value alone, in the memory of a path.
fn value_instead(path: List<ValueId>, value: ValueId) -> Result<List<ValueId>, OutOfMemory>
    ensures { IfOk result (λ values. values ≡ value ∷ []) }
{
    let mut values = path.into_vec();
    values.clear();
    values.push(value)?;
    Ok(List::from_vec(values))
}

// The columns of the levels before the last with one value of a path each, and room for one more.
fn first_columns(
    alloc: Global,
    levels: &[ColumnId],
    path: &[ValueId],
    last: usize,
) -> Result<Vec<(ColumnId, List<ValueId>)>, OutOfMemory>
    requires levels { last < length levels.now }
    requires path { last < length path.now }
    ensures { IfOk result (λ columns. columns.items
        ≡ map (λ pair. (pair.0, pair.1 ∷ [])) (zip (take last levels.now) (take last path.now))) }
{
    let mut columns = Vec::with_capacity(alloc, last + 1)?;
    for i in 0..last {
        columns.push((levels[i], one_value(alloc, path[i])?))?;
    }
    Ok(columns)
}

// The columns of levels with one value of a path each, as far as both go. The last one's list is the path's own.
fn columns_along(
    alloc: Global,
    levels: &[ColumnId],
    path: List<ValueId>,
) -> Result<List<(ColumnId, List<ValueId>)>, OutOfMemory>
    ensures { IfOk result
        (λ columns. columns ≡ map (λ pair. (pair.0, pair.1 ∷ [])) (zip levels.now path)) }
{
    let count = levels.len().min(path.len());
    if count == 0 {
        return Ok(List::new(alloc));
    }
    let last = count - 1;
    let mut columns = first_columns(alloc, levels, path.as_slice(), last)?;
    let value = path.as_slice()[last];
    columns.push((levels[last], value_instead(path, value)?))?;
    Ok(List::from_vec(columns))
}

// The box of the member of a hierarchy that a path leads to.
fn box_at(
    alloc: Global,
    catalog: &Catalog,
    h: HierarchyId,
    path: List<ValueId>,
) -> Result<RegionBox, OutOfMemory>
    ensures { IfOk result (λ made. made ≡ meaning.member_box catalog.now (Member.At h path)) }
{
    let measures = None;
    if u32::from(h.0) >= catalog.hierarchy_count() {
        let columns = List::new(alloc);
        return Ok(RegionBox { measures, columns });
    }
    let columns = columns_along(alloc, catalog.hierarchy(h).levels.as_slice(), path)?;
    Ok(RegionBox { measures, columns })
}

// The box of a member that is given up.
fn box_of(alloc: Global, catalog: &Catalog, member: Member) -> Result<RegionBox, OutOfMemory>
    ensures { IfOk result (λ made. made ≡ meaning.member_box catalog.now member) }
{
    match member {
        Member::Measure(m) => member_box(alloc, catalog, &Member::Measure(m)),
        Member::All(h) => member_box(alloc, catalog, &Member::All(h)),
        Member::At(h, path) => box_at(alloc, catalog, h, path),
    }
}

// The box of each of some members.
fn boxes_of(
    alloc: Global,
    catalog: &Catalog,
    members: List<Member>,
) -> Result<List<RegionBox>, OutOfMemory>
    ensures { IfOk result (λ boxes. boxes ≡ map (meaning.member_box catalog.now) members) }
{
    let mut boxes = Vec::with_capacity(alloc, members.len())?;
    for member in members.into_vec() {
        boxes.push(box_of(alloc, catalog, member)?)?;
    }
    Ok(List::from_vec(boxes))
}

/// The region of some members of one dimension: the box of each.
pub(crate) fn members_region(
    alloc: Global,
    catalog: &Catalog,
    cube: CubeId,
    dimension: RegionDim,
    members: List<Member>,
) -> Result<Region, OutOfMemory>
    ensures { IfOk result (λ region. region
        ≡ meaning.members_region catalog.now cube dimension members) }
{
    let boxes = boxes_of(alloc, catalog, members)?;
    let dims = one_dim(alloc, dimension)?;
    Ok(Region { cube, dims, boxes })
}
