//! The member of a cell that is of a root: the measures, or a hierarchy.
ghost use Rattle.std.specs.Prelude.{◌≡◌, ◌++◌, option_copied};
ghost use Rattle.query_meaning.specs.Resolution.{is_root, root_of};
ghost use Rattle.cell_request.specs.Standing as standing;

use olap_meaning::{LevelRef, MeasureId, Member};

/// The first member of a root among those of a cell: of its column, its row and the slicer.
pub(crate) fn member_of_root<'a>(
    column: &'a [Member],
    row: &'a [Member],
    slicer: &'a [Member],
    root: &LevelRef,
) -> Option<&'a Member>
    ensures { option_copied result
        ≡ standing.member_of_root root.now (column.now ++ row.now ++ slicer.now) }
{
    if let Some(member) = first_of_root(column, root) {
        return Some(member);
    }
    if let Some(member) = first_of_root(row, root) {
        return Some(member);
    }
    first_of_root(slicer, root)
}

// The first member of a root among some.
fn first_of_root<'a>(members: &'a [Member], root: &LevelRef) -> Option<&'a Member>
    ensures { option_copied result ≡ standing.member_of_root root.now members.now }
{
    members.iter().find(|member| is_of_root(member, root))
}

// Whether a member is one of a root.
fn is_of_root(member: &Member, root: &LevelRef) -> bool
    ensures { result ≡ is_root (root_of member.now) root.now }
{
    match (member, root) {
        (Member::Measure(_), LevelRef::Measures) => true,
        (Member::All(of), LevelRef::Whole(h)) => *of == *h,
        (Member::At(of, _), LevelRef::Whole(h)) => *of == *h,
        _ => false,
    }
}

/// The measure of a cell: the first among its members, or else the first of a cube.
pub(crate) fn measure_among(column: &[Member], row: &[Member], slicer: &[Member]) -> MeasureId
    ensures { result ≡ standing.measure_among (column.now ++ row.now ++ slicer.now) }
{
    match member_of_root(column, row, slicer, &LevelRef::Measures) {
        Some(Member::Measure(measure)) => *measure,
        _ => MeasureId(0),
    }
}
