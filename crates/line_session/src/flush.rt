//! What is replied to a flush.
ghost use Rattle.std.specs.Prelude.{◌≡◌, ◌⊎◌, ◌++◌, ℕ, [], codes, IfOk, IsSomeAnd, IsTrue, Ok, Option};
ghost use Rattle.olap_meaning.specs.Legal.{is_flushable};
ghost use Rattle.olap_meaning.specs.MemberOf.{IsMemberOf};
ghost use Rattle.olap_meaning.specs.Texts.{line};
ghost use Rattle.query_meaning.specs.RegionMeaning.{flush_meant};
ghost use Rattle.query_meaning.specs.RegionReplies as replies;
ghost use Rattle.query_meaning.specs.RegionReplies.{cube_named};
ghost use Rattle.query_meaning.specs.Replies.{no_memory_reply};
ghost use Rattle.region_algebra.specs.Faults.{NamesMembersOf, refusal_of};
ghost use Rattle.line_session.specs.Replies.{AnswersFlush};

use crate::desk::Desk;
use crate::reply::Reply;
use olap_catalog::Catalog;
use olap_meaning::{CubeId, Member, OutOfMemory, Region, RegionDim, Text, name_text, named_line};
use query_meaning::RegionText;
use region_algebra::{RegionFault, resolve_region};
use result_layout::member_title;
use std::alloc::Global;

// The name of a dimension of regions.
fn dim_name(catalog: &Catalog, dimension: RegionDim) -> &str
    ensures { result.now ≡ replies.dim_name catalog.now dimension }
{
    match dimension {
        RegionDim::Measures => "Measures",
        RegionDim::Dimension(d) => match catalog.schema().dimensions.get(d as usize) {
            Some(dimension) => dimension.name.as_str(),
            None => "",
        },
    }
}

// The name texts of dimensions, with a comma and a space between each two.
fn dims_text(alloc: Global, catalog: &Catalog, dims: &[RegionDim]) -> Result<Text, OutOfMemory>
    ensures { IfOk result (λ text. text ≡ replies.dims_text catalog.now dims.now) }
{
    let Some((first, others)) = dims.split_first() else {
        return Ok(Text::new(alloc));
    };
    let mut text = name_text(alloc, dim_name(catalog, *first))?.into_string();
    for one in others {
        let name = name_text(alloc, dim_name(catalog, *one))?;
        text.push_str(", ")?;
        text.push_str(name.as_str())?;
    }
    Ok(Text::from_string(text))
}

// The line that tells a dimension of two parts.
fn common_line(alloc: Global, catalog: &Catalog, dimension: RegionDim) -> Result<Text, OutOfMemory>
    ensures { IfOk result (λ told. told ≡ replies.common_reply catalog.now dimension) }
{
    named_line(alloc, "ERR 13 REGION COMMON", dim_name(catalog, dimension))
}

// The line of a label and two texts, with a semicolon and a space between these.
fn pair_line(alloc: Global, label: &str, first: &Text, second: &Text) -> Result<Text, OutOfMemory>
    ensures { IfOk result
        (λ made. made ≡ line (label.now ++ first.now ++ codes "; " ++ second.now)) }
{
    let made = format!(in alloc; "{label}{first}; {second}\n")?;
    Ok(Text::from_string(made))
}

// The line that tells the dimensions of two parts.
fn mismatch_line(
    alloc: Global,
    catalog: &Catalog,
    first: &[RegionDim],
    second: &[RegionDim],
) -> Result<Text, OutOfMemory>
    ensures { IfOk result (λ told. told ≡ replies.mismatch_reply catalog.now first.now second.now) }
{
    let first = dims_text(alloc, catalog, first)?;
    let second = dims_text(alloc, catalog, second)?;
    pair_line(alloc, "ERR 13 REGION MISMATCH ", &first, &second)
}

// The line that tells the ends of a range.
fn levels_line(
    alloc: Global,
    catalog: &Catalog,
    cube: CubeId,
    first: &Member,
    last: &Member,
) -> Result<Text, OutOfMemory>
    requires first { IsMemberOf catalog.now cube first.now }
    requires last { IsMemberOf catalog.now cube last.now }
    ensures { IfOk result (λ told. told ≡ replies.levels_reply catalog.now cube first.now last.now) }
{
    let first = member_title(alloc, catalog, cube, first)?;
    let last = member_title(alloc, catalog, cube, last)?;
    pair_line(alloc, "ERR 13 REGION LEVELS ", &first, &last)
}

// The reply to a flush of a cube that means no region.
fn reply_to_fault(alloc: Global, catalog: &Catalog, text: &RegionText, fault: &RegionFault) -> Reply
    requires { NamesMembersOf catalog.now text.now fault.now }
    ensures { (result ≡ no_memory_reply) ⊎ IsSomeAnd (refusal_of fault.now)
        (λ refused. result ≡ replies.flush_refusal_reply catalog.now
        (cube_named catalog.now text.now) refused) }
{
    match fault {
        RegionFault::UnknownCube { name } => {
            Reply::made(named_line(alloc, "ERR 5 CUBE", name.as_str()))
        }
        RegionFault::UnknownMember { name } => {
            Reply::made(named_line(alloc, "ERR 6 MEMBER", name.as_str()))
        }
        RegionFault::CommonDimension { dimension } => {
            Reply::made(common_line(alloc, catalog, *dimension))
        }
        RegionFault::Mismatch { first, second } => {
            Reply::made(mismatch_line(alloc, catalog, first.as_slice(), second.as_slice()))
        }
        RegionFault::NoMeasures => Reply::fixed("ERR 13 REGION MEASURES\n"),
        RegionFault::RangeLevels { first, second } => {
            let cube = catalog.find_cube(text.cube.as_str()).unwrap();
            Reply::made(levels_line(alloc, catalog, cube, first, second))
        }
        RegionFault::TooManyBoxes { count, limit } => {
            Reply::numbers("ERR 13 REGION BOXES", &[*count, u64::from(*limit)])
        }
        RegionFault::OutOfMemory => Reply::no_memory(),
    }
}

// The reply to a region, which is flushed at a desk.
fn reply_to_region<P: Desk>(desk: &mut P, region: Region) -> Reply
    requires { IsTrue (is_flushable (P.seen desk.old).cache.setting.catalog region) }
    ensures { (cube : ℕ) → (position : Option ℕ)
        × AnswersFlush (record { before = P.seen desk.old; after = P.seen desk.new; asked = [] })
        cube (Ok region) position result }
{
    match desk.flush(region) {
        Ok(position) => Reply::numbers("FLUSHED", &[position]),
        Err(OutOfMemory) => Reply::no_memory(),
    }
}

/// The reply to a flush: the region that it means is flushed at a desk; or its first refusal.
pub(crate) fn reply_to_flush<P: Desk>(
    alloc: Global,
    desk: &mut P,
    catalog: &Catalog,
    text: &RegionText,
) -> Reply
    requires { catalog.now ≡ (P.seen desk.old).cache.setting.catalog }
    ensures { (position : Option ℕ)
        × AnswersFlush (record { before = P.seen desk.old; after = P.seen desk.new; asked = [] })
        (cube_named catalog.now text.now) (flush_meant catalog.now text.now) position result }
{
    match resolve_region(alloc, catalog, text) {
        Ok(region) => reply_to_region(desk, region),
        Err(fault) => reply_to_fault(alloc, catalog, text, &fault),
    }
}
