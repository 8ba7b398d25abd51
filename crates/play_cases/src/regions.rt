//! The regions of flushes, by their texts.
ghost use Rattle.std.specs.Prelude.{IfOk, IsTrue};
ghost use Rattle.olap_meaning.specs.Legal.{is_flushable};

use crate::lines::Wrong;
use olap_catalog::Catalog;
use olap_meaning::Region;
use query_meaning::RegionText;
use region_algebra::resolve_region;
use region_reader::read_region;
use std::alloc::Global;

// The region that a flush means.
fn meant(alloc: Global, catalog: &Catalog, text: &RegionText) -> Result<Region, Wrong>
    ensures { IfOk result (λ region. IsTrue (is_flushable catalog.now region)) }
{
    match resolve_region(alloc, catalog, text) {
        Ok(region) => Ok(region),
        Err(_) => Err(Wrong::Words("no region")),
    }
}

/// The region that the text of a flush means.
pub(crate) fn region_of(alloc: Global, catalog: &Catalog, text: &str) -> Result<Region, Wrong>
    ensures { IfOk result (λ region. IsTrue (is_flushable catalog.now region)) }
{
    match read_region(alloc, text) {
        Ok(text) => meant(alloc, catalog, &text),
        Err(_) => Err(Wrong::Words("no flush")),
    }
}
