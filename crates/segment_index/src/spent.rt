//! Loads that are shut off as a whole leave the lists in which a look finds loads.
ghost use Rattle.std.specs.Prelude.{◌≡◌, ◌++◌, ◌∷◌, ℕ, [], List};
ghost use Rattle.olap_meaning.specs.declared.regions.Region.{Region};
ghost use Rattle.olap_meaning.specs.Rolled.{value_count};
ghost use Rattle.segment_index.specs.Grouping.{places_at};
ghost use Rattle.segment_index.specs.Keeping.{AreKept};

use crate::listing::Lists;
use crate::loads::Loads;
use olap_catalog::Catalog;
use olap_meaning::Region;

// Takes a load out of the lists, where a region that was flushed last shuts it off as a whole.
fn unlist_one(catalog: &Catalog, loads: &Loads, lists: &mut Lists, load: u64, region: &Region)
    requires last { (before : List Region)
        × (loads.now.flushed ≡ before ++ region.now ∷ []) }
    requires kept { AreKept (value_count catalog.now) lists.old.masks lists.old.cells loads.now.loads }
    ensures kept { AreKept (value_count catalog.now) lists.new.masks lists.new.cells loads.now.loads }
    ensures masks { (q : ℕ) → places_at lists.new.masks q ≡ places_at lists.old.masks q }
    ensures cells { (q : ℕ) → places_at lists.new.cells q ≡ places_at lists.old.cells q }
{
    loads.numbers_differ();
    if let Some(kept) = loads.gone(catalog, load, region) {
        lists.remove(catalog, kept.body.header(), load);
    }
}

/// Takes those of some loads out of the lists which a region that was flushed last shuts off as a whole. It takes no memory.
pub(crate) fn unlist(
    catalog: &Catalog,
    loads: &Loads,
    lists: &mut Lists,
    numbers: &[u64],
    region: &Region,
)
    requires last { (before : List Region)
        × (loads.now.flushed ≡ before ++ region.now ∷ []) }
    requires kept { AreKept (value_count catalog.now) lists.old.masks lists.old.cells loads.now.loads }
    ensures kept { AreKept (value_count catalog.now) lists.new.masks lists.new.cells loads.now.loads }
    ensures masks { (q : ℕ) → places_at lists.new.masks q ≡ places_at lists.old.masks q }
    ensures cells { (q : ℕ) → places_at lists.new.cells q ≡ places_at lists.old.cells q }
{
    for number in numbers {
        unlist_one(catalog, loads, lists, *number, region);
    }
}
