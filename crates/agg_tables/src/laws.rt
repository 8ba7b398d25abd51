//! Laws of the definitions. A call of one costs nothing.
ghost use Rattle.std.specs.Prelude.{◌≡◌, ℕ, Some};
ghost use Rattle.agg_tables.specs.Bound.{IsPlaced};
ghost use Rattle.agg_tables.specs.Cheapest.{CheapestIsLeast};
ghost use Rattle.agg_tables.specs.Declarations.{declared_table};
ghost use Rattle.agg_tables.specs.RightFiles.{RightFilesHaveNoFault};
ghost use Rattle.agg_tables.specs.declared.declared.Declared.{Declared};

use olap_catalog::Catalog;

/// Each declared table is one of its catalog: it has a cube, its columns are those of the cube's dimensions, and its measures
/// the cube's.
pub fn tables_are_placed(catalog: &Catalog)
    ensures { (table : ℕ) (declared : Declared) → declared_table catalog.now table ≡ Some declared
        → IsPlaced catalog.now declared }
{
    catalog.is_whole();
    catalog.layout_holds();
}

/// A file of an aggregate table has no fault exactly where it is right: it has the columns, each group of the fact rows has one
/// record, in whatever order, and each record says what the rows of its group give.
pub fn right_files_have_no_fault()
    ensures { RightFilesHaveNoFault }
{}

/// What a load reads is the cheapest of the facts and some tables that may be read: of several that cost as much the first, and
/// the facts last.
pub fn cheapest_is_least()
    ensures { CheapestIsLeast }
{}
