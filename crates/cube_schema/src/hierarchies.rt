//! The hierarchies of a dimension, and their levels.
ghost use Rattle.std.specs.Prelude.{◌≡◌, ◌≤◌, ◌+◌, ◌++◌, ◌∷◌, [], bytes_eq, option_map, unwrap_or, Ok, Err, IfOk, IfErr, OnOk, length, map};
ghost use Rattle.std.specs.List.{list_any};
ghost use Rattle.olap_meaning.specs.FullNames.{joined_name};
ghost use Rattle.olap_meaning.specs.Whole.{has_level};
ghost use Rattle.olap_meaning.specs.declared.schema.TheConstants.{LEVEL_LIMIT};
ghost use Rattle.serde_json.specs.View.{view};
ghost use Rattle.cube_schema.specs.declared.place.SchemaKey.TheVariants.{Hierarchies, Levels};
ghost use Rattle.cube_schema.specs.declared.place.SchemaNode.TheVariants.{Dimension, Hierarchy, Level};
ghost use Rattle.cube_schema.specs.Readers.{IsFaultOf};
ghost use Rattle.cube_schema.specs.Dimensions.{default_all_member, hierarchy_of, is_taken, level_of, some_beside};
ghost use Rattle.cube_schema.specs.Lists.{items_at, items_from, some};
ghost use Rattle.cube_schema.specs.Taken.{IsTakenBy, IsTakenWith};

use crate::fault::SchemaFault;
use crate::fields::{
    check_count, check_filled, check_object, find_list, find_name, find_optional_name, read_bool,
    read_name,
};
use crate::place::{SchemaKey, SchemaNode, SchemaPlace};
use olap_meaning::schema::{LEVEL_LIMIT, SchemaDimension, SchemaHierarchy, SchemaLevel};
use olap_meaning::{List, OutOfMemory, Text};
use serde_json::Value;
use std::alloc::Global;

/// What the hierarchies that were read have taken: their full names, and the number of their levels.
#[derive(Drop)]
pub(crate) struct Taken {
    names: List<Text>,
    levels: usize,
}

impl Taken {
    /// Nothing. It takes no memory.
    pub(crate) fn new(alloc: Global) -> Taken
        ensures { result ≡ record { names = []; levels = 0 } }
    {
        Taken {
            names: List::new(alloc),
            levels: 0,
        }
    }

    // Whether no hierarchy may have this full name any more.
    fn is_taken(&self, name: &str) -> bool
        ensures { result ≡ is_taken name.now self.now.names }
    {
        name == "Measures" || has_text(self.names.as_slice(), name)
    }

    // Takes what a hierarchy has.
    fn add(
        &mut self,
        alloc: Global,
        dimension_name: &str,
        hierarchy: &SchemaHierarchy,
    ) -> Result<(), OutOfMemory>
        requires { self.old.levels + length hierarchy.now.levels ≤ LEVEL_LIMIT }
        ensures { OnOk result (self.new ≡ record {
          names = self.old.names ++ joined_name dimension_name.now hierarchy.now.name ∷ [];
          levels = self.old.levels + length hierarchy.now.levels;
        }) }
    {
        let name = full_name(alloc, dimension_name, hierarchy.name.as_str())?;
        self.names.push(name)?;
        self.levels += hierarchy.levels.len();
        Ok(())
    }
}

// Whether a text is among some.
fn has_text(texts: &[Text], name: &str) -> bool
    ensures { result ≡ list_any (bytes_eq name.now) texts.now }
{
    texts.iter().any(|text| name == text.as_str())
}

/// Whether a level of this name is among some.
pub(crate) fn has_level(name: &str, levels: &[SchemaLevel]) -> bool
    ensures { result ≡ has_level name.now levels.now }
{
    levels.iter().any(|level| name == level.name.as_str())
}

// A level, after earlier ones of its hierarchy.
#[tactic(auto, unfolding(crate::specs::Dimensions::level_of))]
fn read_level(
    alloc: Global,
    dimension: usize,
    hierarchy: usize,
    earlier: &[SchemaLevel],
    value: &Value,
) -> Result<SchemaLevel, SchemaFault>
    ensures ok { IfOk result (λ level.
        level_of dimension hierarchy earlier.now (view value.now) ≡ Ok level) }
    ensures err { IfErr result (λ fault.
        IsFaultOf (level_of dimension hierarchy earlier.now (view value.now)) fault) }
{
    let node = SchemaNode::Level {
        dimension,
        hierarchy,
        level: earlier.len(),
    };
    check_object(node, value)?;
    let name = find_name(node, SchemaKey::Name, value)?;
    if has_level(name, earlier) {
        return Err(SchemaFault::TwiceNamed {
            place: SchemaPlace::Key {
                node,
                key: SchemaKey::Name,
            },
        });
    }
    let column = read_name(alloc, node, SchemaKey::Column, value)?;
    let name = Text::from_str(alloc, name)?;
    Ok(SchemaLevel { name, column })
}

// The levels of a hierarchy, by their items.
#[tactic(auto, unfolding(crate::specs::Lists::items_from))]
fn levels_of(
    alloc: Global,
    dimension: usize,
    hierarchy: usize,
    items: &[Value],
) -> Result<List<SchemaLevel>, SchemaFault>
    ensures ok { IfOk result (λ levels.
        items_from (level_of dimension hierarchy) [] (map view items.now) ≡ Ok levels) }
    ensures count { IfOk result (λ levels. length levels ≡ length items.now) }
    ensures err { IfErr result (λ fault.
        IsFaultOf (items_from (level_of dimension hierarchy) [] (map view items.now)) fault) }
{
    let mut levels = List::new(alloc);
    for item in items {
        let level = read_level(alloc, dimension, hierarchy, levels.as_slice(), item)?;
        levels.push(level)?;
    }
    Ok(levels)
}

// The levels of a hierarchy, where this many were read before it in the whole schema.
#[tactic(auto, unfolding(crate::specs::Lists::items_at))]
fn read_levels(
    alloc: Global,
    dimension: usize,
    hierarchy: usize,
    before: usize,
    value: &Value,
) -> Result<List<SchemaLevel>, SchemaFault>
    requires { before ≤ LEVEL_LIMIT }
    ensures ok { IfOk result (λ levels.
        items_at (Hierarchy dimension hierarchy) Levels
        (some_beside (Level dimension hierarchy 0) before)
        (level_of dimension hierarchy) (view value.now) ≡ Ok levels) }
    ensures room { IfOk result (λ levels. before + length levels ≤ LEVEL_LIMIT) }
    ensures err { IfErr result (λ fault. IsFaultOf
        (items_at (Hierarchy dimension hierarchy) Levels
        (some_beside (Level dimension hierarchy 0) before)
        (level_of dimension hierarchy) (view value.now)) fault) }
{
    let node = SchemaNode::Hierarchy {
        dimension,
        hierarchy,
    };
    let key = SchemaKey::Levels;
    let items = find_list(node, key, value)?;
    let count = before + items.len();
    check_count(SchemaPlace::Key { node, key }, count, LEVEL_LIMIT)?;
    let first = SchemaNode::Level {
        dimension,
        hierarchy,
        level: 0,
    };
    check_filled(first, items)?;
    levels_of(alloc, dimension, hierarchy, items)
}

/// The full name of a hierarchy.
pub(crate) fn full_name(alloc: Global, dimension: &str, own: &str) -> Result<Text, OutOfMemory>
    ensures { IfOk result (λ name. name ≡ joined_name dimension.now own.now) }
{
    if own == dimension {
        return Text::from_str(alloc, own);
    }
    let name = format!(in alloc; "{dimension}.{own}")?;
    Ok(Text::from_string(name))
}

// The name of the all member, by the hierarchy's name where it has none of its own.
fn all_member_name(alloc: Global, own: Option<&str>, hierarchy: &str) -> Result<Text, OutOfMemory>
    ensures { IfOk result (λ name.
        name ≡ unwrap_or (option_map (λ s. s.now) own.entry) (default_all_member hierarchy.now)) }
{
    if let Some(name) = own {
        return Text::from_str(alloc, name);
    }
    let name = format!(in alloc; "All {hierarchy}s")?;
    Ok(Text::from_string(name))
}

// A name, or another where there is none.
fn name_or<'a>(own: Option<&'a str>, default: &'a str) -> &'a str
    ensures { result.now ≡ unwrap_or (option_map (λ s. s.now) own.entry) default.entry.now }
{
    match own {
        Some(name) => name,
        None => default,
    }
}

// A hierarchy, after earlier ones of the dimension of this name, which follows some dimensions.
#[tactic(auto, unfolding(crate::specs::Dimensions::hierarchy_of))]
fn read_hierarchy(
    alloc: Global,
    dimensions: &[SchemaDimension],
    dimension_name: &str,
    earlier: &[SchemaHierarchy],
    taken: &Taken,
    value: &Value,
) -> Result<SchemaHierarchy, SchemaFault>
    requires { IsTakenWith dimensions.now dimension_name.now earlier.now taken.now }
    ensures ok { IfOk result (λ found.
        hierarchy_of dimensions.now dimension_name.now earlier.now (view value.now) ≡ Ok found) }
    ensures room { IfOk result (λ found. taken.now.levels + length found.levels ≤ LEVEL_LIMIT) }
    ensures err { IfErr result (λ fault. IsFaultOf
        (hierarchy_of dimensions.now dimension_name.now earlier.now (view value.now)) fault) }
{
    let dimension = dimensions.len();
    let hierarchy = earlier.len();
    let node = SchemaNode::Hierarchy {
        dimension,
        hierarchy,
    };
    check_object(node, value)?;
    let name = name_or(
        find_optional_name(node, SchemaKey::Name, value)?,
        dimension_name,
    );
    if taken.is_taken(full_name(alloc, dimension_name, name)?.as_str()) {
        return Err(SchemaFault::TwiceNamed {
            place: SchemaPlace::Node { node },
        });
    }
    let has_all = read_bool(node, SchemaKey::HasAll, true, value)?;
    let all_member = find_optional_name(node, SchemaKey::AllMemberName, value)?;
    let levels = read_levels(alloc, dimension, hierarchy, taken.levels, value)?;
    Ok(SchemaHierarchy {
        name: Text::from_str(alloc, name)?,
        has_all,
        all_member_name: all_member_name(alloc, all_member, name)?,
        levels,
    })
}

// The hierarchies of the dimension of this name, by their items. They are added to what is taken.
#[tactic(auto, using(crate::proofs::TakenFacts::taken_facts), unfolding(crate::specs::Lists::items_from))]
fn hierarchies_of(
    alloc: Global,
    dimensions: &[SchemaDimension],
    dimension_name: &str,
    taken: &mut Taken,
    items: &[Value],
) -> Result<List<SchemaHierarchy>, SchemaFault>
    requires { IsTakenBy dimensions.now taken.old }
    ensures ok { IfOk result (λ hierarchies. items_from
        (hierarchy_of dimensions.now dimension_name.now) [] (map view items.now) ≡ Ok hierarchies) }
    ensures taken { IfOk result (λ hierarchies.
        IsTakenWith dimensions.now dimension_name.now hierarchies taken.new) }
    ensures err { IfErr result (λ fault. IsFaultOf (items_from
        (hierarchy_of dimensions.now dimension_name.now) [] (map view items.now)) fault) }
{
    let mut hierarchies = List::new(alloc);
    for item in items {
        let hierarchy = read_hierarchy(
            alloc,
            dimensions,
            dimension_name,
            hierarchies.as_slice(),
            taken,
            item,
        )?;
        taken.add(alloc, dimension_name, &hierarchy)?;
        hierarchies.push(hierarchy)?;
    }
    Ok(hierarchies)
}

/// The hierarchies of the dimension of this name, which follows some dimensions. They are added to what is taken.
#[tactic(auto, unfolding(crate::specs::Lists::items_at))]
pub(crate) fn read_hierarchies(
    alloc: Global,
    dimensions: &[SchemaDimension],
    dimension_name: &str,
    taken: &mut Taken,
    value: &Value,
) -> Result<List<SchemaHierarchy>, SchemaFault>
    requires { IsTakenBy dimensions.now taken.old }
    ensures ok { IfOk result (λ hierarchies.
        items_at (Dimension (length dimensions.now)) Hierarchies
        (some (Hierarchy (length dimensions.now) 0))
        (hierarchy_of dimensions.now dimension_name.now) (view value.now) ≡ Ok hierarchies) }
    ensures taken { IfOk result (λ hierarchies.
        IsTakenWith dimensions.now dimension_name.now hierarchies taken.new) }
    ensures err { IfErr result (λ fault. IsFaultOf
        (items_at (Dimension (length dimensions.now)) Hierarchies
        (some (Hierarchy (length dimensions.now) 0))
        (hierarchy_of dimensions.now dimension_name.now) (view value.now)) fault) }
{
    let dimension = dimensions.len();
    let node = SchemaNode::Dimension { dimension };
    let items = find_list(node, SchemaKey::Hierarchies, value)?;
    let first = SchemaNode::Hierarchy {
        dimension,
        hierarchy: 0,
    };
    check_filled(first, items)?;
    hierarchies_of(alloc, dimensions, dimension_name, taken, items)
}
