//! The dimensions of a schema.
ghost use Rattle.std.specs.Prelude.{◌≡◌, ◌++◌, ◌∷◌, [], Ok, Err, IfOk, IfErr, map};
ghost use Rattle.serde_json.specs.View.{view};
ghost use Rattle.cube_schema.specs.Readers.{IsFaultOf};
ghost use Rattle.cube_schema.specs.Dimensions.{dimension_of, has_dimension};
ghost use Rattle.cube_schema.specs.Lists.{items_from};
ghost use Rattle.cube_schema.specs.Taken.{IsTakenBy};

use crate::fault::SchemaFault;
use crate::fields::{check_object, find_name, read_file_name, read_name};
use crate::hierarchies::{Taken, read_hierarchies};
use crate::place::{SchemaKey, SchemaNode, SchemaPlace};
use olap_meaning::schema::SchemaDimension;
use olap_meaning::{List, Text};
use serde_json::Value;
use std::alloc::Global;

/// Whether a dimension of this name is among some.
pub(crate) fn has_dimension(name: &str, dimensions: &[SchemaDimension]) -> bool
    ensures { result ≡ has_dimension name.now dimensions.now }
{
    dimensions
        .iter()
        .any(|dimension| name == dimension.name.as_str())
}

// A dimension, after earlier ones. Its hierarchies are added to what is taken.
#[tactic(auto, using(crate::proofs::TakenFacts::taken_facts), unfolding(crate::specs::Dimensions::dimension_of))]
fn read_dimension(
    alloc: Global,
    earlier: &[SchemaDimension],
    taken: &mut Taken,
    value: &Value,
) -> Result<SchemaDimension, SchemaFault>
    requires { IsTakenBy earlier.now taken.old }
    ensures ok { IfOk result (λ dimension.
        dimension_of earlier.now (view value.now) ≡ Ok dimension) }
    ensures taken { IfOk result (λ dimension.
        IsTakenBy (earlier.now ++ dimension ∷ []) taken.new) }
    ensures err { IfErr result (λ fault.
        IsFaultOf (dimension_of earlier.now (view value.now)) fault) }
{
    let node = SchemaNode::Dimension {
        dimension: earlier.len(),
    };
    check_object(node, value)?;
    let name = find_name(node, SchemaKey::Name, value)?;
    if name == "Measures" || has_dimension(name, earlier) {
        return Err(SchemaFault::TwiceNamed {
            place: SchemaPlace::Key {
                node,
                key: SchemaKey::Name,
            },
        });
    }
    let table = read_file_name(alloc, node, SchemaKey::Table, value)?;
    let primary_key = read_name(alloc, node, SchemaKey::PrimaryKey, value)?;
    let hierarchies = read_hierarchies(alloc, earlier, name, taken, value)?;
    let name = Text::from_str(alloc, name)?;
    Ok(SchemaDimension {
        name,
        table,
        primary_key,
        hierarchies,
    })
}

/// The dimensions of a schema, by their items.
#[tactic(auto, using(crate::proofs::TakenFacts::taken_facts), unfolding(crate::specs::Lists::items_from))]
pub(crate) fn read_dimensions(
    alloc: Global,
    items: &[Value],
) -> Result<List<SchemaDimension>, SchemaFault>
    ensures ok { IfOk result (λ dimensions.
        items_from dimension_of [] (map view items.now) ≡ Ok dimensions) }
    ensures err { IfErr result (λ fault.
        IsFaultOf (items_from dimension_of [] (map view items.now)) fault) }
{
    let mut taken = Taken::new(alloc);
    let mut dimensions = List::new(alloc);
    for item in items {
        let dimension = read_dimension(alloc, dimensions.as_slice(), &mut taken, item)?;
        dimensions.push(dimension)?;
    }
    Ok(dimensions)
}
