//! Where in a schema something stands.
ghost use Rattle.std.specs.Prelude.{◌≡◌};
ghost use Rattle.cube_schema.specs.Places.{between, key_text};

use std::fmt;

/// An object of a schema, by the places of the lists that lead to it. Places count from 0.
#[derive(Debug, Clone, Copy, PartialEq, Eq)]
pub enum SchemaNode {
    Schema,
    Dimension {
        dimension: usize,
    },
    Hierarchy {
        dimension: usize,
        hierarchy: usize,
    },
    Level {
        dimension: usize,
        hierarchy: usize,
        level: usize,
    },
    Cube {
        cube: usize,
    },
    Use {
        cube: usize,
        used: usize,
    },
    Measure {
        cube: usize,
        measure: usize,
    },
    Aggregate {
        table: usize,
    },
    AggregateLevel {
        table: usize,
        level: usize,
    },
    AggregateMeasure {
        table: usize,
        measure: usize,
    },
}

/// A key of a schema's objects.
#[derive(Debug, Clone, Copy, PartialEq, Eq)]
pub enum SchemaKey {
    Dimensions,
    Cubes,
    Aggregates,
    Name,
    Table,
    PrimaryKey,
    Hierarchies,
    HasAll,
    AllMemberName,
    Levels,
    Column,
    Fact,
    Source,
    ForeignKey,
    Measures,
    Aggregator,
    Cube,
    File,
    FactCount,
    Hierarchy,
    Level,
    Measure,
    CountColumn,
}

/// A place in a schema: an object, or a key of one.
#[derive(Debug, Clone, Copy, PartialEq, Eq)]
pub enum SchemaPlace {
    Node { node: SchemaNode },
    Key { node: SchemaNode, key: SchemaKey },
}

impl SchemaKey {
    /// The key as schemas spell it.
    #[tactic(auto, unfolding(crate::specs::Places::key_text))]
    pub fn text(self) -> &'static str
        ensures { result.now ≡ key_text self }
    {
        match self {
            SchemaKey::Dimensions => "dimensions",
            SchemaKey::Cubes => "cubes",
            SchemaKey::Aggregates => "aggregates",
            SchemaKey::Name => "name",
            SchemaKey::Table => "table",
            SchemaKey::PrimaryKey => "primaryKey",
            SchemaKey::Hierarchies => "hierarchies",
            SchemaKey::HasAll => "hasAll",
            SchemaKey::AllMemberName => "allMemberName",
            SchemaKey::Levels => "levels",
            SchemaKey::Column => "column",
            SchemaKey::Fact => "fact",
            SchemaKey::Source => "source",
            SchemaKey::ForeignKey => "foreignKey",
            SchemaKey::Measures => "measures",
            SchemaKey::Aggregator => "aggregator",
            SchemaKey::Cube => "cube",
            SchemaKey::File => "file",
            SchemaKey::FactCount => "factCount",
            SchemaKey::Hierarchy => "hierarchy",
            SchemaKey::Level => "level",
            SchemaKey::Measure => "measure",
            SchemaKey::CountColumn => "countColumn",
        }
    }
}

impl fmt::Display for SchemaKey {
    ghost use Rattle.std.specs.Prelude.{Some};
    ghost use Rattle.cube_schema.specs.Places.{key_text};

    ghost output = { λ key. Some (key_text key) };

    fn fmt<W: fmt::Write>(&self, f: &mut fmt::Formatter<W>) -> fmt::Result {
        f.write_str(self.text())
    }
}

impl SchemaNode {
    // What stands between the object's path and a key of it.
    fn between(self) -> &'static str
        ensures { result.now ≡ between self }
    {
        match self {
            SchemaNode::Schema => "",
            SchemaNode::Dimension { .. }
            | SchemaNode::Hierarchy { .. }
            | SchemaNode::Level { .. }
            | SchemaNode::Cube { .. }
            | SchemaNode::Use { .. }
            | SchemaNode::Measure { .. }
            | SchemaNode::Aggregate { .. }
            | SchemaNode::AggregateLevel { .. }
            | SchemaNode::AggregateMeasure { .. } => "/",
        }
    }
}

impl fmt::Display for SchemaNode {
    ghost use Rattle.std.specs.Prelude.{Some};
    ghost use Rattle.cube_schema.specs.Places.{node_text};

    ghost output = { λ node. Some (node_text node) };

    #[tactic(auto, unfolding(crate::specs::Places::node_text))]
    fn fmt<W: fmt::Write>(&self, f: &mut fmt::Formatter<W>) -> fmt::Result {
        match self {
            SchemaNode::Schema => Ok(()),
            SchemaNode::Dimension { dimension } => write!(f, "dimensions/{dimension}"),
            SchemaNode::Hierarchy {
                dimension,
                hierarchy,
            } => write!(f, "dimensions/{dimension}/hierarchies/{hierarchy}"),
            SchemaNode::Level {
                dimension,
                hierarchy,
                level,
            } => write!(
                f,
                "dimensions/{dimension}/hierarchies/{hierarchy}/levels/{level}"
            ),
            SchemaNode::Cube { cube } => write!(f, "cubes/{cube}"),
            SchemaNode::Use { cube, used } => write!(f, "cubes/{cube}/dimensions/{used}"),
            SchemaNode::Measure { cube, measure } => {
                write!(f, "cubes/{cube}/measures/{measure}")
            }
            SchemaNode::Aggregate { table } => write!(f, "aggregates/{table}"),
            SchemaNode::AggregateLevel { table, level } => {
                write!(f, "aggregates/{table}/levels/{level}")
            }
            SchemaNode::AggregateMeasure { table, measure } => {
                write!(f, "aggregates/{table}/measures/{measure}")
            }
        }
    }
}

/// The path of a place, as `cubes/0/measures/1/name`. That of the top is empty.
impl fmt::Display for SchemaPlace {
    ghost use Rattle.std.specs.Prelude.{Some};
    ghost use Rattle.cube_schema.specs.Places.{place_text};

    ghost output = { λ place. Some (place_text place) };

    #[tactic(auto, unfolding(crate::specs::Places::place_text))]
    fn fmt<W: fmt::Write>(&self, f: &mut fmt::Formatter<W>) -> fmt::Result {
        match self {
            SchemaPlace::Node { node } => write!(f, "{node}"),
            SchemaPlace::Key { node, key } => {
                let between = node.between();
                write!(f, "{node}{between}{key}")
            }
        }
    }
}
