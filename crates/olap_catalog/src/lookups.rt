//! Names of cubes and of aggregate tables, and what the first name of a path means.
ghost use Rattle.std.specs.Prelude.{◌≡◌, ◌<◌, ◌+◌, ◌∷◌, slice_get, option_and_then, length, map, IfSome};
ghost use Rattle.olap_meaning.specs.Catalog as meaning;

use crate::catalog::Catalog;
use catalog_tables::match_of;
use olap_meaning::{CubeId, HierarchyId, LevelRef, Text};

impl Catalog {
    /// The cube that a name means: by its exact text first, and then by the first that differs in the case of ASCII
    /// letters alone. It takes no memory.
    pub fn find_cube(&self, name: &str) -> Option<CubeId>
        ensures found { result ≡ meaning.find_cube self.now name.now }
        ensures known { IfSome result (λ cube. cube < length self.now.cubes) }
    {
        match match_of(name, self.cube_names.as_slice()) {
            None => None,
            Some(cube) => Some(CubeId(cube as u16)),
        }
    }

    /// The aggregate table that a name means, by the same rule. It is the number of its place in the schema.
    pub fn find_agg(&self, name: &str) -> Option<u32>
        ensures found { result ≡ meaning.find_agg self.now name.now }
        ensures known { IfSome result (λ table. table < length self.now.schema.aggregates) }
    {
        match match_of(name, self.table_names.as_slice()) {
            None => None,
            Some(table) => Some(table as u32),
        }
    }

    // What the first name of a path means in a cube.
    pub(crate) fn find_root(&self, cube: CubeId, name: &str) -> Option<LevelRef>
        requires { cube < length self.now.cubes }
        ensures { result ≡ meaning.find_root self.now cube name.now }
    {
        let names = &self.root_names.as_slice()[cube.0 as usize];
        let hierarchies = &self.roots.as_slice()[cube.0 as usize];
        root_at(names.as_slice(), hierarchies.as_slice(), name)
    }
}

// The measures or the hierarchy that a name means, by the names of these.
fn root_at(names: &[Text], hierarchies: &[HierarchyId], name: &str) -> Option<LevelRef>
    requires { length names.now ≡ length hierarchies.now + 1 }
    ensures { result
        ≡ option_and_then (slice_get (LevelRef.Measures ∷ map LevelRef.Whole hierarchies.now))
        (meaning.match_of name.now names.now) }
{
    match match_of(name, names) {
        None => None,
        Some(0) => Some(LevelRef::Measures),
        Some(i) => Some(LevelRef::Whole(hierarchies[i - 1])),
    }
}
