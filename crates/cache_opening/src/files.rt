//! Files of a depot, and what is made of them.
ghost use Rattle.std.specs.Prelude.{◌≡◌};
ghost use Rattle.cache_opening.specs.Asking.{Leads, bytes_of};

use crate::fault::OpenFault;
use olap_meaning::{List, Text};
use outside::{Depot, DepotRefusal};
use std::alloc::Global;

/// The bytes of the file of this name.
pub(crate) fn fetch<D: Depot>(
    alloc: Global,
    depot: &mut D,
    name: &str,
) -> Result<List<u8>, OpenFault>
    ensures read { Leads (D.files depot.old) (D.answers depot.old) (D.answers depot.new)
        (bytes_of name.now) result }
    ensures same_files { D.files depot.new ≡ D.files depot.old }
{
    match depot.fetch(alloc, name) {
        Ok(bytes) => Ok(bytes),
        Err(DepotRefusal::Missing) => {
            let name = Text::from_str(alloc, name)?;
            Err(OpenFault::NoFile { name })
        }
        Err(DepotRefusal::Failed) => Err(OpenFault::Source),
        Err(DepotRefusal::OutOfMemory) => Err(OpenFault::OutOfMemory),
    }
}
