//! Which loads a flush of a region may shut off as a whole. Nothing that is answered depends on it: a load is asked itself.
use crate::groups::Groups;
use crate::keys::with_pair;
use crate::masks::{ALL_BITS, header_list_mask};
use olap_meaning::{
    Allowed, ColumnId, CubeId, Header, List, OutOfMemory, Region, RegionBox, ValueId,
};
use std::alloc::Global;

/// The numbers of loads by what they allow in each column: under the value where it is the only one of a set, and else under the
/// column alone. Loads with one cube and one mask of columns have one shape.
#[derive(Drop)]
pub(crate) struct Hints {
    by_value: Groups,
}

// The number of a shape.
fn shape_of(cube: CubeId, mask: u64) -> u64 {
    with_pair(mask, ColumnId(cube.0), ValueId(0))
}

// The shape of a header.
fn header_shape(header: &Header) -> u64 {
    shape_of(header.cube, header_list_mask(header))
}

// The key of a value of a column, for loads of a shape.
fn value_key(shape: u64, column: ColumnId, value: ValueId) -> u64 {
    with_pair(shape, column, value)
}

// The key of a column, for loads of a shape that allow several of its values, or any.
fn column_key(shape: u64, column: ColumnId) -> u64 {
    with_pair(!shape, column, ValueId(0))
}

// The key for what a load allows in a column.
fn key_of(shape: u64, column: ColumnId, allowed: &Allowed) -> u64 {
    match allowed {
        Allowed::Set(values) if values.len() == 1 => {
            value_key(shape, column, values.as_slice()[0])
        }
        _ => column_key(shape, column),
    }
}

impl Hints {
    /// No load. It takes no memory.
    pub(crate) fn new(alloc: Global) -> Hints {
        Hints {
            by_value: Groups::new(alloc),
        }
    }

    /// Makes a place for a load of a header. Where there is no memory, none is made.
    pub(crate) fn reserve(&mut self, alloc: Global, header: &Header) -> Result<(), OutOfMemory> {
        let shape = header_shape(header);
        let columns = header.columns.as_slice();
        for place in 0..columns.len() {
            let own = &columns[place];
            let reserved = self.by_value.reserve(alloc, key_of(shape, own.0, &own.1));
            if reserved.is_err() {
                self.release_each(shape, &columns[..place]);
                return Err(OutOfMemory);
            }
        }
        Ok(())
    }

    // Gives back the place for each of some columns.
    fn release_each(&mut self, shape: u64, columns: &[(ColumnId, Allowed)]) {
        for own in columns {
            let key = key_of(shape, own.0, &own.1);
            if self.by_value.has_place(key) {
                self.by_value.release(key);
            }
        }
    }

    /// Gives back the place for a load of a header. It takes no memory.
    pub(crate) fn release(&mut self, header: &Header) {
        self.release_each(header_shape(header), header.columns.as_slice());
    }

    /// Puts a load in where there is a place for it. It takes no memory.
    pub(crate) fn add(&mut self, header: &Header, load: u64) {
        let shape = header_shape(header);
        for own in header.columns.as_slice() {
            let key = key_of(shape, own.0, &own.1);
            if self.by_value.has_place(key) {
                self.by_value.add(key, load);
            }
        }
    }

    /// Takes a load out. It takes no memory.
    pub(crate) fn remove(&mut self, header: &Header, load: u64) {
        let shape = header_shape(header);
        for own in header.columns.as_slice() {
            self.by_value.remove(key_of(shape, own.0, &own.1), load);
        }
    }

    // How many loads stand under a key.
    fn count_at(&self, key: u64) -> usize {
        let (front, back) = self.by_value.at(key);
        front.len().saturating_add(back.len())
    }

    // How many loads of a shape stand under a column's values, and under the column.
    fn count_under(&self, shape: u64, column: &(ColumnId, List<ValueId>)) -> usize {
        let mut count = self.count_at(column_key(shape, column.0));
        for value in column.1.as_slice() {
            count = count.saturating_add(self.count_at(value_key(shape, column.0, *value)));
        }
        count
    }

    // The place of the column of a box, of those with a bit in a mask, under which the fewest loads of a shape stand.
    fn narrowest(
        &self,
        shape: u64,
        mask: u64,
        columns: &[(ColumnId, List<ValueId>)],
    ) -> Option<usize> {
        let mut narrowest = None;
        let mut least = usize::MAX;
        for place in 0..columns.len() {
            let column = &columns[place];
            if has_bit(mask, column.0) {
                let count = self.count_under(shape, column);
                if narrowest.is_none() || count < least {
                    narrowest = Some(place);
                    least = count;
                }
            }
        }
        narrowest
    }

    // Adds the keys of the loads of a shape that a box may shut off as a whole, and tells whether it has one of their columns. Else
    // it may shut off all of them.
    fn add_box(
        &self,
        shape: u64,
        mask: u64,
        region_box: &RegionBox,
        keys: &mut Vec<u64>,
    ) -> Result<bool, OutOfMemory> {
        let columns = region_box.columns.as_slice();
        let narrowest = self.narrowest(shape, mask, columns);
        match narrowest.and_then(|place| columns.get(place)) {
            Some(column) => {
                add_keys(shape, column, keys)?;
                Ok(true)
            }
            None => Ok(false),
        }
    }

    // The keys of the loads of a shape that some boxes may shut off as a whole, each once, or None where these may be all loads.
    fn keys_of(
        &self,
        alloc: Global,
        shape: u64,
        mask: u64,
        boxes: &[RegionBox],
    ) -> Result<Option<Vec<u64>>, OutOfMemory> {
        let mut keys = Vec::new(alloc);
        for one in boxes {
            if !self.add_box(shape, mask, one, &mut keys)? {
                return Ok(None);
            }
        }
        keys.sort_unstable();
        keys.dedup();
        Ok(Some(keys))
    }

    // Adds the loads that stand under a key.
    fn add_found(&self, key: u64, found: &mut Vec<u64>) -> Result<(), OutOfMemory> {
        let (front, back) = self.by_value.at(key);
        found.extend_from_slice(front)?;
        found.extend_from_slice(back)?;
        Ok(())
    }

    // Adds the loads that stand under some keys.
    fn add_all(&self, keys: &[u64], found: &mut Vec<u64>) -> Result<(), OutOfMemory> {
        for key in keys {
            self.add_found(*key, found)?;
        }
        Ok(())
    }

    // Adds the loads with one mask that a region may shut off as a whole.
    fn add_masked(
        &self,
        alloc: Global,
        masks: &Groups,
        position: usize,
        region: &Region,
        found: &mut Vec<u64>,
    ) -> Result<(), OutOfMemory> {
        let Some((mask, front, back)) = masks.get(position) else {
            return Ok(());
        };
        let shape = shape_of(region.cube, mask);
        match self.keys_of(alloc, shape, mask, region.boxes.as_slice())? {
            Some(keys) => self.add_all(keys.as_slice(), found),
            None => {
                found.extend_from_slice(front)?;
                found.extend_from_slice(back)?;
                Ok(())
            }
        }
    }

    /// The loads that a flush of a region may shut off as a whole, rising: of the loads under each mask all where a box has none of
    /// their columns, and else those of its cube that allow just a value of a box in one column, or several values or any there.
    pub(crate) fn touched(
        &self,
        alloc: Global,
        masks: &Groups,
        region: &Region,
    ) -> Result<Vec<u64>, OutOfMemory> {
        let mut found = Vec::new(alloc);
        for position in 0..masks.len() {
            self.add_masked(alloc, masks, position, region, &mut found)?;
        }
        found.sort_unstable();
        found.dedup();
        Ok(found)
    }
}

// Adds the keys of a column's values, and that of the column.
fn add_keys(
    shape: u64,
    column: &(ColumnId, List<ValueId>),
    keys: &mut Vec<u64>,
) -> Result<(), OutOfMemory> {
    keys.push(column_key(shape, column.0))?;
    for value in column.1.as_slice() {
        keys.push(value_key(shape, column.0, *value))?;
    }
    Ok(())
}

// Whether the loads under a mask have a column, as the mask tells: that of all bits tells it of no column.
fn has_bit(mask: u64, column: ColumnId) -> bool {
    mask != ALL_BITS && column.0 < 64 && mask & (1 << column.0) != 0
}
