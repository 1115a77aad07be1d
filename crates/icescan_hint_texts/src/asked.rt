//! What a filter asks of a table.

use ice_filter::{Filter, Part, Predicate};
use ice_meta::Schema;
use std::alloc::{AllocError, Global};

/// A filter, and the schema whose columns it asks for.
#[derive(Clone, Copy)]
pub struct Asked<'a> {
    /// The filter.
    pub filter: &'a Filter,
    /// The schema.
    pub schema: &'a Schema,
}

impl<'a> Asked<'a> {
    /// The comparisons of the filter, in their order.
    pub fn predicates(&self, alloc: Global) -> Result<Vec<&'a Predicate>, AllocError> {
        let mut predicates = Vec::new(alloc);
        for part in self.filter.parts().as_slice() {
            if let Part::Predicate(predicate) = part {
                predicates.push(predicate)?;
            }
        }
        Ok(predicates)
    }
}
