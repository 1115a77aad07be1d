//! Values that objects of JSON say, one after the other.

ghost use Rattle.contract_words.specs.Outcome.{Gives};
ghost use Rattle.serde_json.specs.View.{view, items_view};
ghost use Rattle.ice_meta.specs.Reading.{each};

use crate::fault::MetaFault;
use contract_words::Items;
use serde_json::Value;
use std::alloc::Global;

/// What an object of JSON says.
pub trait FromJson: Drop {
    ghost use Rattle.std.specs.Prelude.{Result};
    ghost use Rattle.serde_json.specs.Data.{Data};
    ghost use Rattle.ice_meta.specs.declared.fault.MetaFault.{MetaFault as Fault};

    /// What it says, or its first fault.
    ghost said: { Data → Result Self Fault };

    /// The value that it says.
    fn from_json(alloc: Global, json: &Value) -> Result<Self, MetaFault>
        ensures { Gives MetaFault.Memory (λ value. value) result (said (view json.now)) };
}

/// What each object says, in their order.
pub fn each<T: FromJson>(alloc: Global, items: &Vec<Value>) -> Result<Items<T>, MetaFault>
    ensures { Gives MetaFault.Memory (λ values. values) result (each T.said (items_view items.now.items)) }
{
    let mut values = Items::new(alloc);
    'items: for item in items {
        values.push(T::from_json(alloc, item)?)?;
    }
    Ok(values)
}
