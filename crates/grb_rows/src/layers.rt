//! What an object stores where changes wait, as its entries and its changes.
ghost use Rattle.std.specs.Prelude.{All};
ghost use Rattle.std.proofs.Props.{props};
ghost use Rattle.grb_rows.specs.Pending.{IsChangeOf};
ghost use Rattle.grb_rows.specs.Layers.{IsChanged};

use grb_core::Value;
use grb_lists::FlatRows;
use std::collections::HashMap;

/// What an object stores where changes wait: the entries that were assembled, and the changes over them. Nothing is copied.
#[derive(Clone, Copy)]
pub struct Layers<'a> {
    /// The entries as they were last assembled.
    pub base: &'a FlatRows,
    /// The places of those among them that were changed or taken away, in no order.
    pub places: &'a [usize],
    /// The last change of each cell that was changed, by its number, in no order.
    pub changes: &'a HashMap<u64, Option<Value>>,
    pub ghost changed: { IsChanged base.now.entries places.now changes.now.entries } by { Prim.hlevel props },
    pub ghost inside: { All (IsChangeOf base.now.domain) changes.now.entries } by { Prim.hlevel props },
}
