use coll_model::Rows;
use rc_base::Bytes;

/// What is asked of a collection.
#[derive(Drop)]
pub enum Ask {
    /// The value of a key of a dictionary.
    Get(Bytes),
    /// How many items there are.
    Count,
    /// The items.
    List,
    /// The value of a queue at a place, counted from 0 at the head.
    Item(u64),
}

/// What a collection replies.
#[derive(Drop)]
pub enum Reply {
    /// There is no such item, or the collection is of another kind.
    Missing,
    Value(Bytes),
    Count(u64),
    Rows(Rows),
}
