use reliable_dict::Dict;
use reliable_queue::Queue;

/// A collection at versions.
#[derive(Drop)]
pub enum Collection {
    Dict(Dict),
    Queue(Queue),
}
