use log_records::Items;
use rc_base::Epoch;

/// What a disk holds of a log: its fence, which is the greatest epoch among its Fence records and its records, and its
/// records, of which the first has the position 1.
#[derive(Drop)]
pub struct Durable {
    pub fence: Epoch,
    pub records: Items,
}
