/// What a run is given besides: nothing yet.
#[derive(Drop)]
pub struct Kit {}
