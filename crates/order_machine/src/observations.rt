use crate::observation::Observation;
use rc_base::Seq;

/// Observations in order.
pub type Observations = Seq<Observation>;
