ghost use Rattle.std.specs.Prelude.{◌≡◌, ◌||◌, max};
ghost use Rattle.world.specs.Steps.{no_effects};

use order_machine::Observations;
use std::alloc::Global;

// What an event has done so far beside its replicas: how many transactions the order has, whether its primary became
// active, and its lines.
#[derive(Drop)]
pub(crate) struct EventEffects {
    pub(crate) order: u64,
    pub(crate) active: bool,
    pub(crate) lines: Observations,
}

impl EventEffects {
    // An event begins, where the order has so many transactions.
    pub(crate) fn new(alloc: Global, order: u64) -> EventEffects
        ensures { result ≡ no_effects order }
    {
        EventEffects {
            order,
            active: false,
            lines: Observations::new(alloc),
        }
    }

    // A replica shows so many commits after a step, and became active by it or not.
    pub(crate) fn note(&mut self, shown: u64, active: bool)
        ensures { self.new ≡ record self.old { order = max self.old.order shown; active = self.old.active || active } }
    {
        self.order = self.order.max(shown);
        self.active = self.active || active;
    }
}
