use crate::collection::Collection;
use coll_model::{Kind, Op, Rows};
use provider_law::{Ask, LoadError, Reply, StateProvider};
use rc_base::{Lsn, NoMemory};
use reliable_dict::Dict;
use reliable_queue::Queue;
use std::alloc::Global;

impl StateProvider for Collection {
    ghost use Rattle.std.specs.Prelude.{true};
    ghost use Rattle.rc_collections.specs.Meaning.{kind_of, floor_of, top_of, view_of};
    ghost use Rattle.rc_collections.specs.Laws as laws;

    ghost has = { λ kind. true };

    ghost sort = { kind_of };

    ghost least = { floor_of };

    ghost greatest = { top_of };

    ghost view = { view_of };

    fn make(alloc: Global, kind: Kind) -> Collection {
        match kind {
            Kind::Dict => Collection::Dict(Dict::make(alloc, kind)),
            Kind::Queue => Collection::Queue(Queue::make(alloc, kind)),
        }
    }

    fn kind(&self) -> Kind {
        match self {
            Collection::Dict(_) => Kind::Dict,
            Collection::Queue(_) => Kind::Queue,
        }
    }

    fn floor(&self) -> Lsn {
        match self {
            Collection::Dict(dict) => dict.floor(),
            Collection::Queue(queue) => queue.floor(),
        }
    }

    fn top(&self) -> Lsn {
        match self {
            Collection::Dict(dict) => dict.top(),
            Collection::Queue(queue) => queue.top(),
        }
    }

    fn apply(&mut self, v: Lsn, op: &Op) -> Result<(), NoMemory> {
        match self {
            Collection::Dict(dict) => dict.apply(v, op),
            Collection::Queue(queue) => queue.apply(v, op),
        }
    }

    fn undo_above(&mut self, v: Lsn) {
        match self {
            Collection::Dict(dict) => dict.undo_above(v),
            Collection::Queue(queue) => queue.undo_above(v),
        }
    }

    fn merge_below(&mut self, v: Lsn) {
        match self {
            Collection::Dict(dict) => dict.merge_below(v),
            Collection::Queue(queue) => queue.merge_below(v),
        }
    }

    fn save(&self, alloc: Global, v: Lsn) -> Result<Rows, NoMemory> {
        match self {
            Collection::Dict(dict) => dict.save(alloc, v),
            Collection::Queue(queue) => queue.save(alloc, v),
        }
    }

    fn load(alloc: Global, kind: Kind, v: Lsn, rows: &Rows) -> Result<Collection, LoadError> {
        match kind {
            Kind::Dict => Ok(Collection::Dict(Dict::load(alloc, kind, v, rows)?)),
            Kind::Queue => Ok(Collection::Queue(Queue::load(alloc, kind, v, rows)?)),
        }
    }

    fn read(&self, alloc: Global, v: Lsn, ask: &Ask) -> Result<Reply, NoMemory> {
        match self {
            Collection::Dict(dict) => dict.read(alloc, v, ask),
            Collection::Queue(queue) => queue.read(alloc, v, ask),
        }
    }

    ghost in_order = { laws.in_order };

    ghost rests = { laws.rests };

    ghost of_its_kind = { laws.of_its_kind };
}
