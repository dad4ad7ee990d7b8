ghost use Rattle.std.specs.Prelude.{◌≡◌, ℕ, IfOk, map, take, drop};
ghost use Rattle.coll_model.specs.declared.op.Kind.TheVariants as kinds;
ghost use Rattle.coll_model.specs.declared.contents.Contents.TheVariants as contents;
ghost use Rattle.reliable_queue.specs.Queues.{values_at};

use crate::queue::Queue;
use coll_model::{Kind, Op, Rows};
use provider_law::{Ask, LoadError, Reply, StateProvider};
use rc_base::{Lsn, NoMemory};
use std::alloc::Global;

impl StateProvider for Queue {
    ghost use Rattle.std.specs.Prelude.{true, false};
    ghost use Rattle.std.proofs.Common.{refl, ap};
    ghost use Rattle.reliable_queue.specs.SeenBy.{versioned};

    ghost has = { elim [ kinds.Dict ↦ false | kinds.Queue ↦ true ] };

    ghost sort = { λ q. kinds.Queue };

    ghost least = { λ q. q.floor.0 };

    ghost greatest = { λ q. q.top.0 };

    ghost view = { λ q w. contents.Queue (values_at (versioned q) w) };

    fn make(alloc: Global, kind: Kind) -> Queue {
        let _ = kind;
        Queue::new(alloc)
    }

    fn kind(&self) -> Kind {
        Kind::Queue
    }

    fn floor(&self) -> Lsn {
        self.least()
    }

    fn top(&self) -> Lsn {
        self.greatest()
    }

    fn apply(&mut self, v: Lsn, op: &Op) -> Result<(), NoMemory> {
        self.operate(v, op)
    }

    fn undo_above(&mut self, v: Lsn) {
        self.cut(v);
    }

    fn merge_below(&mut self, v: Lsn) {
        self.merge(v);
    }

    fn save(&self, alloc: Global, v: Lsn) -> Result<Rows, NoMemory> {
        Ok(Rows::Values(self.listed(alloc, v)?))
    }

    fn load(alloc: Global, kind: Kind, v: Lsn, rows: &Rows) -> Result<Queue, LoadError> {
        let _ = kind;
        match rows {
            Rows::Values(values) => Ok(Queue::of_values(alloc, v, values.as_slice())?),
            Rows::Pairs(_) => Err(LoadError::Bad),
        }
    }

    fn read(&self, alloc: Global, v: Lsn, ask: &Ask) -> Result<Reply, NoMemory> {
        match ask {
            Ask::Get(_) => Ok(Reply::Missing),
            Ask::Count => Ok(Reply::Count(self.count(v))),
            Ask::List => Ok(Reply::Rows(Rows::Values(self.listed(alloc, v)?))),
            Ask::Item(place) => match self.value(v, *place) {
                Some(value) => Ok(Reply::Value(value.clone()?)),
                None => Ok(Reply::Missing),
            },
        }
    }

    ghost in_order = { λ q. q.sound.in_order };

    ghost rests = { λ q w le. ap contents.Queue (q.sound.rests w le) };

    ghost of_its_kind = { λ q w. refl };
}
