ghost use Rattle.std.specs.Prelude.{◌≡◌, ℕ, ◌<◌, ◌≤◌, OnOk, OnErr};
ghost use Rattle.coll_model.specs.declared.op.Kind.TheVariants as kinds;
ghost use Rattle.coll_model.specs.declared.contents.Contents.TheVariants as contents;

use crate::dict::Dict;
use crate::rising::keys_rise;
use coll_model::{Kind, Op, Rows};
use provider_law::{Ask, LoadError, Reply, StateProvider};
use rc_base::{Lsn, NoMemory};
use std::alloc::Global;
use versioned_store::Versions;

impl StateProvider for Dict {
    ghost use Rattle.std.specs.Prelude.{true, false};
    ghost use Rattle.std.proofs.Common.{refl, ap};
    ghost use Rattle.versioned_store.specs.SeenBy.{pairs};

    ghost has = { elim [ kinds.Dict ↦ true | kinds.Queue ↦ false ] };

    ghost sort = { λ d. kinds.Dict };

    ghost least = { λ d. d.versions.floor.0 };

    ghost greatest = { λ d. d.versions.top.0 };

    ghost view = { λ d w. contents.Dict (pairs d.versions w) };

    fn make(alloc: Global, kind: Kind) -> Dict {
        let _ = kind;
        Dict {
            versions: Versions::new(alloc),
        }
    }

    fn kind(&self) -> Kind {
        Kind::Dict
    }

    fn floor(&self) -> Lsn {
        self.versions.floor()
    }

    fn top(&self) -> Lsn {
        self.versions.top()
    }

    fn apply(&mut self, v: Lsn, op: &Op) -> Result<(), NoMemory> {
        match op {
            Op::Put(_, key, value) => self.versions.put_at(v, key, Some(value)),
            Op::Del(_, key) => self.versions.put_at(v, key, None),
            _ => {
                self.versions.rest(v);
                Ok(())
            }
        }
    }

    fn undo_above(&mut self, v: Lsn) {
        self.versions.cut_above(v);
    }

    fn merge_below(&mut self, v: Lsn) {
        self.versions.merge(v);
    }

    fn save(&self, alloc: Global, v: Lsn) -> Result<Rows, NoMemory> {
        let _ = alloc;
        self.versions.rows_at(v)
    }

    fn load(alloc: Global, kind: Kind, v: Lsn, rows: &Rows) -> Result<Dict, LoadError> {
        let _ = kind;
        match rows {
            Rows::Pairs(pairs) => {
                if keys_rise(pairs.as_slice()) {
                    Ok(Dict {
                        versions: Versions::of_pairs(alloc, v, pairs.as_slice())?,
                    })
                } else {
                    Err(LoadError::Bad)
                }
            }
            Rows::Values(_) => Err(LoadError::Bad),
        }
    }

    fn read(&self, alloc: Global, v: Lsn, ask: &Ask) -> Result<Reply, NoMemory> {
        let _ = alloc;
        match ask {
            Ask::Get(key) => match self.versions.get_at(v, key) {
                Some(value) => Ok(Reply::Value(value.clone()?)),
                None => Ok(Reply::Missing),
            },
            Ask::Count => Ok(Reply::Count(self.versions.count_at(v))),
            Ask::List => Ok(Reply::Rows(self.versions.rows_at(v)?)),
            Ask::Item(_) => Ok(Reply::Missing),
        }
    }

    ghost in_order = { λ d. d.versions.sound.in_order };

    ghost rests = { λ d w le. ap contents.Dict (d.versions.sound.rests w le) };

    ghost of_its_kind = { λ d w. refl };
}
