ghost use Rattle.std.specs.Prelude.{◌≡◌, ◌<◌, ◌≤◌, ◌++◌, ◌∷◌, [], take, drop, length, min, if◌then◌else◌, nat_lt, OnOk, OnErr, IfOk, option_map, slice_get, ◌+◌, ◌-◌, nat_le};
ghost use Rattle.std.specs.Option.{option_copied};
ghost use Rattle.std.proofs.Props.{props};
ghost use Rattle.std.specs.List.Sorted.{IsNonDecreasingBy};
ghost use Rattle.reliable_queue.specs.Queues.{IsQueue, empty_at, pushed, popped, head_taken, rested, operated, cut_to, merged, loaded, up_to, values_at};

use coll_model::Op;
use rc_base::{Bytes, Lsn, NoMemory, Seq};
use std::alloc::Global;
use std::collections::VecDeque;

/// A queue at versions. It keeps each value that was pushed, and the versions of pushes and pops: what is seen at a version is a
/// range of the values.
#[derive(Drop)]
pub struct Queue {
    values: VecDeque<Bytes>,
    pushes: VecDeque<Lsn>,
    pops: VecDeque<Lsn>,
    floor: Lsn,
    top: Lsn,
    ghost sound: { IsQueue (record { values = values.items; pushes = pushes.items; pops = pops.items; floor = floor; top = top }) } by { Prim.hlevel props },
}

impl Queue {
    ghost use Rattle.reliable_queue.specs.SeenBy.{versioned};

    /// A queue with nothing in it. It takes no memory.
    pub fn new(alloc: Global) -> Queue
        ensures { versioned result ≡ empty_at (record { 0 = 0 }) }
    {
        Queue::at(alloc, Lsn(0))
    }

    // A queue with nothing in it, whose floor and top are the version.
    fn at(alloc: Global, v: Lsn) -> Queue
        ensures { versioned result ≡ empty_at v }
    {
        Queue {
            values: VecDeque::new(alloc),
            pushes: VecDeque::new(alloc),
            pops: VecDeque::new(alloc),
            floor: v,
            top: v,
        }
    }

    pub(crate) fn least(&self) -> Lsn
        ensures { result ≡ self.now.floor }
    {
        self.floor
    }

    pub(crate) fn greatest(&self) -> Lsn
        ensures { result ≡ self.now.top }
    {
        self.top
    }

    // An operation takes effect.
    pub(crate) fn operate(&mut self, v: Lsn, op: &Op) -> Result<(), NoMemory>
        requires { self.old.top.0 ≤ v.0 }
        ensures ok { OnOk result (versioned self.new ≡ operated (versioned self.old) v op.now) }
        ensures err { OnErr result (versioned self.new ≡ versioned self.old) }
    {
        match op {
            Op::Push(_, value) => self.push(v, value),
            Op::Pop(_) => self.pop(v),
            _ => {
                self.rest(v);
                Ok(())
            }
        }
    }

    // A value comes after the tail.
    fn push(&mut self, v: Lsn, value: &Bytes) -> Result<(), NoMemory>
        requires { self.old.top.0 ≤ v.0 }
        ensures ok { OnOk result (versioned self.new ≡ pushed (versioned self.old) v value.now) }
        ensures err { OnErr result (versioned self.new ≡ versioned self.old) }
    {
        let value = value.clone()?;
        self.pushes.reserve(1)?;
        self.values.push_back(value)?;
        self.pushes.push_back_reserved(v);
        self.top = v;
        Ok(())
    }

    // The head goes, where there is one.
    fn pop(&mut self, v: Lsn) -> Result<(), NoMemory>
        requires { self.old.top.0 ≤ v.0 }
        ensures ok { OnOk result (versioned self.new ≡ popped (versioned self.old) v) }
        ensures err { OnErr result (versioned self.new ≡ versioned self.old) }
    {
        if self.pops.len() < self.pushes.len() {
            self.take_head(v)
        } else {
            self.rest(v);
            Ok(())
        }
    }

    // The head goes, which there is.
    fn take_head(&mut self, v: Lsn) -> Result<(), NoMemory>
        requires more { length self.old.pops.items < length self.old.pushes.items }
        requires from { self.old.top.0 ≤ v.0 }
        ensures ok { OnOk result (versioned self.new ≡ head_taken (versioned self.old) v) }
        ensures err { OnErr result (versioned self.new ≡ versioned self.old) }
    {
        self.pops.push_back(v)?;
        self.top = v;
        Ok(())
    }

    // Nothing changes but the top.
    fn rest(&mut self, v: Lsn)
        requires { self.old.top.0 ≤ v.0 }
        ensures { versioned self.new ≡ rested (versioned self.old) v }
    {
        self.top = v;
    }

    // What came above the version goes.
    pub(crate) fn cut(&mut self, v: Lsn)
        requires { self.old.floor.0 ≤ v.0 }
        ensures { versioned self.new ≡ cut_to v (versioned self.old) }
    {
        let pushed = count_to(&self.pushes, v);
        let popped = count_to(&self.pops, v);
        self.values.truncate(pushed);
        self.pushes.truncate(pushed);
        self.pops.truncate(popped);
        if v < self.top {
            self.top = v;
        }
    }

    // What was popped at or below the version goes for good.
    pub(crate) fn merge(&mut self, v: Lsn)
        requires from { self.old.floor.0 ≤ v.0 }
        requires to { v.0 ≤ self.old.top.0 }
        ensures { versioned self.new ≡ merged v (versioned self.old) }
    {
        let gone = count_to(&self.pops, v);
        drop_first(&mut self.values, gone);
        drop_first(&mut self.pushes, gone);
        drop_first(&mut self.pops, gone);
        self.floor = v;
    }

    // How many values there are at the version.
    pub(crate) fn count(&self, v: Lsn) -> u64
        ensures { result ≡ length (values_at (versioned self.now) v.0) }
    {
        (count_to(&self.pushes, v) - count_to(&self.pops, v)) as u64
    }

    // The value at a place, at the version.
    pub(crate) fn value(&self, v: Lsn, place: u64) -> Option<&Bytes>
        ensures { option_copied result ≡ slice_get (values_at (versioned self.now) v.0) place }
    {
        if place >= self.count(v) {
            return None;
        }
        self.values.get(count_to(&self.pops, v) + place as usize)
    }

    // The values at the version.
    pub(crate) fn listed(&self, alloc: Global, v: Lsn) -> Result<Seq<Bytes>, NoMemory>
        ensures { IfOk result (λ listed. listed ≡ values_at (versioned self.now) v.0) }
    {
        let mut listed = Seq::new(alloc);
        let from = count_to(&self.pops, v);
        for place in from..count_to(&self.pushes, v) {
            listed.push(self.values[place].clone()?)?;
        }
        Ok(listed)
    }

    // A queue of these values, at the version.
    pub(crate) fn of_values(alloc: Global, v: Lsn, values: &[Bytes]) -> Result<Queue, NoMemory>
        ensures { IfOk result (λ q. versioned q ≡ loaded v values.now) }
    {
        let mut queue = Queue::at(alloc, v);
        for value in values {
            queue.push(v, value)?;
        }
        Ok(queue)
    }
}

// How many of the versions are at or below this one.
fn count_to(versions: &VecDeque<Lsn>, v: Lsn) -> usize
    requires { IsNonDecreasingBy (λ at. at.0) versions.now.items }
    ensures { result ≡ up_to v.0 versions.now.items }
{
    versions.partition_point(
        |at: &Lsn| -> bool
            ensures { result ≡ nat_le at.now.0 v.0 }
        { at.0 <= v.0 },
    )
}

// Takes away the first few.
fn drop_first<T: Drop>(items: &mut VecDeque<T>, count: usize)
    ensures { items.new.items ≡ drop count items.old.items }
{
    for _ in 0..count {
        items.pop_front();
    }
}
