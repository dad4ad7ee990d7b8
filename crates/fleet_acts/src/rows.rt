ghost use Rattle.std.specs.Prelude.{◌≡◌, ◌∷◌, ◌++◌, IfOk, OnOk, length, map};
ghost use Rattle.coll_model.specs.Rows.{collection_of, row_words as items_of, rows_of as rows_in};
ghost use Rattle.fleet_acts.specs.Lines.{contents_lines};
ghost use Rattle.order_machine.specs.Contents.{collection_words, rows_of};
ghost use Rattle.order_machine.specs.declared.observation.Observation.{Observation};

use coll_model::{Contents, State, Words, row_words};
use order_machine::{Observation, Observations};
use rc_base::{Bytes, Name, NoMemory, ReplicaId};
use replica::Replica;
use replica_model::StepEvent;
use std::alloc::Global;

// What an inspection tells of what a replica shows; nothing at any other step.
pub(crate) fn inspection(
    alloc: Global,
    replica: &Replica,
    event: &StepEvent,
) -> Result<Observations, NoMemory>
    ensures { IfOk result (λ lines. lines ≡ contents_lines replica.now.id replica.now.contents event.now) }
{
    match event {
        StepEvent::Inspect => inspected(alloc, replica.id(), replica.contents()),
        _ => Ok(Observations::new(alloc)),
    }
}

// What an inspection prints of a state that a replica shows.
fn inspected(alloc: Global, replica: ReplicaId, state: &State) -> Result<Observations, NoMemory>
    ensures { IfOk result (λ lines. lines ≡ Observation.State replica (length (rows_of state.now)) ∷ map Observation.Rows (rows_of state.now)) }
{
    let mut lines = Observations::new(alloc);
    lines.push(Observation::State(replica, state.len() as u64))?;
    for (name, contents) in state.iter() {
        lines.push(Observation::Rows(row(alloc, name, contents)?))?;
    }
    Ok(lines)
}

// The words of a collection: its name, its kind, and its items.
fn row(alloc: Global, name: &Name, contents: &Contents) -> Result<Words, NoMemory>
    ensures { IfOk result (λ words. words ≡ collection_words (collection_of (name.now, contents.now))) }
{
    let mut words = Words::new(alloc);
    words.push(Bytes::from_slice(alloc, name.as_slice())?)?;
    words.push(Bytes::from_slice(alloc, contents.kind().word().as_bytes())?)?;
    push_items(alloc, contents, &mut words)?;
    Ok(words)
}

#[tactic(auto, using(crate::proofs::RowKinds::kind_of_rows_of))]
fn push_items(alloc: Global, contents: &Contents, words: &mut Words) -> Result<(), NoMemory>
    ensures { OnOk result (words.new ≡ words.old ++ items_of (rows_in contents.now)) }
{
    let rows = contents.rows(alloc)?;
    for item in row_words(alloc, contents.kind(), &rows)?.into_vec() {
        words.push(item)?;
    }
    Ok(())
}
