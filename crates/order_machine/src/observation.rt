ghost use Rattle.std.specs.Prelude.{◌≡◌};
ghost use Rattle.order_machine.specs.AnswerLines as lines;

use coll_model::{Ops, Words};
use events::Answer;
use rc_base::{Bytes, Epoch, ReplicaId, TxnId};

/// A line of the transcript behind its event's number. There is one variant for each form of line that is built so
/// far, with the line's words as its fields, in order.
#[derive(Debug, Drop)]
pub enum Observation {
    /// `up r`: r was opened.
    Up(ReplicaId),
    /// `order T ops`: T is the next transaction of the order, with these operations.
    Order(TxnId, Ops),
    /// `view r n`: r shows the first n transactions of the order.
    View(ReplicaId, u64),
    /// `active r`: r is active as primary.
    Active(ReplicaId),
    /// `committed T`: T is acknowledged to its client.
    Committed(TxnId),
    /// `txn T`: T begins.
    Txn(TxnId),
    /// `ok`: the event was done.
    Done,
    /// `refused part`: the event breaks this part of its rule, and nothing was done.
    Refused(u8),
    /// `down r`: r isn't open.
    Down(ReplicaId),
    /// `notactive r`: r isn't an active primary.
    NotActive(ReplicaId),
    /// `ended T`: T isn't live at the replica.
    Ended(TxnId),
    /// `locked T`: T holds a lock that stands against the call.
    Locked(TxnId),
    /// `true`: the call did what it was asked.
    True,
    /// `false`: it didn't, since that was so already.
    False,
    /// `value word`: what the call asked for.
    Value(Bytes),
    /// `none`: there is no such value.
    Missing,
    /// `absent`: the transaction sees no collection of this name.
    Absent,
    /// `wrongkind`: the collection is of another kind.
    WrongKind,
    /// `fault r`: r's disk failed in a step, and r is closed.
    Fault(ReplicaId),
    /// `ignored up`: the replica is open already.
    IgnoredUp,
    /// `ignored oldepoch F E`: the replica refuses epochs below F, and E is one.
    IgnoredOldEpoch(Epoch, Epoch),
    /// `progress r E L`: the last record of r's log has the epoch E and the position L.
    Progress(ReplicaId, Epoch, u64),
    /// `state r k`: r shows k collections, which follow.
    State(ReplicaId, u64),
    /// `rows words`: a collection with its kind and its items.
    Rows(Words),
}

/// The line of an answer. It takes no memory.
pub fn line_of_answer(answer: Answer) -> Observation
    ensures { result ≡ lines.line_of_answer answer }
{
    match answer {
        Answer::Txn(txn) => Observation::Txn(txn),
        Answer::Done => Observation::Done,
        Answer::True => Observation::True,
        Answer::False => Observation::False,
        Answer::Value(value) => Observation::Value(value),
        Answer::Missing => Observation::Missing,
        Answer::Absent => Observation::Absent,
        Answer::WrongKind => Observation::WrongKind,
        Answer::Ended(txn) => Observation::Ended(txn),
        Answer::Locked(txn) => Observation::Locked(txn),
        Answer::NotActive(id) => Observation::NotActive(id),
        Answer::Down(id) => Observation::Down(id),
        Answer::Refused(part) => Observation::Refused(part),
        Answer::Progress(id, epoch, last) => Observation::Progress(id, epoch, last),
        Answer::IgnoredUp => Observation::IgnoredUp,
        Answer::IgnoredOldEpoch(fence, epoch) => Observation::IgnoredOldEpoch(fence, epoch),
    }
}
