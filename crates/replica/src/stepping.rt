// The parts of a step: its answer, what it logs, and what it changes once that stands in the log.
ghost use Rattle.std.specs.Prelude.{◌≡◌, ◌≢◌, ◌+◌, ◌<◌, ◌≤◌, ◌^◌, [], ◌∷◌, ◌++◌, length, false, None, IfOk, OnOk, IsErrOf};
ghost use Rattle.std.specs.Option.{option_copied};
ghost use Rattle.rc_base.specs.Counts.{Counted};
ghost use Rattle.disk_model.specs.Disk.{Follows};
ghost use Rattle.barrier_group.specs.Group.{spelled};
ghost use Rattle.txn_front.specs.Front as fronts;
ghost use Rattle.txn_front.specs.Front.{AreAlike, IsOver};
ghost use Rattle.log_store.specs.declared.kept.Kept.{Kept};
ghost use Rattle.log_store.specs.Durable.{StandFor, StandForOneOf, KeepsSlots};
ghost use Rattle.log_store.specs.Growth.{GoesOn, after};
ghost use Rattle.log_store.specs.Store.{IsOpenOn};
ghost use Rattle.replica.specs.declared.error.StepError.TheVariants as errors;
ghost use Rattle.replica_model.specs.declared.step.StepEvent.TheVariants as steps;
ghost use Rattle.replica.specs.Logging as parts;
ghost use Rattle.replica.specs.Logging.{IsReplyTo, AllFit};
ghost use Rattle.replica.specs.Open.{AreSame};
ghost use Rattle.replica.specs.Step as spec;
ghost use Rattle.replica_model.specs.Records as records;
ghost use Rattle.replica_model.specs.Steps as model;

use crate::effects::{apply_all, apply_commits};
use crate::epochs::later;
use crate::error::StepError;
use crate::replica::Replica;
use barrier_group::Group;
use coll_model::{Op, Ops};
use config_rule::Appointment;
use disk_model::Disk;
use events::{Answer, Call, Reply};
use gated_log::LogError;
use log_records::{Physical, Record};
use rc_base::{Epoch, Lsn, NoMemory, TxnId};
use replica_model::{Commits, Outcome, Role, StepEvent, TxnIds};
use std::mem;
use txn_front::Front;
use txn_table::Committed;

impl Replica {
    // Whether it is an active primary.
    pub(crate) fn is_active(&self) -> bool
        ensures { result ≡ spec.is_active self.now.role }
    {
        match self.role {
            Role::Other => false,
            Role::Primary { active, .. } => active,
        }
    }

    // ---- the answer, and what is logged

    // What the call of a step is answered, none where it is no call, and the records of the step. What goes on at a primary
    // notes the call.
    pub(crate) fn answer(
        &mut self,
        event: &StepEvent,
    ) -> Result<(Option<Reply>, Vec<Record>), NoMemory>
        requires over { IsOver self.old.front self.old.contents }
        requires room { self.old.last.0 + 1 < 2 ^ 64 }
        requires counted { self.old.front.begins + 1 < 2 ^ 64 }
        ensures told { IfOk result (λ parts. IsReplyTo self.old event.now parts.0) }
        ensures logged { IfOk result (λ parts. parts.1.items ≡ spec.logged self.old event.now) }
        ensures others { self.new ≡ record self.old { front = self.new.front } }
        ensures asked { OnOk result (AreAlike self.new.front (parts.asked self.old event.now)) }
    {
        match event {
            StepEvent::Client(call) => self.answer_call(call),
            StepEvent::Survey { .. } | StepEvent::Activate { .. } | StepEvent::Inspect => {
                Ok((None, Vec::new(self.alloc)))
            }
            StepEvent::Appoint(appointment) => {
                let epoch = appointment.epoch;
                Ok((None, self.alone(Record::EpochStart { epoch })?))
            }
            StepEvent::Barrier => {
                let stable = self.stable;
                Ok((None, self.alone(Record::Barrier { stable })?))
            }
        }
    }

    #[tactic(auto, using(crate::proofs::Told::logged_last))]
    fn answer_call(&mut self, call: &Call) -> Result<(Option<Reply>, Vec<Record>), NoMemory>
        requires over { IsOver self.old.front self.old.contents }
        requires room { self.old.last.0 + 1 < 2 ^ 64 }
        requires counted { self.old.front.begins + 1 < 2 ^ 64 }
        ensures told { IfOk result (λ parts. parts.0 ≡ spec.reply self.old call.now) }
        ensures logged { IfOk result (λ parts. parts.1.items ≡ spec.logged_by self.old call.now) }
        ensures others { self.new ≡ record self.old { front = self.new.front } }
        ensures asked { OnOk result (AreAlike self.new.front (parts.asked self.old (steps.Client call.now))) }
    {
        if !self.is_active() {
            let answer = Answer::NotActive(self.id);
            return Ok((Some(Reply { answer, op: None }), Vec::new(self.alloc)));
        }
        let last = self.last_named(call);
        let reply = self.front.call(&self.contents, call)?;
        let bodies = match last {
            Some((txn, last)) => self.logged_call(txn, last, call, reply.as_ref())?,
            None => Vec::new(self.alloc),
        };
        Ok((reply, bodies))
    }

    // The transaction of the call with the position of its last record, where it goes on.
    fn last_named(&self, call: &Call) -> Option<(TxnId, Lsn)>
        ensures { result ≡ parts.last_named self.now.front call.now }
    {
        let txn = call.txn()?;
        let going = self.front.going(txn)?;
        Some((txn, going.last()))
    }

    fn alone(&self, body: Record) -> Result<Vec<Record>, NoMemory>
        ensures { IfOk result (λ bodies. bodies.items ≡ body ∷ []) }
    {
        let mut bodies = Vec::new(self.alloc);
        bodies.push(body)?;
        Ok(bodies)
    }

    // The records of a call with this answer, of a transaction whose last record stands here.
    fn logged_call(
        &self,
        txn: TxnId,
        last: Lsn,
        call: &Call,
        reply: Option<&Reply>,
    ) -> Result<Vec<Record>, NoMemory>
        requires { self.now.last.0 + 1 < 2 ^ 64 }
        ensures { IfOk result (λ bodies. bodies.items ≡ records.logged_call self.now.last txn (parts.logged_to last) call.now (option_copied reply.entry)) }
    {
        match call {
            Call::Commit(_) => self.logged_commit(txn, last),
            Call::Abort(_) => self.logged_abort(txn, last),
            _ => match reply {
                Some(Reply { op: Some(op), .. }) => self.logged_op(txn, last, op),
                _ => Ok(Vec::new(self.alloc)),
            },
        }
    }

    fn logged_op(&self, txn: TxnId, last: Lsn, op: &Op) -> Result<Vec<Record>, NoMemory>
        requires { self.now.last.0 + 1 < 2 ^ 64 }
        ensures { IfOk result (λ bodies. bodies.items ≡ records.logged_op self.now.last txn (parts.logged_to last) (Some op.now)) }
    {
        let mut bodies = self.begin_due(txn, last)?;
        bodies.push(Record::Operation {
            txn,
            prev: self.prev_of(last),
            op: op.clone()?,
        })?;
        Ok(bodies)
    }

    fn logged_commit(&self, txn: TxnId, last: Lsn) -> Result<Vec<Record>, NoMemory>
        requires { self.now.last.0 + 1 < 2 ^ 64 }
        ensures { IfOk result (λ bodies. bodies.items ≡ records.logged_commit self.now.last txn (parts.logged_to last)) }
    {
        let mut bodies = self.begin_due(txn, last)?;
        bodies.push(Record::End {
            txn,
            prev: self.prev_of(last),
            committed: true,
        })?;
        Ok(bodies)
    }

    // An End, where the transaction has records.
    fn logged_abort(&self, txn: TxnId, last: Lsn) -> Result<Vec<Record>, NoMemory>
        ensures { IfOk result (λ bodies. bodies.items ≡ records.logged_abort txn (parts.logged_to last)) }
    {
        if last.0 == 0 {
            return Ok(Vec::new(self.alloc));
        }
        self.alone(Record::End {
            txn,
            prev: last,
            committed: false,
        })
    }

    // A Begin, before the first record of a transaction.
    fn begin_due(&self, txn: TxnId, last: Lsn) -> Result<Vec<Record>, NoMemory>
        ensures { IfOk result (λ bodies. bodies.items ≡ records.begin_due txn (parts.logged_to last)) }
    {
        if last.0 == 0 {
            self.alone(Record::Begin { txn })
        } else {
            Ok(Vec::new(self.alloc))
        }
    }

    // The position of the transaction's record before the one that is logged next.
    fn prev_of(&self, last: Lsn) -> Lsn
        requires { self.now.last.0 + 1 < 2 ^ 64 }
        ensures { result ≡ records.prev_of self.now.last (parts.logged_to last) }
    {
        if last.0 == 0 {
            Lsn(self.last.0 + 1)
        } else {
            last
        }
    }

    // The epoch in which it logs.
    fn epoch_in(&self, event: &StepEvent) -> Epoch
        ensures { result ≡ spec.epoch_in self.now event.now }
    {
        match event {
            StepEvent::Appoint(appointment) => appointment.epoch,
            StepEvent::Client(_)
            | StepEvent::Survey { .. }
            | StepEvent::Activate { .. }
            | StepEvent::Barrier
            | StepEvent::Inspect => self.epoch,
        }
    }

    // The block of a step with these records.
    pub(crate) fn block(&self, event: &StepEvent, bodies: Vec<Record>) -> Result<Group, NoMemory>
        requires room { self.now.last.0 + length bodies.items < 2 ^ 64 }
        requires fit { AllFit bodies.items }
        ensures { IfOk result (λ block. block ≡ spec.fences self.now event.now ++ records.placed self.now.last.0 (spec.epoch_in self.now event.now) bodies.items) }
    {
        let mut block = self.fences(event)?;
        let epoch = self.epoch_in(event);
        let mut last = self.last.0;
        for body in bodies {
            last += 1;
            block.push(Physical::Logical {
                lsn: Lsn(last),
                epoch,
                body,
            })?;
        }
        Ok(block)
    }

    // A survey raises the fence.
    fn fences(&self, event: &StepEvent) -> Result<Group, NoMemory>
        ensures { IfOk result (λ block. block ≡ spec.fences self.now event.now) }
    {
        let mut block = Group::new(self.alloc);
        if let StepEvent::Survey { epoch } = event
            && self.fence < *epoch
        {
            block.push(Physical::Fence { epoch: *epoch })?;
        }
        Ok(block)
    }

    // Appends a block to the log. Nothing else is changed.
    pub(crate) fn append<D: Disk>(
        &mut self,
        disk: &mut D,
        block: &mut Group,
    ) -> Result<(), StepError>
        requires fits { length (spelled block.old) ≤ 1048576 }
        requires not_closed { self.old.log.log.closed ≡ false }
        requires opened { IsOpenOn self.old.log (D.images disk.old) }
        requires goes_on { (v : Kept) × StandFor v (D.images disk.old) × GoesOn v block.old }
        ensures others { self.new ≡ record self.old { log = self.new.log } }
        ensures identity { self.new.log.identity ≡ self.old.log.identity }
        ensures ok { OnOk result ((v : Kept) → StandFor v (D.images disk.old) → StandFor (after v block.old) (D.images disk.new)) }
        ensures stop { (v : Kept) → StandFor v (D.images disk.old) → StandForOneOf v (after v block.old) (D.images disk.new) }
        ensures opened { OnOk result (IsOpenOn self.new.log (D.images disk.new)) }
        ensures not_closed { OnOk result (self.new.log.log.closed ≡ false) }
        ensures untouched { block.old ≡ [] → disk.new ≡ disk.old }
        ensures only_logging { IsErrOf result errors.Disk → block.old ≢ [] }
        ensures slots { Follows KeepsSlots (D.images disk.old) (D.images disk.new) }
        ensures cause { Counted (D.faults disk.old) (D.faults disk.new) (IsErrOf result errors.Disk) }
        ensures marks { D.marks disk.new ≡ D.marks disk.old }
    {
        if block.is_empty() {
            return Ok(());
        }
        match self.log.append(disk, block) {
            Ok(()) => Ok(()),
            Err(LogError::Disk) => Err(StepError::Disk),
            Err(LogError::NoMemory) => Err(StepError::NoMemory),
            Err(LogError::Closed) => unreachable!(),
        }
    }

    // ---- what changes

    // So many records were logged in an epoch.
    fn lengthen(&mut self, count: u64, epoch: Epoch)
        requires { self.old.last.0 + count < 2 ^ 64 }
        ensures { self.new ≡ spec.lengthened count epoch self.old }
    {
        if count == 0 {
            return;
        }
        self.fence = later(self.fence, epoch);
        self.epoch = epoch;
        self.last = Lsn(self.last.0 + count);
        self.stable = self.last;
    }

    // A step logged so many records, and its call has this answer.
    pub(crate) fn change(
        &mut self,
        event: &StepEvent,
        reply: Option<Reply>,
        count: u64,
    ) -> Result<Outcome, NoMemory>
        requires room { (self.old.last.0 + count < 2 ^ 64) × (self.old.last.0 + 1 < 2 ^ 64) }
        requires shown { self.old.shown + length self.old.ahead + 1 < 2 ^ 64 }
        ensures kept { OnOk result (AreSame self.new (parts.changed count self.old event.now)) }
        ensures told { IfOk result (λ told. told ≡ parts.told_then self.old event.now reply) }
    {
        match event {
            StepEvent::Client(call) => self.called(call, reply, count),
            StepEvent::Survey { epoch } => Ok(self.surveyed(*epoch)),
            StepEvent::Appoint(appointment) => self.started(appointment),
            StepEvent::Barrier => Ok(self.held()),
            StepEvent::Activate { .. } | StepEvent::Inspect => Ok(self.quiet(None)),
        }
    }

    // A call with this answer logged so many records.
    fn called(&mut self, call: &Call, reply: Option<Reply>, count: u64) -> Result<Outcome, NoMemory>
        requires room { self.old.last.0 + count < 2 ^ 64 }
        requires shown { self.old.shown + 1 < 2 ^ 64 }
        ensures kept { OnOk result (AreSame self.new (parts.changed count self.old (steps.Client call.now))) }
        ensures told { IfOk result (λ told. told ≡ parts.told_then self.old (steps.Client call.now) reply) }
    {
        let answer = reply.map(|reply| reply.answer);
        if !self.is_active() {
            return Ok(self.quiet(answer));
        }
        match call {
            Call::Commit(txn) => self.committed(*txn, answer, count),
            Call::Abort(txn) => {
                self.aborted(*txn, count);
                Ok(self.quiet(answer))
            }
            _ => {
                self.noted(call, count);
                Ok(self.quiet(answer))
            }
        }
    }

    // The transaction logged so many records, the last of which is its commit: it is shown. Where it doesn't go on, this is
    // the answer.
    fn committed(
        &mut self,
        txn: TxnId,
        answer: Option<Answer>,
        count: u64,
    ) -> Result<Outcome, NoMemory>
        requires room { self.old.last.0 + count < 2 ^ 64 }
        requires shown { self.old.shown + 1 < 2 ^ 64 }
        ensures kept { OnOk result (AreSame self.new (spec.committed count txn self.old)) }
        ensures told { IfOk result (λ told. told ≡ parts.told_commit self.old txn answer) }
    {
        let Some(ops) = self.front.end(txn) else {
            return Ok(self.quiet(answer));
        };
        self.lengthen(count, self.epoch);
        self.shown += 1;
        apply_all(&mut self.contents, ops.as_slice())?;
        self.shown_commit(txn, ops)
    }

    // A commit was shown.
    fn shown_commit(&self, txn: TxnId, ops: Ops) -> Result<Outcome, NoMemory>
        ensures { IfOk result (λ told. told ≡ parts.shown_one self.now.shown txn ops) }
    {
        let mut commits = Commits::new(self.alloc);
        let mut acknowledged = TxnIds::new(self.alloc);
        commits.push(Committed { txn, ops })?;
        acknowledged.push(txn)?;
        Ok(Outcome {
            answer: None,
            commits,
            acknowledged,
            shown: self.shown,
            active: true,
            barrier_due: true,
        })
    }

    // The transaction logged so many records, the last of which is its end.
    fn aborted(&mut self, txn: TxnId, count: u64)
        requires { self.old.last.0 + count < 2 ^ 64 }
        ensures { AreSame self.new (record (spec.lengthened count self.old.epoch self.old) { front = fronts.ended self.old.front txn }) }
    {
        self.lengthen(count, self.epoch);
        let _ = self.front.end(txn);
    }

    // The call logged so many records, the last of which is its transaction's last one.
    fn noted(&mut self, call: &Call, count: u64)
        requires { self.old.last.0 + count < 2 ^ 64 }
        ensures { self.new ≡ record (spec.lengthened count self.old.epoch self.old) { front = model.noted count call.now (spec.behind self.old.last count) self.old.front } }
    {
        if count == 0 {
            return;
        }
        self.lengthen(count, self.epoch);
        if let Some(txn) = call.txn() {
            self.front.logged(txn, self.last);
        }
    }

    // A survey of an epoch: the fence was raised to it.
    fn surveyed(&mut self, epoch: Epoch) -> Outcome
        ensures kept { self.new ≡ spec.surveyed epoch self.old }
        ensures told { result ≡ spec.outcome self.old (steps.Survey epoch) }
    {
        if epoch < self.fence {
            return self.quiet(Some(Answer::IgnoredOldEpoch(self.fence, epoch)));
        }
        self.fence = later(self.fence, epoch);
        self.role = Role::Other;
        self.front = Front::new(self.alloc, Epoch { loss: 0, number: 0 });
        self.quiet(Some(Answer::Progress(self.id, self.epoch, self.last.0)))
    }

    // The epoch of an appointment was started: what the log commits is shown.
    fn started(&mut self, appointment: &Appointment) -> Result<Outcome, NoMemory>
        requires room { self.old.last.0 + 1 < 2 ^ 64 }
        requires counted { self.old.shown + length self.old.ahead < 2 ^ 64 }
        ensures kept { OnOk result (self.new ≡ spec.started appointment.now.epoch self.old) }
        ensures told { IfOk result (λ told. told ≡ spec.outcome self.old (steps.Appoint appointment.now)) }
    {
        let epoch = appointment.epoch;
        let ahead = mem::replace(&mut self.ahead, Commits::new(self.alloc));
        apply_commits(&mut self.contents, ahead.as_slice())?;
        self.lengthen(1, epoch);
        self.shown += ahead.as_slice().len() as u64;
        self.role = Role::Primary {
            epoch,
            active: true,
        };
        self.front = Front::new(self.alloc, epoch);
        Ok(Outcome {
            answer: None,
            commits: ahead,
            acknowledged: TxnIds::new(self.alloc),
            shown: self.shown,
            active: true,
            barrier_due: true,
        })
    }

    // A Barrier was logged.
    fn held(&mut self) -> Outcome
        requires { self.old.last.0 + 1 < 2 ^ 64 }
        ensures kept { self.new ≡ spec.stepped self.old steps.Barrier }
        ensures told { result ≡ spec.outcome self.old steps.Barrier }
    {
        self.lengthen(1, self.epoch);
        self.quiet(None)
    }

    // A step that shows nothing more.
    pub(crate) fn quiet(&self, answer: Option<Answer>) -> Outcome
        ensures { result ≡ spec.quiet self.now answer }
    {
        Outcome {
            answer,
            commits: Commits::new(self.alloc),
            acknowledged: TxnIds::new(self.alloc),
            shown: self.shown,
            active: self.is_active(),
            barrier_due: false,
        }
    }
}
