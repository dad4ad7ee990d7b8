ghost use Rattle.std.specs.Prelude.{◌≡◌, ◌≢◌, ◌≤◌, [], length, IfOk, OnOk, IfErr, OnErr, IsErrOf, Some, None, Err, ℕ};
ghost use Rattle.rc_base.specs.Members.{AreMembers};

use crate::answers::{Answers, SurveyAnswer};
use crate::appointments::{Appointed, Appointment, is_above, is_latest, place_of};
use crate::error::{Broken, RuleError};
use crate::members::{are_members, distinct_members};
use rc_base::{Epoch, Lsn, Members, NoMemory, ReplicaId, read_quorum};
use std::alloc::Global;
use std::marker::Model;

/// What the rule of reconfiguration is judged by: the appointments so far, the configuration last activated, and the
/// answers to surveys. Contracts see these three.
#[derive(Drop)]
pub struct Rule {
    appointed: Vec<Appointed>,
    current: usize,
    answers: Answers,
    alloc: Global,
}

impl Model for Rule {
    ghost use Rattle.config_rule.specs.Rule.{Known};
    ghost use Rattle.config_rule.specs.Kept.{configuration_at, IsKept};

    ghost Value = { Known };

    ghost view = { λ r. record {
      appointed = r.appointed.items;
      current = configuration_at r.appointed.items r.current;
      answers = r.answers;
    } };

    ghost invariant = { λ r. IsKept r.appointed.items r.current };
}

impl Rule {
    ghost use Rattle.config_rule.specs.declared.error.Broken.{Broken as BrokenPart};
    ghost use Rattle.config_rule.specs.declared.error.RuleError.TheVariants.{Broken as IsBroken};
    ghost use Rattle.config_rule.specs.Rule as rule;

    /// The rule after the boot, whose epoch is 0.1: its members are the configuration last activated, and nothing else is
    /// known.
    ///
    /// # Errors
    /// `NoMemory`.
    pub fn new(alloc: Global, first: &Members) -> Result<Rule, NoMemory>
        requires { first.now ≢ [] }
        ensures { IfOk result (λ r. r ≡ rule.after_boot first.now) }
    {
        let mut appointed = Vec::new(alloc);
        appointed.push(Appointed {
            epoch: Epoch { loss: 0, number: 1 },
            primary: None,
            pc: first.clone()?,
            cc: first.clone()?,
            active: false,
            activated: true,
        })?;
        Ok(Rule {
            appointed,
            current: 0,
            answers: Answers::new(alloc),
            alloc,
        })
    }

    /// How many appointments there were, with that of the boot. It takes no memory.
    pub fn appointments(&self) -> usize
        ensures { result ≡ length self.now.appointed }
    {
        self.appointed.len()
    }

    /// Whether a survey may be asked for the epoch: it is above each appointed epoch. It takes no memory.
    pub fn survey_ok(&self, epoch: Epoch) -> bool
        ensures { result ≡ rule.is_above self.now.appointed epoch }
    {
        is_above(&self.appointed, epoch)
    }

    /// A replica answered a survey of the epoch: the epoch and the place of its last record. The answer stands in place of
    /// its earlier one to the same epoch.
    ///
    /// # Errors
    /// `NoMemory`, and then the rule is as before.
    pub fn note_answer(
        &mut self,
        epoch: Epoch,
        from: ReplicaId,
        last_epoch: Epoch,
        last: Lsn,
    ) -> Result<(), NoMemory>
        ensures ok { OnOk result (self.new ≡ rule.after_answer self.old (record { epoch = epoch; from = from; last_epoch = last_epoch; last = last })) }
        ensures err { OnErr result (self.new ≡ self.old) }
    {
        self.answers.note(SurveyAnswer {
            epoch,
            from,
            last_epoch,
            last,
        })
    }

    /// Appoints a primary with members to an epoch. It is lawful where the epoch is above each appointed epoch (1), the
    /// members are distinct, 1 to 9, and hold the primary (2), a read quorum of the configuration last activated has
    /// answered a survey of the epoch (3), the primary has answered it, and no survey above (4), no answer to it is
    /// greater than the primary's, by the epoch of the last record, then by its place (5), and the primary is up (6).
    ///
    /// # Errors
    /// `Broken` exactly where a part fails, with the least that does; `NoMemory` where it is out of memory. After either the
    /// rule is as before.
    pub fn appoint(
        &mut self,
        epoch: Epoch,
        primary: ReplicaId,
        members: &[ReplicaId],
        up: bool,
    ) -> Result<Appointment, RuleError>
        ensures epoch { IfOk result (λ a. a.epoch ≡ epoch) }
        ensures primary { IfOk result (λ a. a.primary ≡ primary) }
        ensures previous { IfOk result (λ a. a.pc ≡ self.old.current) }
        ensures members { IfOk result (λ a. AreMembers members.now a.cc) }
        ensures appointed { IfOk result (λ a. self.new ≡ rule.after_appointment self.old epoch primary a.cc) }
        ensures lawful { OnOk result (rule.broken_appointment self.old epoch primary members.now up ≡ None) }
        ensures broken { (broken : BrokenPart) → IsErrOf result (IsBroken broken) → rule.broken_appointment self.old epoch primary members.now up ≡ Some broken.part }
        ensures broken_only { (part : ℕ) → rule.broken_appointment self.old epoch primary members.now up ≡ Some part → result ≡ Err (IsBroken (record { part = part })) }
        ensures err { OnErr result (self.new ≡ self.old) }
    {
        self.judge(epoch, primary, members, up)?;
        let cc = distinct_members(self.alloc, members)?;
        let pc = self.previous()?;
        self.keep(epoch, primary, &cc)?;
        Ok(Appointment {
            epoch,
            primary,
            pc,
            cc,
        })
    }

    /// The primary of the epoch has become active in it; of an epoch that isn't appointed nothing is noted. It takes no
    /// memory.
    pub fn note_active(&mut self, epoch: Epoch)
        ensures { self.new ≡ rule.after_active self.old epoch }
    {
        if let Some(place) = place_of(&self.appointed, epoch) {
            let appointed = &mut self.appointed[place];
            appointed.active = true;
        }
    }

    /// The configuration of the epoch becomes the one last activated. It is lawful where the epoch is the latest appointed
    /// (7) and its primary has become active in it (8). It takes no memory.
    ///
    /// # Errors
    /// `Broken` exactly where a part fails, with the least that does, and then the rule is as before.
    pub fn activate(&mut self, epoch: Epoch) -> Result<(), Broken>
        ensures ok { OnOk result (self.new ≡ rule.after_activation self.old epoch) }
        ensures lawful { OnOk result (rule.broken_activation self.old epoch ≡ None) }
        ensures broken { IfErr result (λ e. rule.broken_activation self.old epoch ≡ Some e.part) }
        ensures err { OnErr result (self.new ≡ self.old) }
    {
        if !is_latest(&self.appointed, epoch) {
            return Err(Broken { part: 7 });
        }
        let Some(place) = place_of(&self.appointed, epoch) else {
            return Err(Broken { part: 8 });
        };
        let appointed = &mut self.appointed[place];
        if !appointed.active {
            return Err(Broken { part: 8 });
        }
        appointed.activated = true;
        self.current = place;
        Ok(())
    }

    // The configuration last activated.
    fn configuration(&self) -> &Members
        ensures value { result.now ≡ self.now.current }
        ensures filled { 1 ≤ length self.now.current }
    {
        &self.appointed[self.current].cc
    }

    // A copy of it, as an appointment's previous one.
    fn previous(&self) -> Result<Members, NoMemory>
        ensures { IfOk result (λ pc. pc ≡ self.now.current) }
    {
        Ok(self.configuration().clone()?)
    }

    // The least part of the rule that an appointment breaks.
    fn judge(
        &self,
        epoch: Epoch,
        primary: ReplicaId,
        members: &[ReplicaId],
        up: bool,
    ) -> Result<(), Broken>
        ensures lawful { OnOk result (rule.broken_appointment self.now epoch primary members.now up ≡ None) }
        ensures broken { IfErr result (λ e. rule.broken_appointment self.now epoch primary members.now up ≡ Some e.part) }
    {
        let part = if !self.survey_ok(epoch) {
            1
        } else if !are_members(members, primary) {
            2
        } else if !self.has_quorum(epoch) {
            3
        } else if !self.answers.has_last(epoch, primary) {
            4
        } else if !self.answers.has_most(epoch, primary) {
            5
        } else if !up {
            6
        } else {
            return Ok(());
        };
        Err(Broken { part })
    }

    // Whether a read quorum of the configuration last activated has answered a survey of the epoch.
    fn has_quorum(&self, epoch: Epoch) -> bool
        ensures { result ≡ rule.has_quorum self.now.answers self.now.current epoch }
    {
        let current = self.configuration();
        let answered = self.answers.count(epoch, current.as_slice());
        read_quorum(current.len() as u64) <= answered as u64
    }

    // One appointment more.
    fn keep(&mut self, epoch: Epoch, primary: ReplicaId, cc: &Members) -> Result<(), NoMemory>
        requires { 1 ≤ length cc.now }
        ensures ok { OnOk result (self.new ≡ rule.after_appointment self.old epoch primary cc.now) }
        ensures err { OnErr result (self.new ≡ self.old) }
    {
        let appointed = Appointed {
            epoch,
            primary: Some(primary),
            pc: self.previous()?,
            cc: cc.clone()?,
            active: false,
            activated: false,
        };
        self.appointed.push(appointed)?;
        Ok(())
    }
}
