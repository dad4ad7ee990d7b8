// Surveys, appointments and activations.
ghost use Rattle.std.specs.Prelude.{◌≡◌, ◌<◌, ◌≤◌, ◌∷◌, [], Err, IfOk, OnOk, OnErr, option_map};
ghost use Rattle.config_rule.specs.Rule.{after_answer};
ghost use Rattle.order_machine.specs.Machine.{Machine};
ghost use Rattle.events.specs.declared.event.Event.TheVariants.{Survey, Appoint, Activate};
ghost use Rattle.world.specs.Kept.{Kept};
ghost use Rattle.world.specs.Handling.{IsReady, Handles, refusal_of, rule_surveyed, rule_active, is_past_limit};
ghost use Rattle.world.specs.Steps.{appointment_alone};
ghost use Rattle.world.specs.World.{StandsFor, IsAppointed};

use crate::effects::EventEffects;
use crate::error::WorldError;
use crate::starting::start_epoch;
use crate::steps::take_survey;
use crate::world::World;
use config_rule::{Appointment, RuleError};
use disk_model::CrashDisk;
use events::Replicas;
use order_machine::{Observation, Observations};
use rc_base::{Epoch, LimitName, Lsn, NoMemory, ReplicaId};
use replica::StepError;

// So many appointments a run has room for, that of the boot not among them.
const MOST_APPOINTMENTS: usize = 4096;

impl World {
    pub(crate) fn survey<M: CrashDisk>(
        &mut self,
        disk: &mut M,
        number: u64,
        replica: ReplicaId,
        epoch: Epoch,
    ) -> Result<Observations, WorldError>
        requires first { replica ≡ 0 }
        requires allowed { refusal_of self.old (Survey 0 epoch) ≡ None }
        requires ready { IsReady self.old (M.images disk.old) number }
        ensures { Handles M.images M.faults M.marks self.old self.new disk.old disk.new number (Survey 0 epoch) result }
    {
        let mut effects = EventEffects::new(self.alloc, self.order);
        let Some(open) = &mut self.replica else {
            unreachable!();
        };
        match take_survey(replica, open, disk, epoch, &mut effects) {
            Ok(answered) => self.surveyed(number, replica, epoch, answered, effects),
            Err(StepError::Disk) => self.faulted(number, replica, effects),
            Err(StepError::NoMemory) => Err(WorldError::NoMemory),
        }
    }

    // The survey of an epoch was done at the replica: the rule notes what it answered, where it did.
    fn surveyed(
        &mut self,
        number: u64,
        replica: ReplicaId,
        epoch: Epoch,
        answered: Option<(Epoch, Lsn)>,
        effects: EventEffects,
    ) -> Result<Observations, WorldError>
        ensures kept { OnOk result (self.new ≡ record self.old { last = number; rule = rule_surveyed epoch replica answered self.old.rule; order = effects.order }) }
        ensures lines { IfOk result (λ lines. lines ≡ effects.lines) }
        ensures memory { OnErr result (result ≡ Err WorldError.NoMemory) }
    {
        if let Some((last_epoch, last)) = answered {
            self.note_answer(epoch, replica, last_epoch, last)?;
        }
        Ok(self.finish(number, effects))
    }

    // The rule notes the answer to a survey.
    fn note_answer(
        &mut self,
        epoch: Epoch,
        from: ReplicaId,
        last_epoch: Epoch,
        last: Lsn,
    ) -> Result<(), NoMemory>
        ensures { OnOk result (self.new ≡ record self.old { rule = option_map (λ known. after_answer known (record { epoch = epoch; from = from; last_epoch = last_epoch; last = last })) self.old.rule }) }
    {
        match &mut self.rule {
            Some(rule) => rule.note_answer(epoch, from, last_epoch, last),
            None => Ok(()),
        }
    }

    pub(crate) fn appoint<M: CrashDisk>(
        &mut self,
        disk: &mut M,
        number: u64,
        epoch: Epoch,
        primary: ReplicaId,
        members: &Replicas,
    ) -> Result<Observations, WorldError>
        requires first { primary ≡ 0 }
        requires alone { members.now ≡ 0 ∷ [] }
        requires allowed { refusal_of self.old (Appoint epoch 0 (0 ∷ [])) ≡ None }
        requires ready { IsReady self.old (M.images disk.old) number }
        ensures { Handles M.images M.faults M.marks self.old self.new disk.old disk.new number (Appoint epoch 0 (0 ∷ [])) result }
    {
        let Some(rule) = &mut self.rule else {
            unreachable!();
        };
        match rule.appoint(epoch, primary, members.as_slice(), self.replica.is_some()) {
            Ok(appointment) => self.start(disk, number, appointment),
            Err(RuleError::Broken(broken)) => {
                self.answered(number, Observation::Refused(broken.part))
            }
            Err(RuleError::NoMemory) => Err(WorldError::NoMemory),
        }
    }

    // Whether the rule has taken more appointments than a run has room for.
    fn is_past_limit(&self) -> bool
        ensures { result ≡ is_past_limit self.now }
    {
        match &self.rule {
            Some(rule) => rule.appointments() > MOST_APPOINTMENTS + 1,
            None => false,
        }
    }

    // The replica, which is open, was appointed as the primary of an epoch, which it starts where the limit leaves room.
    fn start<M: CrashDisk>(
        &mut self,
        disk: &mut M,
        number: u64,
        appointment: Appointment,
    ) -> Result<Observations, WorldError>
        requires alone { appointment ≡ appointment_alone appointment.epoch }
        requires rising { self.old.last < number }
        requires within { number ≤ 1000000 }
        requires appointed { (before : Kept) × (m : Machine) × IsAppointed before self.old appointment.epoch × StandsFor before (M.images disk.old) m }
        ensures { (before : Kept) → IsAppointed before self.old appointment.epoch → Handles M.images M.faults M.marks before self.new disk.old disk.new number (Appoint appointment.epoch 0 (0 ∷ [])) result }
    {
        if self.is_past_limit() {
            return Err(WorldError::Limit {
                which: LimitName::Epochs,
                lines: Observations::new(self.alloc),
            });
        }
        let epoch = appointment.epoch;
        let primary = appointment.primary;
        let mut effects = EventEffects::new(self.alloc, self.order);
        let Some(open) = &mut self.replica else {
            unreachable!();
        };
        match start_epoch(primary, open, disk, appointment, &mut effects) {
            Ok(()) => {
                self.note_active(epoch, effects.active);
                Ok(self.finish(number, effects))
            }
            Err(StepError::Disk) => {
                self.note_active(epoch, effects.active);
                self.faulted(number, primary, effects)
            }
            Err(StepError::NoMemory) => Err(WorldError::NoMemory),
        }
    }

    // The rule notes that the primary of the epoch became active, where it did.
    fn note_active(&mut self, epoch: Epoch, active: bool)
        ensures { self.new ≡ record self.old { rule = rule_active epoch active self.old.rule } }
    {
        if active && let Some(rule) = &mut self.rule {
            rule.note_active(epoch);
        }
    }

    pub(crate) fn activate<M: CrashDisk>(
        &mut self,
        disk: &mut M,
        number: u64,
        epoch: Epoch,
    ) -> Result<Observations, WorldError>
        requires allowed { refusal_of self.old (Activate epoch) ≡ None }
        requires ready { IsReady self.old (M.images disk.old) number }
        ensures { Handles M.images M.faults M.marks self.old self.new disk.old disk.new number (Activate epoch) result }
    {
        let _ = disk;
        let Some(rule) = &mut self.rule else {
            unreachable!();
        };
        match rule.activate(epoch) {
            Ok(()) => self.answered(number, Observation::Done),
            Err(broken) => self.answered(number, Observation::Refused(broken.part)),
        }
    }
}
