ghost use Rattle.std.specs.Prelude.{◌≡◌, ℕ, ◌<◌, ◌≤◌, ◌∷◌, ◌++◌, [], IfOk, OnOk, OnErr, Err, None, false, max, vec_len, slice_get};
ghost use Rattle.order_machine.specs.declared.observation.Observation.{Observation};
ghost use Rattle.order_machine.specs.Machine.{Machine};
ghost use Rattle.order_machine.specs.Transitions.{event_primary, is_actor};
ghost use Rattle.replica_model.specs.Steps.{CallFits};
ghost use Rattle.events.specs.declared.event.Event.TheVariants.{Boot, Client, Arm, Crash, Reboot, Inspect};
ghost use Rattle.world.specs.Fleet.{images_of, faults_of, marks_of, marks_after, fault_lines, RoseBy};
ghost use Rattle.world.specs.Kept.{no_events};
ghost use Rattle.world.specs.Limits.{IsServable};
ghost use Rattle.world.specs.Handling.{IsReady, Handles, refusal_of, down_in};
ghost use Rattle.world.specs.World.{StandsFor, IsHere, Serves, StillHolds};

use crate::effects::EventEffects;
use crate::error::WorldError;
use crate::opening::open_replica;
use crate::rows::inspected;
use crate::starting::{FIRST_EPOCH, boot_replica, first_rule};
use crate::steps::take_call;
use config_rule::Rule;
use disk_model::CrashDisk;
use events::{Answer, Call, Event};
use order_machine::{Observation, Observations, line_of_answer};
use rc_base::{NoMemory, ReplicaId};
use replica::{Replica, StepError};
use std::alloc::Global;
use std::marker::Model;

/// The state of a script's world between two events. Its replica's log is on a disk of the fleet, which is lent to each
/// event.
#[derive(Drop)]
pub struct World {
    pub(crate) alloc: Global,
    // The number of the last event.
    pub(crate) last: u64,
    // The rule of reconfiguration, once the boot was done.
    pub(crate) rule: Option<Rule>,
    // How many transactions the order has.
    pub(crate) order: u64,
    // Replica 0, where it is open.
    pub(crate) replica: Option<Replica>,
}

impl Model for World {
    ghost use Rattle.world.specs.Kept.{Kept};

    ghost Value = { Kept };

    ghost view = { λ w. record { last = w.last; rule = w.rule; order = w.order; replica = w.replica } };
}

impl World {
    /// A world in which nothing was booted. With a fleet of empty disks it stands for the first state of the machine.
    ///
    /// # Errors
    /// `NoMemory` where it is out of memory.
    pub fn new(alloc: Global) -> Result<World, NoMemory>
        ensures { IfOk result (λ world. world ≡ no_events) }
    {
        Ok(World {
            alloc,
            last: 0,
            rule: None,
            order: 0,
            replica: None,
        })
    }

    /// Does an event, and gives its lines. At each state of the machine that world and fleet stand for these are all
    /// lines of the event, and world and fleet stand for the state after them. Only the disks of the replicas that take
    /// a step are called; a `fault` is told only where that disk failed, and a disk is armed and stopped only where that
    /// was asked.
    ///
    /// # Errors
    /// `NoMemory` where it is out of memory; `Limit` where the event reaches a limit of the machine, and `Unbuilt` where it
    /// isn't built there, each with the lines that the event has until then. The world is dropped then; the disks still
    /// hold what was acknowledged.
    pub fn event<M: CrashDisk>(
        &mut self,
        fleet: &mut Vec<M>,
        number: u64,
        event: &Event,
    ) -> Result<Observations, WorldError>
        requires nine { vec_len fleet.old ≡ 9 }
        requires here { IsHere event.now }
        requires rising { self.old.last < number }
        requires within { number ≤ 1000000 }
        requires stands { (m : Machine) × StandsFor self.old (images_of M.images fleet.old.items 0) m }
        ensures serves { Serves self.old self.new (images_of M.images fleet.old.items 0) (images_of M.images fleet.new.items 0) event.now result }
        ensures servable { OnOk result ((m : Machine) → StandsFor self.old (images_of M.images fleet.old.items 0) m → IsServable m event.now) }
        ensures still { (m : Machine) → StandsFor self.old (images_of M.images fleet.old.items 0) m → StillHolds m (images_of M.images fleet.new.items 0) }
        ensures last { OnOk result (self.new.last ≡ number) }
        ensures nine { vec_len fleet.new ≡ 9 }
        ensures elsewhere { (m : Machine) → StandsFor self.old (images_of M.images fleet.old.items 0) m → (r : ℕ) → is_actor (event_primary m event.now) event.now r ≡ false → slice_get fleet.new.items r ≡ slice_get fleet.old.items r }
        ensures faults { (r : ℕ) → RoseBy (fault_lines r result) (faults_of M.faults fleet.old.items r) (faults_of M.faults fleet.new.items r) }
        ensures marks { (r : ℕ) → marks_of M.marks fleet.new.items r ≡ marks_after event.now result r (marks_of M.marks fleet.old.items r) }
    {
        self.at_zero(&mut fleet[0], number, event)
    }

    // An event at replica 0, which has this disk.
    fn at_zero<M: CrashDisk>(
        &mut self,
        disk: &mut M,
        number: u64,
        event: &Event,
    ) -> Result<Observations, WorldError>
        requires here { IsHere event.now }
        requires ready { IsReady self.old (M.images disk.old) number }
        ensures { Handles M.images M.faults M.marks self.old self.new disk.old disk.new number event.now result }
    {
        if let Some(answer) = self.refusal(event) {
            return self.answered(number, line_of_answer(answer));
        }
        match event {
            Event::Boot(primary, _) => self.boot(disk, number, *primary),
            Event::Client(replica, call) => self.client(disk, number, *replica, call),
            Event::Arm(replica, calls) => self.arm(disk, number, *replica, *calls),
            Event::Crash(replica, pick) => self.crash(disk, number, *replica, *pick),
            Event::Reboot(replica) => self.reboot(disk, number, *replica),
            Event::Inspect(replica) => self.inspect(disk, number, *replica),
            Event::Survey(replica, epoch) => self.survey(disk, number, *replica, *epoch),
            Event::Appoint(epoch, primary, members) => {
                self.appoint(disk, number, *epoch, *primary, members)
            }
            Event::Activate(epoch) => self.activate(disk, number, *epoch),
        }
    }

    // The one answer of an event that the world refuses by what it keeps. What breaks a later part of the rule of
    // reconfiguration is told by the rule itself.
    fn refusal(&self, event: &Event) -> Option<Answer>
        ensures { result ≡ refusal_of self.now event.now }
    {
        let Some(rule) = &self.rule else {
            return match event {
                Event::Boot(..) => None,
                _ => Some(Answer::Refused(9)),
            };
        };
        match event {
            Event::Boot(..) => Some(Answer::Refused(9)),
            Event::Arm(replica, _) | Event::Inspect(replica) => self.down(*replica),
            Event::Reboot(_) => self.replica.as_ref().map(|_| Answer::IgnoredUp),
            Event::Survey(replica, epoch) => {
                if rule.survey_ok(*epoch) {
                    self.down(*replica)
                } else {
                    Some(Answer::Refused(1))
                }
            }
            Event::Client(..) | Event::Crash(..) | Event::Appoint(..) | Event::Activate(_) => None,
        }
    }

    // The refusal of what is asked of a replica that is closed.
    fn down(&self, replica: ReplicaId) -> Option<Answer>
        ensures { result ≡ down_in self.now replica }
    {
        if self.replica.is_some() {
            return None;
        }
        Some(Answer::Down(replica))
    }

    fn boot<M: CrashDisk>(
        &mut self,
        disk: &mut M,
        number: u64,
        replica: ReplicaId,
    ) -> Result<Observations, WorldError>
        requires first { replica ≡ 0 }
        requires allowed { refusal_of self.old (Boot 0 (0 ∷ [])) ≡ None }
        requires ready { IsReady self.old (M.images disk.old) number }
        ensures { Handles M.images M.faults M.marks self.old self.new disk.old disk.new number (Boot 0 (0 ∷ [])) result }
    {
        let mut effects = EventEffects::new(self.alloc, 0);
        let mut rule = first_rule(self.alloc, replica)?;
        self.replica = boot_replica(self.alloc, replica, disk, &mut effects)?;
        if effects.active {
            rule.note_active(FIRST_EPOCH);
        }
        self.rule = Some(rule);
        Ok(self.finish(number, effects))
    }

    fn client<M: CrashDisk>(
        &mut self,
        disk: &mut M,
        number: u64,
        replica: ReplicaId,
        call: &Call,
    ) -> Result<Observations, WorldError>
        requires fits { CallFits call.now }
        requires first { replica ≡ 0 }
        requires allowed { refusal_of self.old (Client 0 call.now) ≡ None }
        requires ready { IsReady self.old (M.images disk.old) number }
        ensures { Handles M.images M.faults M.marks self.old self.new disk.old disk.new number (Client 0 call.now) result }
    {
        let mut effects = EventEffects::new(self.alloc, self.order);
        let Some(open) = &mut self.replica else {
            return self.answered(number, Observation::Down(replica));
        };
        match take_call(replica, open, disk, call, &mut effects) {
            Ok(()) => Ok(self.finish(number, effects)),
            Err(StepError::Disk) => self.faulted(number, replica, effects),
            Err(StepError::NoMemory) => Err(WorldError::NoMemory),
        }
    }

    fn arm<M: CrashDisk>(
        &mut self,
        disk: &mut M,
        number: u64,
        replica: ReplicaId,
        calls: u64,
    ) -> Result<Observations, WorldError>
        requires one { 1 ≤ calls }
        requires first { replica ≡ 0 }
        requires allowed { refusal_of self.old (Arm 0 calls) ≡ None }
        requires ready { IsReady self.old (M.images disk.old) number }
        ensures { Handles M.images M.faults M.marks self.old self.new disk.old disk.new number (Arm 0 calls) result }
    {
        let lines = self.answered(number, Observation::Done)?;
        disk.arm(calls);
        Ok(lines)
    }

    fn crash<M: CrashDisk>(
        &mut self,
        disk: &mut M,
        number: u64,
        replica: ReplicaId,
        pick: u64,
    ) -> Result<Observations, WorldError>
        requires first { replica ≡ 0 }
        requires allowed { refusal_of self.old (Crash 0 pick) ≡ None }
        requires ready { IsReady self.old (M.images disk.old) number }
        ensures { Handles M.images M.faults M.marks self.old self.new disk.old disk.new number (Crash 0 pick) result }
    {
        let lines = self.answered(number, Observation::Done)?;
        self.replica = None;
        disk.crash(pick);
        Ok(lines)
    }

    fn reboot<M: CrashDisk>(
        &mut self,
        disk: &mut M,
        number: u64,
        replica: ReplicaId,
    ) -> Result<Observations, WorldError>
        requires first { replica ≡ 0 }
        requires allowed { refusal_of self.old (Reboot 0) ≡ None }
        requires ready { IsReady self.old (M.images disk.old) number }
        ensures { Handles M.images M.faults M.marks self.old self.new disk.old disk.new number (Reboot 0) result }
    {
        let mut lines = Observations::new(self.alloc);
        self.replica = open_replica(self.alloc, replica, disk, &mut lines)?;
        self.last = number;
        Ok(lines)
    }

    fn inspect<M: CrashDisk>(
        &mut self,
        disk: &mut M,
        number: u64,
        replica: ReplicaId,
    ) -> Result<Observations, WorldError>
        requires first { replica ≡ 0 }
        requires allowed { refusal_of self.old (Inspect 0) ≡ None }
        requires ready { IsReady self.old (M.images disk.old) number }
        ensures { Handles M.images M.faults M.marks self.old self.new disk.old disk.new number (Inspect 0) result }
    {
        let _ = disk;
        let Some(opened) = &self.replica else {
            unreachable!();
        };
        let lines = inspected(self.alloc, replica, opened.contents())?;
        self.last = number;
        Ok(lines)
    }

    // An event was done: its effects go into the world's state, and become its lines.
    pub(crate) fn finish(&mut self, number: u64, effects: EventEffects) -> Observations
        ensures kept { self.new ≡ record self.old { last = number; order = effects.order } }
        ensures lines { result ≡ effects.lines }
    {
        self.last = number;
        self.order = effects.order;
        effects.lines
    }

    // An event in a step of which the disk failed, after these effects: the replica is closed.
    pub(crate) fn faulted(
        &mut self,
        number: u64,
        replica: ReplicaId,
        effects: EventEffects,
    ) -> Result<Observations, WorldError>
        ensures lines { IfOk result (λ told. told ≡ effects.lines ++ Observation.Fault replica ∷ []) }
        ensures closed { OnOk result (self.new ≡ record self.old { last = number; order = effects.order; replica = None }) }
        ensures memory { OnErr result (result ≡ Err WorldError.NoMemory) }
    {
        self.replica = None;
        let mut lines = self.finish(number, effects);
        lines.push(Observation::Fault(replica))?;
        Ok(lines)
    }

    // An event that is answered and changes nothing but the count of events.
    pub(crate) fn answered(
        &mut self,
        number: u64,
        answer: Observation,
    ) -> Result<Observations, WorldError>
        ensures lines { IfOk result (λ lines. lines ≡ answer ∷ []) }
        ensures stays { OnOk result (self.new ≡ record self.old { last = number }) }
        ensures memory { OnErr result (result ≡ Err WorldError.NoMemory) }
    {
        let mut lines = Observations::new(self.alloc);
        lines.push(answer)?;
        self.last = number;
        Ok(lines)
    }
}
