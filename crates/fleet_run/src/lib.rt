//! The runs of a fleet: what each event does to its replicas, one act after another, and the lines of each act. Each law is the
//! contract of a function that does nothing.
#![tactic(auto)]

ghost use Rattle.fleet_run.specs.Acknowledging.{AcknowledgementsMayCome, ActiveMayCome, LaterPrimariesShowMore};
ghost use Rattle.fleet_run.specs.Stops.{RunsKeepWhatIsShown, StopsKeepWhatIsShown};
ghost use Rattle.fleet_run.specs.Fronts.{BeginsKeepFronts, CallsAreAnsweredAlike, CollectionCallsKeepFronts, CommitsKeepFronts, EndsKeepFronts, LooksKeepFronts};
ghost use Rattle.fleet_run.specs.LostCommit.{LostCommit};
ghost use Rattle.fleet_run.specs.Laws.{ActsKeepSound, AppointmentsAreAllowed, BarriersAreAllowed, BeginningsKeepSound, EventsKeepSound, FirstIsSound, LinesKeepTerms, LogsHaveSamePrefix, RunsAreSound, StableLogsAreOne, WhatIsShownIsHeld};
ghost use Rattle.fleet_run.specs.Phases.{OrderAndViewMayCome, StableCommitsAreOne};
ghost use Rattle.fleet_run.specs.Rows.{AsideEventsAreWhole, FirstAgrees, LinesTellMachine};
ghost use Rattle.fleet_run.specs.ThreeBoot.{ThreeBoot};

/// Three replicas can be booted, with these lines; their primary has logged the start of its epoch, and isn't active: alone it is
/// no write quorum of the three.
pub fn three_are_booted()
    ensures { ThreeBoot }
{}

/// A commit whose step is cut off behind its write is shown by the primary of a later epoch: eight events of a fleet, with their
/// lines, from a boot to the appointment where its order comes.
pub fn lost_commits_return()
    ensures { LostCommit }
{}

/// Every line of an event leaves the epochs and the configurations that were appointed.
pub fn lines_keep_terms()
    ensures { LinesKeepTerms }
{}

/// Before anything happened the fleet stands for the empty one of the replication laws, and all of it is as it has to be.
pub fn first_is_sound()
    ensures { FirstIsSound }
{}

/// Each act but an appointment, done or cut off by the disk, is moves of the replication laws, and leads to a fleet that is as it has
/// to be: a mount, a closing, a client's call of any answer, a survey, an activation, a Barrier, an inspection, and lines.
pub fn acts_keep_sound()
    ensures { ActsKeepSound }
{}

/// Whatever happens in an event, a boot or an appointment too, is moves of the replication laws, and leads to a fleet that is as it
/// has to be.
pub fn events_keep_sound()
    ensures { EventsKeepSound }
{}

/// So it is wherever an event is left.
pub fn beginnings_keep_sound()
    ensures { BeginningsKeepSound }
{}

/// The fleet is as it has to be after each run.
pub fn runs_are_sound()
    ensures { RunsAreSound }
{}

/// An open replica may take the appointment that its event plans.
pub fn appointments_are_allowed()
    ensures { AppointmentsAreAllowed }
{}

/// Where a Barrier is due, an active primary is there for it.
pub fn barriers_are_allowed()
    ensures { BarriersAreAllowed }
{}

/// Two logs anywhere that have one epoch at a place are one up to it.
pub fn logs_have_same_prefix()
    ensures { LogsHaveSamePrefix }
{}

/// Of what is stable anywhere, at two times of a run, one begins the other.
pub fn stable_logs_are_one()
    ensures { StableLogsAreOne }
{}

/// What is stable anywhere is held by each of a write quorum of the configuration last activated, in whatever its disk may hold, then
/// and ever after.
pub fn what_is_shown_is_held()
    ensures { WhatIsShownIsHeld }
{}

/// The machine behind an event is the one that its lines tell.
pub fn lines_tell_machine()
    ensures { LinesTellMachine }
{}

/// Before anything happened the machine and the replicas agree.
pub fn first_agrees()
    ensures { FirstAgrees }
{}

/// Crashes, reboots, surveys, inspections, armings, and calls at replicas that serve no clients, done or cut off by the disk, have
/// lines that the machine's rows allow, and leave the machine and the replicas in agreement.
pub fn aside_events_are_whole()
    ensures { AsideEventsAreWhole }
{}

/// Of what stable logs commit, at two times of a run, one begins the other: a fleet has one order.
pub fn stable_commits_are_one()
    ensures { StableCommitsAreOne }
{}

/// Where a primary comes to show more, and all of that is a text, the lines of the order and of the view may come, and the order is the
/// longer of what it was and what is shown.
pub fn order_and_view_may_come()
    ensures { OrderAndViewMayCome }
{}

/// What an active primary shows, each active primary of a later epoch shows too.
pub fn later_primaries_show_more()
    ensures { LaterPrimariesShowMore }
{}

/// Where a primary becomes active, and shows all that was acknowledged up to its epoch, the line of that may come behind those of the
/// order and of the view.
pub fn active_may_come()
    ensures { ActiveMayCome }
{}

/// What a primary has come to show of its own epoch is acknowledged in turn, and nothing that it shows is pending then.
pub fn acknowledgements_may_come()
    ensures { AcknowledgementsMayCome }
{}

/// What was stable anywhere after a run is held after whatever events follow, with all that it commits, by each of a write quorum of
/// the configuration that there was then.
pub fn runs_keep_what_is_shown()
    ensures { RunsKeepWhatIsShown }
{}

/// So it is wherever the next event is left, between two of its acts.
pub fn stops_keep_what_is_shown()
    ensures { StopsKeepWhatIsShown }
{}

/// A primary answers each call as the machine does, where they agree on what goes on there.
pub fn calls_are_answered_alike()
    ensures { CallsAreAnsweredAlike }
{}

/// Once a call on a collection is answered, a primary and the machine agree on what goes on then.
pub fn collection_calls_keep_fronts()
    ensures { CollectionCallsKeepFronts }
{}

/// So they do once a begin is answered.
pub fn begins_keep_fronts()
    ensures { BeginsKeepFronts }
{}

/// So they do once the commit of a transaction that goes on is asked.
pub fn commits_keep_fronts()
    ensures { CommitsKeepFronts }
{}

/// So they do once an abort is answered, or the commit of a transaction that has ended.
pub fn ends_keep_fronts()
    ensures { EndsKeepFronts }
{}

/// So they do behind the lines that show a step's commits and acknowledge them: their locks go in both.
pub fn looks_keep_fronts()
    ensures { LooksKeepFronts }
{}
