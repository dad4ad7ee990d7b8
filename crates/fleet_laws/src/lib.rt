//! The laws of replication, over every run of an abstract fleet. Each is the contract of a function that does nothing;
//! `docs/PROTOCOL.md` explains them in the order in which they are proved.
#![tactic(auto)]

ghost use Rattle.fleet_laws.specs.Fleets.{empty_fleet};
ghost use Rattle.fleet_laws.specs.Invariant.{Invariant};
ghost use Rattle.fleet_laws.specs.Laws.{AcknowledgedWithin, AfterAnIdleStart, BarriersAreSafe, CanonicalStays, ChosenAreOne, ChosenIsHeld, ChosenStays, ClosedEpochs, CodesKeepOrder, CopyKeepsStable, CopyModeIsRight, FencedIsBeginning, HasQuorumNumber, HeldLater, LaterEpochsHaveIt, LogsAreMarked, LogsAreOfHistories, MovesKeepInvariant, OnePrimary, OrderIsHeld, OrderOnlyGrows, PrimaryHasWhatMayBeChosen, QuorumNumberIsChosen, QuorumNumberOfTwo, QuorumsMeet, RunsKeepInvariant, SafeStays, SamePrefix, SomeRunUndoes, StableBeginsLater, TurnsKeepViews, UndoKeepsStable, ViewsBeginOrder};

/// The numbers that stand for epochs are ordered as the epochs are: by loss, then by number.
pub fn codes_keep_order()
    ensures { CodesKeepOrder }
{}

/// A write quorum and a read quorum of one configuration share a member.
pub fn quorums_meet()
    ensures { QuorumsMeet }
{}

/// A configuration that has members has a quorum number.
pub fn quorum_number_exists()
    ensures { HasQuorumNumber }
{}

/// The quorum number of two configurations is the lesser of theirs.
pub fn quorum_number_of_two()
    ensures { QuorumNumberOfTwo }
{}

/// What is at or below the quorum number of acknowledged places is chosen, from the EpochStart on.
pub fn quorum_number_is_chosen<R>()
    ensures { QuorumNumberIsChosen R }
{}

/// The invariant holds of the empty fleet.
pub fn empty_fleet_holds<R>()
    ensures { Invariant {R = R} empty_fleet }
{}

/// Each move keeps the invariant.
pub fn moves_keep<R>()
    ensures { MovesKeepInvariant R }
{}

/// The invariant holds after every run.
pub fn runs_keep<R>()
    ensures { RunsKeepInvariant R }
{}

/// No two replicas are primaries of one epoch.
pub fn one_primary<R>()
    ensures { OnePrimary R }
{}

/// What a replica has acknowledged is within the history of an appointed epoch.
pub fn acknowledged_within<R>()
    ensures { AcknowledgedWithin R }
{}

/// Any two logs anywhere that have one epoch at a place are one up to it.
pub fn same_prefix<R>()
    ensures { SamePrefix R }
{}

/// In each log an EpochStart stands exactly where the epoch rises.
pub fn logs_are_marked<R>()
    ensures { LogsAreMarked R }
{}

/// Histories, logs and their beginnings are made of the histories of their epochs.
pub fn logs_are_of_histories<R>()
    ensures { LogsAreOfHistories R }
{}

/// What a Barrier of a log names is safe in that log.
pub fn barriers_are_safe<R>()
    ensures { BarriersAreSafe R }
{}

/// Whoever is appointed has in its log all that may be chosen at an earlier epoch.
pub fn primary_has_what_may_be_chosen<R>()
    ensures { PrimaryHasWhatMayBeChosen R }
{}

/// The history of a later epoch has, below its EpochStart, all that may be chosen at an earlier one.
pub fn later_epochs_have_it<R>()
    ensures { LaterEpochsHaveIt R }
{}

/// What is chosen stays chosen, and what may be chosen only becomes less once a later epoch is appointed.
pub fn chosen_stays<R>()
    ensures { ChosenStays R }
{}

/// What is safe stays safe, at greater fences and in other logs with that beginning.
pub fn safe_stays<R>()
    ensures { SafeStays R }
{}

/// A log that is made of the histories stays one.
pub fn canonical_stays<R>()
    ensures { CanonicalStays R }
{}

/// Of two chosen beginnings of histories one begins the other.
pub fn chosen_are_one<R>()
    ensures { ChosenAreOne R }
{}

/// Whatever is chosen at an epoch stands below the EpochStart of each later one.
pub fn closed_epochs<R>()
    ensures { ClosedEpochs R }
{}

/// All that later histories have after the EpochStart of an epoch that logged nothing else is of later epochs.
pub fn after_an_idle_start<R>()
    ensures { AfterAnIdleStart R }
{}

/// A log that has the EpochStart of an epoch that is not below its fence begins the history of that epoch.
pub fn fenced_is_beginning<R>()
    ensures { FencedIsBeginning R }
{}

/// What is stable in a value begins the history of each epoch that is not below its fence.
pub fn stable_begins_later<R>()
    ensures { StableBeginsLater R }
{}

/// What is chosen is held, in each value that its disk may hold, by each of a write quorum of the configuration
/// last activated.
pub fn chosen_is_held<R>()
    ensures { ChosenIsHeld R }
{}

/// What was chosen is held in every later fleet, by each of a write quorum of the configuration that was the last
/// activated then.
pub fn held_later<R>()
    ensures { HeldLater R }
{}

/// What a primary shows lengthens the one order, or is a beginning of it.
pub fn order_only_grows<R, S>()
    ensures { OrderOnlyGrows R S }
{}

/// What a value shows is a beginning of the order, as far as the order goes.
pub fn views_begin_order<R, S>()
    ensures { ViewsBeginOrder R S }
{}

/// A turn or a mount that does not raise the stable number leaves the log to it as it was.
pub fn turns_keep_views<R>()
    ensures { TurnsKeepViews R }
{}

/// Each of a write quorum of the configuration last activated holds the order, in each value that its disk may
/// hold.
pub fn order_is_held<R, S>()
    ensures { OrderIsHeld R S }
{}

/// An undo never goes below what is stable.
pub fn undo_keeps_stable<R>()
    ensures { UndoKeepsStable R }
{}

/// The position of a full copy is never below what is stable, nor below a common place.
pub fn copy_keeps_stable<R>()
    ensures { CopyKeepsStable R }
{}

/// The mode of a copy that the epochs give is right.
pub fn copy_mode_is_right<R>()
    ensures { CopyModeIsRight R }
{}

/// There is a run in which something is chosen in two epochs, false progress is undone and an epoch is activated.
pub fn some_run_undoes()
    ensures { SomeRunUndoes }
{}
