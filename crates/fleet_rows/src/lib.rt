//! The lines of a fleet's events: however an event goes from a state that is served, its lines are whole by the rows of the
//! machine, and the state behind them is served. Each law is the contract of a function that does nothing.
#![tactic(auto)]

ghost use Rattle.fleet_rows.specs.Laws.{AbortsAreServed, ArmsAreServed, CrashesAreServed, FirstIsServed, InspectionsAreServed, OperationsAreServed, QuietCallsAreServed, RebootsAreServed, RefusedAreServed, SurveysAreServed};

/// Before anything happened the fleet is served.
pub fn first_is_served()
    ensures { FirstIsServed }
{}

/// An event that the machine refuses has its one line, and leaves all as it was.
pub fn refused_are_served()
    ensures { RefusedAreServed }
{}

/// A disk may be armed.
pub fn arms_are_served()
    ensures { ArmsAreServed }
{}

/// An inspection tells what its replica shows: that is what the machine knows.
pub fn inspections_are_served()
    ensures { InspectionsAreServed }
{}

/// A crash closes a replica, whatever it was: its role ends, and with it what goes on there.
pub fn crashes_are_served()
    ensures { CrashesAreServed }
{}

/// A reboot opens a replica over any of the logs that its disk may hold, and it shows a beginning of the order; or its disk
/// fails.
pub fn reboots_are_served()
    ensures { RebootsAreServed }
{}

/// A survey ends the role of its replica, and tells how far the log reaches, whose last epoch was appointed; or it is ignored, by a
/// fence that was told; or the disk fails in it, and holds the old fence or the new one.
pub fn surveys_are_served()
    ensures { SurveysAreServed }
{}

/// A client's call that is answered and logs nothing: it has the one answer of the machine, at a replica that is closed, at one that
/// is no active primary, and at an active primary: a begin, a read, a call that a lock or the collection refuses, one of a
/// transaction that has ended, and the abort of one that has logged nothing.
pub fn quiet_calls_are_served()
    ensures { QuietCallsAreServed }
{}

/// A client's call that logs an operation: the operation goes on at the primary and in the machine, and the log has it, behind
/// the start of its transaction where it is the first; nothing more comes to be shown by it. Or the disk fails in it, and holds the log
/// without the operation or with it.
pub fn operations_are_served()
    ensures { OperationsAreServed }
{}

/// An abort, whatever its transaction has logged: the transaction goes on no more, and its locks go. Or the disk fails in it, and holds
/// the log without its end or with it.
pub fn aborts_are_served()
    ensures { AbortsAreServed }
{}
