//! The laws of all transcripts: what every legal run of the machine keeps. Each is the contract of a function that does
//! nothing.
#![tactic(auto)]

ghost use Rattle.order_laws.specs.Laws as laws;

/// The order of committed transactions is only ever added to, at its end: by each event, whatever the machine it
/// meets, and so by each run.
pub fn orders_grow()
    ensures event { laws.EventsGrowOrders }
    ensures run { laws.RunsGrowOrders }
{}

/// A run whose events have all their lines is legal. So the laws of legal runs are its laws too.
pub fn whole_runs_are_legal()
    ensures { laws.WholeRunsAreLegal }
{}

/// A transaction that was acknowledged to its client is in the order, and none is there twice.
pub fn acknowledged_are_ordered()
    ensures held { laws.InEachRun laws.HoldsAcknowledged }
    ensures once { laws.InEachRun laws.OrdersEachOnce }
{}

/// What a replica shows is a beginning of the order.
pub fn beginnings_are_shown()
    ensures { laws.InEachRun laws.AllShowBeginnings }
{}

/// What is in the order was asked for by a commit, with all operations of the transaction and no others.
pub fn asked_are_ordered()
    ensures { laws.InEachRun laws.OrdersAsked }
{}

/// An active primary shows each acknowledged transaction, of its epoch and of those before it.
pub fn primaries_show_acknowledged()
    ensures { laws.InEachRun laws.PrimariesShowAcknowledged }
{}

/// At no replica does a transaction hold a lock beside one that another holds exclusively.
pub fn locks_exclude()
    ensures { laws.InEachRun laws.LocksExclude }
{}

/// Between events a primary that is alone has acknowledged all that was asked of it, and no replica shows a transaction
/// whose client still waits.
pub fn whole_runs_leave_nothing_open()
    ensures { laws.WholeRunsLeaveNothingOpen }
{}

/// A world of one replica commits a transaction: the laws of runs are about some.
pub fn one_commit_is_whole()
    ensures { laws.OneCommitIsWhole }
{}

/// Two runs more: in one a transaction is aborted that had locked another one out, and in the other the primary is surveyed,
/// appointed again and activated.
pub fn abort_and_appointment_are_whole()
    ensures { laws.AbortAndAppointmentAreWhole }
{}
