//! Replay as a property of histories: what a log commits can be replayed at its place in the order, whoever is the primary
//! when it gets there. Each law is the contract of a function that does nothing; `docs/MODEL.md` says why it has to be so.
#![tactic(auto)]

ghost use Rattle.history_laws.specs.EarlyRelease.{EarlyReleaseIsRefused};
ghost use Rattle.history_laws.specs.Laws.{AcknowledgementsKeepGuards, AcknowledgementsKeepOthers, ActiveKeepsGuards, BeginningsAreTexts, CallsKeepGuards, CallsKeepIdle, CallsKeepNumbering, CallsKeepRequests, CallsKeepTexts, ChangesKeepNumbering, CommitsLengthenTexts, EmptyIsNumbered, EndedRolesAreIdle, EventsKeepNumbering, EventsKeepTexts, IdleIsGuarded, LinesKeepNumbering, NextMayBeOrdered, NothingIsRequestedBefore, OrdersKeepGuards, RequestsAreContained, RequestsArePending, RequestsKeepOthers, RequestsKeepTexts, RoleEndsKeepOthers, RoleEndsKeepRequests, RoleEndsKeepTexts, RunsKeepNumbering, RunsKeepTexts, ShownIsOrdered, ViewsKeepGuards, ViewsKeepOthers};

/// A beginning of a text is a text.
pub fn beginnings_are_texts()
    ensures { BeginningsAreTexts }
{}

/// An answered call leaves each text one, at whatever replica, whatever is noted of transactions that have ended.
pub fn calls_keep_texts()
    ensures { CallsKeepTexts }
{}

/// The request of a commit leaves each text one.
pub fn requests_keep_texts()
    ensures { RequestsKeepTexts }
{}

/// The end of a role leaves each text one.
pub fn role_ends_keep_texts()
    ensures { RoleEndsKeepTexts }
{}

/// So do the lines of each event, all of them or the first few: calls, boots, surveys, appointments, stops and faults.
pub fn events_keep_texts()
    ensures { EventsKeepTexts }
{}

/// What a replica shows and what is pending there are a text with the next commit that is requested there: it replays
/// after all of them, and does so for good.
pub fn commits_lengthen_texts()
    ensures { CommitsLengthenTexts }
{}

/// The next commit of a text may be the next of the order, at any primary: its transaction's role, grants and locks may be
/// long gone.
pub fn next_may_be_ordered()
    ensures { NextMayBeOrdered }
{}

/// A replica at which nothing goes on is guarded: so the guard of an active primary begins.
pub fn idle_is_guarded()
    ensures { IdleIsGuarded }
{}

/// The entries of a state that is shown are in order.
pub fn shown_is_ordered()
    ensures { ShownIsOrdered }
{}

/// Nothing goes on at a replica once its role has ended.
pub fn ended_roles_are_idle()
    ensures { EndedRolesAreIdle }
{}

/// Nothing goes on at a replica until it is an active primary.
pub fn calls_keep_idle()
    ensures { CallsKeepIdle }
{}

/// An answered call keeps the guard at its replica and at every other one: a begin, a call on a collection, an abort, and
/// one that is refused, also where its transaction is live at another replica.
pub fn calls_keep_guards()
    ensures { CallsKeepGuards }
{}

/// A commit that is requested is pending under the locks of its transaction.
pub fn requests_are_pending()
    ensures { RequestsArePending }
{}

/// The request of a commit keeps the guard at every other replica.
pub fn requests_keep_others()
    ensures { RequestsKeepOthers }
{}

/// What is shown is no longer pending, and all locks stay.
pub fn views_keep_guards()
    ensures { ViewsKeepGuards }
{}

/// What one replica shows keeps the guard at every other one.
pub fn views_keep_others()
    ensures { ViewsKeepOthers }
{}

/// The locks of what is shown may be let go.
pub fn acknowledgements_keep_guards()
    ensures { AcknowledgementsKeepGuards }
{}

/// An acknowledgement keeps the guard at every other replica.
pub fn acknowledgements_keep_others()
    ensures { AcknowledgementsKeepOthers }
{}

/// The end of a role keeps the guard at every other replica.
pub fn role_ends_keep_others()
    ensures { RoleEndsKeepOthers }
{}

/// Between events each requested commit is logged: an answered call requests none.
pub fn calls_keep_requests()
    ensures { CallsKeepRequests }
{}

/// A requested commit is one more of its replica and epoch, and of no other replica.
pub fn requests_are_contained()
    ensures { RequestsAreContained }
{}

/// The end of a role requests none.
pub fn role_ends_keep_requests()
    ensures { RoleEndsKeepRequests }
{}

/// None is requested in an epoch before its appointment.
pub fn nothing_is_requested_before()
    ensures { NothingIsRequestedBefore }
{}

/// With locks that are let go as their commit is logged, the guard doesn't hold: a reader is told what a replay contradicts,
/// and what is logged is no text.
pub fn early_release_is_refused()
    ensures { EarlyReleaseIsRefused }
{}

/// The names of transactions count from the start of a world.
pub fn empty_is_numbered()
    ensures { EmptyIsNumbered }
{}

/// They count on over answered calls: a begin gives a new one, which is in no text.
pub fn calls_keep_numbering()
    ensures { CallsKeepNumbering }
{}

/// They count on over requests, views, acknowledgements and ends of roles.
pub fn changes_keep_numbering()
    ensures { ChangesKeepNumbering }
{}

/// They count on over the lines of each event, all of them or the first few, and over each event: a boot and an appointment
/// add an epoch that is new, and a role that has begun nothing.
pub fn events_keep_numbering()
    ensures lines { LinesKeepNumbering }
    ensures event { EventsKeepNumbering }
{}

/// So they count on behind each run.
pub fn runs_keep_numbering()
    ensures { RunsKeepNumbering }
{}

/// In each run a text at some point of it is one at each later point.
pub fn runs_keep_texts()
    ensures { RunsKeepTexts }
{}

/// The order grows beyond what is shown, and every guard stays.
pub fn orders_keep_guards()
    ensures { OrdersKeepGuards }
{}

/// A primary becomes active, and every guard stays.
pub fn active_keeps_guards()
    ensures { ActiveKeepsGuards }
{}
