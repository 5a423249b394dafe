//! The collector and the audit agree. The functions do nothing: their contracts are laws.
#![tactic(auto)]

ghost use Rattle.audit_laws.specs.Laws.{AuditedSessionsAreOne, AuditedSessionsGoOn, ReportsAreAnsweredYes};

/// Every report that `hear`, `collect` or `continue` writes with status 0 is answered `yes` by the audit of what that run was given, also
/// with the state that `continue` left, unless a file can't be read, the verdict can't be written, the report is over the audit's limit, or
/// there is no memory. It is never answered `no`.
pub fn reports_are_answered_yes()
    ensures { ReportsAreAnsweredYes }
{}

/// A session that is answered `yes`, and began from what a session of all lines so far left, makes one session with it, wherever each
/// receiver's lines were cut, and leaves what this one session leaves. So it is of a chain of sessions.
pub fn audited_sessions_go_on()
    ensures { AuditedSessionsGoOn }
{}

/// Two sessions that are answered `yes`, the first one with the state from which the second one began, are one session of all lines,
/// wherever each receiver's lines were cut.
pub fn audited_sessions_are_one()
    ensures { AuditedSessionsAreOne }
{}
