//! Laws of reports: a function's contract is a law.
ghost use Rattle.audit_check_main.specs.FormLaw.{ReportsAreInForm};

/// Each line of a report that belongs to a list stands in its own, and names a receiver and a line.
#[tactic(auto, using(crate::proofs::InForm::report_in_form))]
pub fn reports_are_in_form()
    ensures { ReportsAreInForm }
{}
