//! Names in reports.

ghost use Rattle.plan_report.specs.Report.{NamesStand};

/// A name of ASCII letters, digits and underscores stands in a report as it is.
pub fn names_stand_as_they_are()
    ensures { NamesStand }
{}
