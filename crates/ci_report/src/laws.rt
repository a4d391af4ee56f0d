//! What holds of all reports. The function does nothing; its contract is the law.
ghost use Rattle.ci_report.specs.Laws.{ReportIsOne};

/// A book over a profile has one report.
pub fn report_is_determined()
    ensures { ReportIsOne }
{}
