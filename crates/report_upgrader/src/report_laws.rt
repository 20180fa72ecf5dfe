// What an upgraded report keeps of a report.

ghost use Rattle.std.specs.{Prelude.{◌≡◌, true}, List.{fold, list_all}};
ghost use Rattle.spec_core.specs.Specification.{Specification};
ghost use Rattle.proof_report.specs.Verdicts.{ReportForm, is_report};
ghost use Rattle.proof_report.specs.Events.{no_verdicts, with_verdict};
ghost use Rattle.report_upgrader.specs.Reports.{upgraded_report, has_room};

/// A report that can be written and read can be so upgraded, where a report can show the numbers of its lines.
pub fn law_upgraded_report_is_a_report()
    ensures { (d : Specification) (r : ReportForm) → is_report d r ≡ true
        → list_all has_room r.verdicts ≡ true → is_report d (upgraded_report r) ≡ true }
{}

/// An upgraded report has as many verdicts of each kind.
pub fn law_upgraded_report_has_the_same_summary()
    ensures { (r : ReportForm) → fold (λ t v. with_verdict v t) no_verdicts
        (upgraded_report r).verdicts ≡ fold (λ t v. with_verdict v t) no_verdicts r.verdicts }
{}

/// An upgraded report is upgraded already.
pub fn law_report_upgraded_twice()
    ensures { (r : ReportForm) → upgraded_report (upgraded_report r) ≡ upgraded_report r }
{}
