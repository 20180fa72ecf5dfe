// What follows from the definitions: reading line by line is no second format.

ghost use Rattle.std.specs.Prelude.{◌≡◌, ℕ, List, true};
ghost use Rattle.spec_core.specs.{Specification.{Specification}, Typed.{is_specification}};
ghost use Rattle.proof_report.specs.declared.event.Event.{Event};
ghost use Rattle.proof_report.specs.{Verdicts.{ReportForm, is_report}, Events.{report_lines, text}};
ghost use Rattle.proof_report.specs.{Feeding.{IsFed}, Gathering.{report_of}};

/// Lines that are fed to the end without a fault are the text of a report, namely of the one that they say.
pub fn law_fed_is_text()
    ensures { (d : Specification) (lines : List (List (List ℕ))) (es : List Event)
        → is_specification d ≡ true → IsFed d lines es
        → (lines ≡ text d (report_of es)) × (is_report d (report_of es) ≡ true) }
{}

/// The text of a report is fed to the end without a fault, and says that report.
pub fn law_text_is_fed()
    ensures fed { (d : Specification) (r : ReportForm) → is_specification d ≡ true
        → is_report d r ≡ true → IsFed d (text d r) (report_lines d r) }
    ensures said { (d : Specification) (r : ReportForm) → report_of (report_lines d r) ≡ r }
{}

/// A text is that of one report.
pub fn law_one_report()
    ensures { (d : Specification) (r q : ReportForm) → is_specification d ≡ true
        → is_report d r ≡ true → is_report d q ≡ true
        → text d r ≡ text d q → r ≡ q }
{}
