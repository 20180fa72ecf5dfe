// What follows from the definitions: bytes are read exactly where they are those of a report.

ghost use Rattle.std.specs.Prelude.{◌≡◌, ℕ, List, [], map, true, None};
ghost use Rattle.spec_core.specs.{Specification.{Specification}, Typed.{is_specification}};
ghost use Rattle.report_lines.specs.{Words.{parts}, Heads.{title_format, budget_format}};
ghost use Rattle.proof_report.specs.declared.event.Event.{Event};
ghost use Rattle.proof_report.specs.Verdicts.{ReportForm, is_report, is_witness};
ghost use Rattle.proof_report.specs.{Events.{report_lines}, Feeding.{IsFed}, Gathering.{report_of}};
ghost use Rattle.proof_report.specs.declared.verdict.Verdict.{Verdict};
ghost use Rattle.report_bytes.specs.Bytes.{report_bytes, lines_of, unended};
ghost use Rattle.report_bytes.specs.Showing.{AllStand, AllFit, CanBeShown, shown_by, report_on};
ghost use Rattle.report_bytes.specs.{Showing.{written_text}, Reading.{first_fault}};
ghost use Rattle.obligation_list.specs.declared.obligation.Obligation.{Obligation};
ghost use Rattle.obligation_list.specs.declared.witness.Witness.{Witness};

/// Bytes that end with a line feed, and whose lines are fed to the end without a fault, are those of the report that they say.
pub fn law_bytes_are_text()
    ensures { (d : Specification) (bytes : List ℕ) (es : List Event) → is_specification d ≡ true
        → unended bytes ≡ []
        → IsFed d (map parts (lines_of bytes)) es
        → (bytes ≡ report_bytes d (report_of es)) × (is_report d (report_of es) ≡ true) }
{}

/// The bytes of a report end with a line feed, and their lines are fed to the end without a fault.
pub fn law_text_bytes_are_fed()
    ensures { (d : Specification) (r : ReportForm) → is_specification d ≡ true
        → is_report d r ≡ true
        → (unended (report_bytes d r) ≡ [])
        × IsFed d (map parts (lines_of (report_bytes d r))) (report_lines d r) }
{}

/// Bytes are those of one report.
pub fn law_one_report_of_bytes()
    ensures { (d : Specification) (r q : ReportForm) → is_specification d ≡ true
        → is_report d r ≡ true → is_report d q ≡ true
        → report_bytes d r ≡ report_bytes d q → r ≡ q }
{}

/// What is written block by block is the bytes of a report.
pub fn law_written_is_report()
    ensures { (d : Specification) (version budget : ℕ) (vs : List Verdict) → AllStand d vs
        → written_text d version budget vs ≡ report_bytes d (report_on d version budget vs) }
{}

/// What is shown of a witness that fits its obligation can stand in a report.
pub fn law_witness_is_shown()
    ensures { (d : Specification) (ob : Obligation) (w : Witness) → CanBeShown d ob w
        → is_witness d ob (shown_by d w) w.elements ≡ true }
{}

/// The bytes of a report have no fault.
pub fn law_report_has_no_fault()
    ensures { (d : Specification) (r : ReportForm) → is_specification d ≡ true
        → is_report d r ≡ true → first_fault d (report_bytes d r) ≡ None }
{}

/// What is written of verdicts that fit, one for each obligation, is the bytes of a report that can stand, and has no fault.
pub fn law_written_is_read()
    ensures { (d : Specification) (version budget : ℕ) (vs : List Verdict)
        → is_specification d ≡ true → title_format.fits version ≡ true
        → budget_format.fits budget ≡ true → AllFit d version 0 vs
        → (is_report d (report_on d version budget vs) ≡ true)
        × (written_text d version budget vs ≡ report_bytes d (report_on d version budget vs))
        × (first_fault d (written_text d version budget vs) ≡ None) }
{}
