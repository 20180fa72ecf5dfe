// Why a report isn't accepted.
use proof_report::ReportKind;
use thiserror::Error;

/// Why a report isn't accepted.
#[derive(Clone, Copy, Debug, Error)]
pub enum VerifyRefused {
    /// More than 64 MiB come.
    #[error("more bytes than a report has")]
    Long,
    /// The first line that breaks a rule, counted from 1, and which rule. What is wrong with the text as a whole comes before what is
    /// wrong with verdicts.
    #[error("a line breaks a rule")]
    Line { number: u32, kind: ReportKind },
    #[error("a read failed")]
    Fault,
    #[error("out of memory")]
    Memory,
}
