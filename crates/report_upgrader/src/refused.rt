// Why a report isn't upgraded.
use proof_report::ReportKind;
use thiserror::Error;

/// Why a report isn't upgraded. The first three come as where a report is verified, and nothing is written then.
#[derive(Clone, Copy, Debug, Error)]
pub enum UpgradeRefused {
    /// More than 64 MiB come.
    #[error("more bytes than a report has")]
    Long,
    /// The first line that breaks a rule, counted from 1, and which rule.
    #[error("a line breaks a rule")]
    Line { number: u32, kind: ReportKind },
    #[error("a read failed")]
    Fault,
    /// A front of the upgraded report was written.
    #[error("a write failed")]
    WriteFault,
    /// A front of the upgraded report was written, or nothing.
    #[error("out of memory")]
    Memory,
}
