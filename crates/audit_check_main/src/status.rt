//! How a run of the audit ended.
use crate::verdict::{Cause, Verdict};

/// How a run ended: `Words`, `ReadState`, `ReadNext`, `ReadReport`, `LongReport` and `Read` in this order before all others, then a
/// verdict, or `Write` in its place.
#[derive(Clone, Copy)]
pub enum AuditStatus {
    /// Status 0: the report, and the state that is judged, are faithful, and `yes` is written.
    Yes,
    /// Status 12: one of them isn't, for this cause, which is written.
    No(Cause),
    /// Status 2: the words aren't a state, a report, and 1 to 16 inputs, behind `--next` and a state or alone.
    Words,
    /// Status 4: the state can't be read.
    ReadState,
    /// Status 14: the state that is judged can't be read.
    ReadNext,
    /// Status 13: the report can't be read.
    ReadReport,
    /// Status 8: the report has more than 1,073,741,824 bytes.
    LongReport,
    /// Status 5: this input, from 1, is the first that can't be read.
    Read(u32),
    /// Status 7: the verdict can't be written.
    Write,
    /// Status 10: there is no memory, in place of any but `Words`.
    Memory,
}

impl AuditStatus {
    ghost use Rattle.std.specs.Prelude.{◌≡◌};
    ghost use Rattle.audit_check_main.specs.Statuses.{code_of, status_of};

    /// The status of a verdict that is written.
    pub fn of(verdict: Verdict) -> AuditStatus
        ensures { result ≡ status_of verdict }
    {
        match verdict {
            Verdict::Yes => AuditStatus::Yes,
            Verdict::No(cause) => AuditStatus::No(cause),
        }
    }

    /// The exit status of the program.
    pub fn code(self) -> u8
        ensures { result ≡ code_of self }
    {
        match self {
            AuditStatus::Yes => 0,
            AuditStatus::Words => 2,
            AuditStatus::ReadState => 4,
            AuditStatus::Read(_) => 5,
            AuditStatus::Write => 7,
            AuditStatus::LongReport => 8,
            AuditStatus::Memory => 10,
            AuditStatus::No(_) => 12,
            AuditStatus::ReadReport => 13,
            AuditStatus::ReadNext => 14,
        }
    }
}
