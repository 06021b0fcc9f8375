use thiserror::Error;

/// What is wrong first with a table that is read. Rows are numbered from 1, the header being row 1,
/// as csv gives records: it skips empty lines. Targets are numbered from 0.
#[derive(Clone, Copy, Debug, PartialEq, Eq, Error)]
pub enum CsvFault {
    /// The row isn't a record of three fields, or row 1 isn't the header or isn't there.
    #[error("row {0} is no row of such a table")]
    NotCsv(u32),
    /// The row's number isn't decimal digits without a leading zero, or is out of its range.
    #[error("the number of row {0} is wrong")]
    BadNumber(u32),
    /// The row's contest and target name no target of the style.
    #[error("row {0} names no target of the style")]
    UnknownTarget(u32),
    /// The row says again what an earlier one said.
    #[error("row {0} repeats an earlier one")]
    Repeated(u32),
    /// The first target of which a report has no row.
    #[error("target {0} has no row")]
    Missing(u16),
}

/// Why a table was not read.
#[derive(Clone, Copy, Debug, PartialEq, Eq, Error)]
pub enum CsvFail {
    #[error("{0}")]
    Fault(CsvFault),
    #[error("out of memory")]
    Memory,
}
