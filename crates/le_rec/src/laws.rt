//! Laws of records, each the contract of a function that does nothing: a caller gets the law from a
//! call.

ghost use Rattle.le_rec.specs.Laws.{RecordsAreInRange, RecordsReadBack};
ghost use Rattle.le_rec.specs.Laws.{EqualRecordsHaveEqualBytes, RecordsAreJoined};

use crate::record::Record;

/// The record in some bytes has its fields in their ranges.
pub fn records_are_in_range<R: Record>()
    ensures { RecordsAreInRange R.SIZE R.layout }
{}

/// The bytes of a record are as many as its type says, and read as that record.
pub fn records_read_back<R: Record>()
    ensures { RecordsReadBack R.SIZE R.layout }
{}

/// Byte lists that read as the same record are the same.
pub fn equal_records_have_equal_bytes<R: Record>()
    ensures { EqualRecordsHaveEqualBytes R.SIZE R.layout }
{}

/// The bytes of a table's records, joined, are its bytes but those left over.
pub fn records_are_joined<R: Record>()
    ensures { RecordsAreJoined R.SIZE R.layout }
{}
