//! What holds of the counts of all databases. The body is empty: what is proved is the contract.
ghost use Rattle.file_limits.specs.DatabaseSizes.{DatabasesHoldRecords, DatabasesAreFew};

/// The records of a database, their dependencies and their variant values are together no more than
/// its bytes; so those of a file of at most 2^26 bytes are within the limits of a problem.
pub fn database_count_laws()
    ensures bear { DatabasesHoldRecords }
    ensures within { DatabasesAreFew }
{}
