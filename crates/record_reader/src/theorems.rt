//! What holds of all databases.
ghost use Rattle.std.specs.Prelude.{◌≡◌, ◌≢◌, ℕ, List};
ghost use Rattle.record_reader.specs.Faults.{IsTextFault};
ghost use Rattle.record_reader.specs.Files.{IsDatabase};
ghost use Rattle.reuse_db.specs.declared.fault.DbFault.{DbFault};
ghost use Rattle.reuse_db.specs.declared.fault.DbFault.TheVariants.{OutOfMemory};
ghost use Rattle.reuse_db.specs.declared.record.Record.{Record};

/// Bytes are one database at most, or have one fault at most besides want of memory; a database is
/// refused for want of memory alone.
pub fn database_laws()
    ensures one_reading { (bytes : List ℕ) (a b : List Record) → IsDatabase bytes a
        → IsDatabase bytes b → a ≡ b }
    ensures one_fault { (bytes : List ℕ) (f g : DbFault) → IsTextFault bytes f
        → IsTextFault bytes g
        → f ≢ OutOfMemory → g ≢ OutOfMemory → f ≡ g }
    ensures right { (bytes : List ℕ) (records : List Record) (f : DbFault)
        → IsDatabase bytes records
        → IsTextFault bytes f → f ≡ OutOfMemory }
{}
