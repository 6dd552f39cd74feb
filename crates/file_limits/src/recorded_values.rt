//! What holds of the records of all databases.
ghost use Rattle.std.specs.Prelude.{◌≡◌, ℕ, List, true};
ghost use Rattle.std.specs.List.{list_all};
ghost use Rattle.record_reader.specs.Files.{IsDatabase};
ghost use Rattle.file_limits.specs.Values.{has_values};
ghost use Rattle.reuse_db.specs.declared.record.Record.{Record};

/// The records of a database have their variants in byte order of their names, each with a value.
pub fn value_laws()
    ensures { (bytes : List ℕ) (records : List Record) → IsDatabase bytes records
        → list_all has_values records ≡ true }
{}
