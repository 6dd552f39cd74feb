//! Readings are total. What is proved are the contracts.
ghost use Rattle.std.specs.Prelude.{◌≡◌, ◌≢◌, ◌⊎◌, ℕ, List, Result, Some};
ghost use Rattle.json_readers.specs.Json.{IsJson, IsNoJson};
ghost use Rattle.lockfile.specs.Faults.{IsLockFault};
ghost use Rattle.lockfile.specs.Locks.{IsLock};
ghost use Rattle.lockfile.specs.declared.fault.LockFault.{LockFault};
ghost use Rattle.lockfile.specs.declared.lock.Lock.{Lock};
ghost use Rattle.outside_desk.specs.Files.{Files};
ghost use Rattle.record_reader.specs.Faults.{IsTextFault};
ghost use Rattle.record_reader.specs.Files.{IsDatabase};
ghost use Rattle.reuse_db.specs.declared.fault.DbFault.{DbFault};
ghost use Rattle.reuse_db.specs.declared.record.Record.{Record};
ghost use Rattle.run_answers.specs.declared.refusal.Refusal.{Refusal};
ghost use Rattle.run_task.specs.Certificates.{log_verdict};
ghost use Rattle.run_task.specs.Tasks.{Poses};
ghost use Rattle.run_task.specs.declared.task.Task.{Task};
ghost use Rattle.run_words.specs.Words.{Command, command_of};
ghost use Rattle.serde_json.specs.Data.{Data};
ghost use Rattle.settings_reader.specs.Files.{IsFirstFault, IsOfFile};
ghost use Rattle.settings_reader.specs.declared.fault.SettingsFault.{SettingsFault};
ghost use Rattle.site_settings.specs.declared.settings.Settings.{Settings};

use spec_grammar::reading_is_total;

/// Any bytes are a file of settings, or no JSON text, or the JSON text of a value with a first
/// fault; by `settings_reader::settings_laws` they are one of these, and one alone.
pub fn settings_total()
    ensures total { (bytes : List ℕ) → ((settings : Settings) × IsOfFile bytes settings)
        ⊎ IsNoJson bytes
        ⊎ ((d : Data) × (fault : SettingsFault) × IsJson bytes d × IsFirstFault d fault) }
{
    reading_is_total();
}

/// Any bytes are a database, or have a fault other than want of memory; by
/// `record_reader::database_laws` they are one of the two, and one alone.
pub fn database_total()
    ensures total { (bytes : List ℕ) → ((records : List Record) × IsDatabase bytes records)
        ⊎ ((fault : DbFault) × IsTextFault bytes fault × (fault ≢ DbFault.OutOfMemory)) }
{}

/// Any bytes are a lock file, or have a fault other than want of memory; by `lockfile::lock_laws`
/// they are one of the two, and one alone.
pub fn lock_total()
    ensures total { (bytes : List ℕ) → ((lock : Lock) × IsLock bytes lock)
        ⊎ ((fault : LockFault) × IsLockFault bytes fault × (fault ≢ LockFault.OutOfMemory)) }
{}

/// Words that are a command pose a task over any files, or are due a refusal; by
/// `run_task::task_laws` they pose one of these, and one alone.
pub fn posed_total()
    ensures total { (files : Files) (words : List (List ℕ)) (command : Command)
        → command_of words ≡ Some command
        → (posed : Result Task Refusal) × Poses log_verdict files words posed }
{
    reading_is_total();
}
