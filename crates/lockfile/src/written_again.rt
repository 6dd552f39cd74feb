//! What is written is read again.
ghost use Rattle.std.specs.Prelude.{◌≡◌, true, All, Ok, List, ℕ};
ghost use Rattle.keyed_lists.specs.Keyed.{IsInOrder};
ghost use Rattle.variant_values.specs.Texts.{byte_cmp};
ghost use Rattle.serde_json.specs.Data.{array, object};
ghost use Rattle.json_readers.specs.Maps.{map_of};
ghost use Rattle.json_readers.specs.Sets.{set_of};
ghost use Rattle.std.specs.Prelude.{Contains, Some, codes, map};
ghost use Rattle.json_texts.specs.Forms.{name_meaning};
ghost use Rattle.spec_grammar.specs.declared.part.Spec.{Spec};
ghost use Rattle.graph_core.specs.Graphs.{Text, Content, IsGraph, node_of, provider_of};
ghost use Rattle.graph_core.specs.declared.node.Node.{Node};
ghost use Rattle.record_reader.specs.Records.{dependency_at, variant_values_at};
ghost use Rattle.reuse_db.specs.Canonical.{dependency_data, dependency_members, texts_data};
ghost use Rattle.reuse_db.specs.Canonical.{values_of, variant_members};
ghost use Rattle.graph_core.specs.declared.node.Origin.{Origin};
ghost use Rattle.reuse_db.specs.Canonical.{right_hash};
ghost use Rattle.reuse_db.specs.declared.record.Dependency.{Dependency};
ghost use Rattle.reuse_db.specs.declared.record.Record.{Record};
ghost use Rattle.reuse_db.specs.Databases.{AreRecords};
ghost use Rattle.lock_writer.specs.Texts.{CanBeWritten, lock_data, node_data};
ghost use Rattle.lockfile.specs.Files.{file_at, node_at};
ghost use Rattle.json_readers.specs.Json.{IsJson};
ghost use Rattle.lockfile.specs.Formed.{IsFormed, locked, locked_file, locked_root};
ghost use Rattle.lockfile.specs.Locks.{IsLock, IsLockOf, graph_node};
ghost use Rattle.lockfile.specs.declared.lock.Lock.{Lock};
ghost use Rattle.lockfile.specs.Again.{IsDependency, IsOwn, IsRecord, IsVariant, sorted};
ghost use Rattle.lockfile.specs.Writable.{IsWritable, lock_of};

/// What is written of variants and dependencies in their order is read as they.
pub fn written_laws()
    ensures variants { (variants : List (Text × List Text)) → All IsVariant variants
        → IsInOrder byte_cmp (λ v. v.0) variants
        → map_of name_meaning variant_values_at (object (variant_members variants)) ≡ Ok variants }
    ensures dependencies { (dependencies : List Dependency) → All IsDependency dependencies
        → IsInOrder byte_cmp (λ d. d.hash) dependencies
        → set_of Some (Some (codes "hash")) (dependency_at true)
        (array (values_of (dependency_members dependencies))) ≡ Ok dependencies }
{}

/// A node is read as it was written, with its dependencies in byte order of their hashes, and these
/// have no part in its hash.
pub fn node_laws()
    ensures read { (entry : Record) (origin : Origin) → IsRecord entry → IsOwn origin entry.hash
        → node_at true (node_data entry origin)
        ≡ Ok (record { described = sorted entry; origin = origin }) }
    ensures hash { (entry : Record) → right_hash (sorted entry) ≡ right_hash entry }
{}

/// The value that is written for a graph whose texts have their forms is read as its nodes,
/// providers and roots, and so is each text of that value, as `write_lock` gives one.
pub fn file_laws()
    ensures value { (g : Content) (records : List Record) (roots : List Spec) → IsGraph g
        → IsFormed g records roots
        → file_at (lock_data g records roots) ≡ Ok (locked_file g records roots) }
    ensures text { (g : Content) (records : List Record) (roots : List Spec) → IsGraph g
        → IsFormed g records roots
        → (text : List ℕ) → IsJson text (lock_data g records roots) → (lock : Lock)
        → IsLock text lock
        → IsLockOf (locked_file g records roots) lock }
{}

/// What is read of that file has the nodes, where each node is as its record says, and the
/// providers and roots of the graph.
pub fn graph_laws()
    ensures nodes { (g : Content) (records : List Record) (roots : List Spec) (lock : Lock)
        → IsLockOf (locked_file g records roots) lock
        → ((node : Node) → Contains g.nodes node → graph_node (locked g records node) ≡ node)
        → (name : Text) → node_of lock.graph name ≡ node_of g name }
    ensures providers { (g : Content) (records : List Record) (roots : List Spec) (lock : Lock)
        → IsLockOf (locked_file g records roots) lock
        → (name : Text) → provider_of lock.graph name ≡ provider_of g name }
    ensures roots { (g : Content) (records : List Record) (roots : List Spec) (lock : Lock)
        → IsLockOf (locked_file g records roots) lock
        → lock.roots ≡ map (locked_root g) roots }
{}

/// Where a writable graph can be written, each text of its value, as `write_lock` gives one, is the
/// lock file of that graph with its roots. So it has no fault, and is read as no other
/// (`crate::lock_laws`).
pub fn again_laws()
    ensures { (g : Content) (records : List Record) (roots : List Spec) → IsGraph g
        → AreRecords records
        → CanBeWritten g records roots → IsWritable g records
        → (text : List ℕ) → IsJson text (lock_data g records roots)
        → IsLock text (lock_of g roots) }
{}
