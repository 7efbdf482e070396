// Laws of records, each on a function with an empty body.
ghost use Rattle.std.specs.Prelude.{◌≡◌, ◌≤◌, ◌↔◌, ℕ, List, length, Ok, Err};
ghost use Rattle.faust_types.specs.Bytes.{AreBytes};
ghost use Rattle.faust_record.specs.Runs.{IsRun, Run};
ghost use Rattle.faust_store.specs.Reading.{Refusal, read};
ghost use Rattle.faust_store.specs.Records.{IsRecord, IsRecordText};
ghost use Rattle.faust_store.specs.Refusals.{IsRefused};
ghost use Rattle.faust_store.specs.Texts.{IsTextVersion, record_text};

/// Bytes are read as the run whose record they are, of either version, and no other bytes are read.
pub fn records_are_their_texts()
    ensures { (input : List ℕ) (run : Run) → (read input ≡ Ok run) ↔ IsRecord run input }
{}

/// The line that is refused, and its cause in the order of the table.
pub fn refused_records()
    ensures { (input : List ℕ) (refusal : Refusal) → (read input ≡ Err refusal) ↔ IsRefused input refusal }
{}

/// What is printed of a run is its record, and is read as this run again, under each version that there is of it.
pub fn printed_records_are_read()
    ensures record_text { (run : Run) (version : ℕ) → IsRun run.config run.entries → AreBytes run.config.key → length run.entries ≤ 20000 →
        IsTextVersion version run.config.wire → IsRecordText version run (record_text run version) }
    ensures read { (run : Run) (version : ℕ) → IsRun run.config run.entries → AreBytes run.config.key → length run.entries ≤ 20000 →
        IsTextVersion version run.config.wire → read (record_text run version) ≡ Ok run }
{}

/// What is read is a run, with at most 20,000 entries and a key of bytes.
pub fn records_are_runs()
    ensures run { (input : List ℕ) (run : Run) → read input ≡ Ok run → IsRun run.config run.entries }
    ensures few { (input : List ℕ) (run : Run) → read input ≡ Ok run → length run.entries ≤ 20000 }
    ensures bytes { (input : List ℕ) (run : Run) → read input ≡ Ok run → AreBytes run.config.key }
{}
