//! What the definitions of `specs/` say together. Each function has an empty body, and its contract is the law.
ghost use Rattle.std.specs.Prelude.{◌≡◌, ◌↔◌, ◌^◌, ◌<◌, List, None, length};
ghost use Rattle.faust_types.specs.declared.config.Config.{Config};
ghost use Rattle.faust_record.specs.Runs.{IsRun};
ghost use Rattle.faust_record.specs.declared.entry.Entry.{Entry};
ghost use Rattle.faust_receipts.specs.Lines.{first_differing_of};
ghost use Rattle.faust_receipts.specs.Receipts.{AreAllCompletions, AreAllPrintable};
ghost use Rattle.faust_node.specs.declared.receipt.Receipt.{Receipt};

/// No line says that a receipt differs exactly where each receipt, of a run's users, is the completion of the operation
/// that its user began at that place: its number and its answer are those of the entry that completed it.
pub fn no_receipt_differs_where_all_are_completions()
    ensures { (config : Config) (entries : List Entry) (receipts : List (List Receipt)) → IsRun config entries →
        length entries < 2 ^ 64 → length receipts ≡ config.clients → AreAllPrintable receipts →
        (first_differing_of entries 1 receipts ≡ None) ↔ AreAllCompletions entries 1 receipts }
{}
