//! Laws of a folder whose checkpoints are lists of run files, for every list of events, from a folder without a file on: whatever is asked
//! for, however each operation goes, and however often the machine crashed and the process ended before.
//!
//! Proof steps: none does anything when it runs. Their contracts speak of definitions alone.
ghost use Rattle.std.specs.Prelude.{◌≡◌, ℕ, true, false, List, [], ◌∷◌, None, Result, min, length};
ghost use Rattle.uc_folder.specs.Device.{Batch, Keep, crashed, crashed_entry, recovered};
ghost use Rattle.uc_folder.specs.Worlds as folder;
ghost use Rattle.uc_folder.specs.Worlds.{IsPrefixOf, IsReadable, Outcome, is_done, submitted, reread};
ghost use Rattle.uc_run_folder.specs.declared.listing.RunFault.{RunFault};
ghost use Rattle.uc_run_folder.specs.Listing.{AreFound, IsRunListing, IsNextOf};
ghost use Rattle.uc_run_folder.specs.declared.phases.Phase.TheVariants.{NamingRuns};
ghost use Rattle.uc_run_folder.specs.declared.run_action.RunAction.TheVariants.{WriteRun, RemoveRun};
ghost use Rattle.uc_run_folder.specs.Steps.{next_checkpoint, told_checkpoint, may_write, asking, next_removal, has_run, removes};
ghost use Rattle.uc_run_folder.specs.Files.{AreRead, crashed_files};
ghost use Rattle.uc_run_folder.specs.RunWorlds.{
  RunWorld,
  RunEvent,
  AskList,
  Checkpointing,
  happens,
  run,
  start,
  machine_of,
  list_read,
  all_seen,
  two_checkpoints,
};

/// An opening finds each run that its list names, whole and as it was written: after a crash at any moment, after the end of the process
/// alone, and where only what is durable of the log can be read.
pub fn an_opening_finds_the_runs_of_its_list()
    ensures crashed { (events : List RunEvent) (logs bases runs : ℕ → Keep) →
        AreRead (run events start).rows (crashed_files bases runs (run events start).files).runs
        (list_read (crashed logs bases (run events start).folder.device) (crashed_files bases runs (run events start).files)) }
    ensures ended { (events : List RunEvent) →
        AreRead (run events start).rows (run events start).files.runs
        (list_read (run events start).folder.device (run events start).files) }
    ensures reread { (events : List RunEvent) (left : Keep) →
        AreRead (run events start).rows (run events start).files.runs
        (list_read (reread left (run events start).folder) (run events start).files) }
{
    uc_folder::laws::a_crash_loses_nothing_acknowledged();
    uc_folder::laws::a_process_that_ends_loses_nothing_answered();
    uc_folder::laws::a_log_read_from_the_device_loses_nothing_acknowledged();
}

/// A run that may be removed is none that the list names which an opening reads, whatever a crash leaves.
pub fn no_run_goes_that_a_list_names()
    ensures crashed { (events : List RunEvent) (r : ℕ) (logs bases runs : ℕ → Keep) →
        next_removal (machine_of (run events start)) r (run events start).named ≡ RemoveRun r →
        has_run r (list_read (crashed logs bases (run events start).folder.device)
        (crashed_files bases runs (run events start).files)) ≡ false }
    ensures ended { (events : List RunEvent) (r : ℕ) →
        next_removal (machine_of (run events start)) r (run events start).named ≡ RemoveRun r →
        has_run r (list_read (run events start).folder.device (run events start).files) ≡ false }
{
    uc_folder::laws::a_crash_loses_nothing_acknowledged();
    uc_folder::laws::a_process_that_ends_loses_nothing_answered();
    uc_folder::laws::a_log_read_from_the_device_loses_nothing_acknowledged();
}

/// A run is written to a number that no file has, nor may have after a crash; and no list that an opening may read names it.
pub fn no_number_is_used_again()
    ensures now { (events : List RunEvent) (r : ℕ) →
        next_checkpoint (run events start).phase (run events start).folder.machine.checkpointer ≡ WriteRun r →
        ((run events start).files.runs r).now ≡ None }
    ensures crashed { (events : List RunEvent) (r : ℕ) (keep : Keep) →
        next_checkpoint (run events start).phase (run events start).folder.machine.checkpointer ≡ WriteRun r →
        (crashed_entry keep ((run events start).files.runs r)).now ≡ None }
    ensures unnamed { (events : List RunEvent) (r : ℕ) (logs bases runs : ℕ → Keep) →
        next_checkpoint (run events start).phase (run events start).folder.machine.checkpointer ≡ WriteRun r →
        has_run r (list_read (crashed logs bases (run events start).folder.device)
        (crashed_files bases runs (run events start).files)) ≡ false }
{
    uc_folder::laws::a_crash_loses_nothing_acknowledged();
    uc_folder::laws::a_process_that_ends_loses_nothing_answered();
    uc_folder::laws::a_log_read_from_the_device_loses_nothing_acknowledged();
}

/// Until a new list is read back, the runs of the one before it are there, also after a crash, and nothing is removed.
pub fn an_older_list_stays_until_the_newer_is_read()
    ensures crashed { (events : List RunEvent) (bases runs : ℕ → Keep) →
        AreRead (run events start).rows (crashed_files bases runs (run events start).files).runs (run events start).older }
    ensures now { (events : List RunEvent) → AreRead (run events start).rows (run events start).files.runs (run events start).older }
    ensures checkpointer { (events : List RunEvent) → (run events start).is_read ≡ false →
        removes (next_checkpoint (run events start).phase (run events start).folder.machine.checkpointer) ≡ false }
    ensures runs { (events : List RunEvent) (r : ℕ) → (run events start).is_read ≡ false →
        removes (next_removal (machine_of (run events start)) r (run events start).named) ≡ false }
{
    uc_folder::laws::a_crash_loses_nothing_acknowledged();
    uc_folder::laws::a_process_that_ends_loses_nothing_answered();
    uc_folder::laws::a_log_read_from_the_device_loses_nothing_acknowledged();
}

/// An opening that goes by the names which the folder lists misses no run, after a crash and after the end of a process. The next number
/// is the one that the other laws speak of. It is rejected only where a run has the greatest number.
pub fn an_opening_misses_no_run()
    ensures crashed { (events : List RunEvent) (logs bases runs : ℕ → Keep) (listed : List ℕ) →
        IsRunListing (crashed_files bases runs (run events start).files) listed → (result : Result ℕ RunFault) →
        AreFound (list_read (crashed logs bases (run events start).folder.device)
        (crashed_files bases runs (run events start).files)) listed result →
        IsNextOf (crashed_files bases runs (run events start).files) result }
    ensures ended { (events : List RunEvent) (listed : List ℕ) →
        IsRunListing (run events start).files listed → (result : Result ℕ RunFault) →
        AreFound (list_read (run events start).folder.device (run events start).files) listed result →
        IsNextOf (run events start).files result }
{
    uc_folder::laws::a_crash_loses_nothing_acknowledged();
    uc_folder::laws::a_process_that_ends_loses_nothing_answered();
    uc_folder::laws::a_log_read_from_the_device_loses_nothing_acknowledged();
}

/// The folder's machine sees a list of its own events, so each law of `uc_folder` holds here. The first ones are repeated: a crash leaves
/// a folder that can be opened, and what is read are the first of the batches that were submitted, with all that were acknowledged.
pub fn the_folder_keeps_its_laws()
    ensures sees { (w : RunWorld) (events : List RunEvent) → (run events w).folder ≡ folder.run (all_seen events w) w.folder }
    ensures readable { (events : List RunEvent) (logs bases : ℕ → Keep) →
        IsReadable (crashed logs bases (run events start).folder.device) }
    ensures prefix { (events : List RunEvent) (logs bases : ℕ → Keep) →
        IsPrefixOf (recovered (crashed logs bases (run events start).folder.device)) (submitted (run events start).folder) }
    ensures acknowledged { (events : List RunEvent) (logs bases : ℕ → Keep) →
        IsPrefixOf (run events start).folder.acked (recovered (crashed logs bases (run events start).folder.device)) }
{
    uc_folder::laws::a_crash_loses_nothing_acknowledged();
}

/// The machine goes where its methods take it, if no checkpoint is asked for of more batches than a log has.
pub fn the_machine_is_told()
    ensures told { (w : RunWorld) (o : Outcome) (rows : List Batch) →
        ((n past : ℕ) → w.phase ≡ NamingRuns n past → min past (length (w.folder.parts n)) ≡ past) →
        machine_of (happens w (Checkpointing o rows)) ≡ told_checkpoint (machine_of w) (is_done o) }
    ensures asked { (w : RunWorld) (n past count : ℕ) (kept : List ℕ) →
        machine_of (happens w (AskList n past kept count))
        ≡ asking (machine_of w) (may_write (machine_of w) n past kept w.named count) n past count }
{}

/// The machine does what it is for: of two lists the second one keeps a run of the first, the other run of the first is gone, and all
/// batches are read.
pub fn runs_are_kept_and_removed()
    ensures read { (a b : Batch) →
        list_read (run (two_checkpoints a b) start).folder.device (run (two_checkpoints a b) start).files ≡ 2 ∷ 3 ∷ [] }
    ensures gone { (a b : Batch) → ((run (two_checkpoints a b) start).files.runs 1).now ≡ None }
    ensures recovered { (a b : Batch) → recovered (run (two_checkpoints a b) start).folder.device ≡ a ∷ b ∷ [] }
{}
