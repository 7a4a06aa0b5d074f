//! Laws of a directory, for every list of events that begins with an empty directory: for all requests, all results of operations, and
//! any number of earlier crashes and ends of the process.
//!
//! Proof steps: they do nothing when they run. Their contracts contain only definitions.
ghost use Rattle.std.specs.Prelude.{◌≡◌, ◌==◌, ◌≤◌, ℕ, Bool, true, false, List, [], ◌∷◌, ◌++◌, Option, Some, None, Result, Ok, take, length};
ghost use Rattle.uc_folder.specs.declared.listing.Base.{Base};
ghost use Rattle.uc_folder.specs.declared.listing.Listed.{Listed};
ghost use Rattle.uc_folder.specs.declared.listing.Found.{Found};
ghost use Rattle.uc_folder.specs.declared.listing.Missing.{Missing};
ghost use Rattle.uc_folder.specs.Listing.{IsListing, IsFoundIn, found_of, is_listed};
ghost use Rattle.std.specs.List.{list_any};
ghost use Rattle.uc_folder.specs.declared.phases.Writer.TheVariants.{Ready, Appending};
ghost use Rattle.uc_folder.specs.Device.{Batch, Record, first_whole, read_by_sequence, Keep, crashed, recovered, content, upto, is_there, is_cut, last_log};
ghost use Rattle.uc_folder.specs.Steps.{is_open};
ghost use Rattle.uc_folder.specs.Worlds.{
  Event,
  AskSync,
  Syncs,
  Done,
  Crash,
  Restart,
  Reread,
  reread,
  happens,
  run,
  start,
  submitted,
  answered,
  first_of,
  found,
  are_beside,
  all_keep,
  IsPrefixOf,
  IsReadable,
  base_within_a_log,
  batch_given_up,
  writes,
  IsDone,
  Outcome,
};

/// After a crash at any moment the directory can be opened, whichever unsynced data the crash keeps. The opening reads the first of the
/// submitted batches, whole and without a gap, and at least those acknowledged as synced. These stay acknowledged unless an opening gives
/// batches up. After the opening, the batches that it read are the submitted ones.
pub fn a_crash_loses_nothing_acknowledged()
    ensures readable { (events : List Event) (logs bases : ℕ → Keep) → IsReadable (crashed logs bases (run events start).device) }
    ensures prefix { (events : List Event) (logs bases : ℕ → Keep) →
        IsPrefixOf (recovered (crashed logs bases (run events start).device)) (submitted (run events start)) }
    ensures acknowledged { (events : List Event) (logs bases : ℕ → Keep) →
        IsPrefixOf (run events start).acked (recovered (crashed logs bases (run events start).device)) }
    ensures goes_on { (events : List Event) (logs bases : ℕ → Keep) (least top : ℕ) (sealed : Bool) (keep : Option ℕ) →
        submitted (happens (run events start) (Crash logs bases least top sealed keep))
        ≡ recovered (crashed logs bases (run events start).device) }
    ensures stays { (events later : List Event) → all_keep later ≡ true →
        IsPrefixOf (run events start).acked (run (events ++ later) start).acked }
{}

/// A record has its position in the log as its sequence number. So even a reader that skips torn records doesn't
/// take a batch after a torn one for the next batch.
pub fn no_later_batch_is_read_as_the_next()
    ensures { (place : ℕ) (records : List Record) → read_by_sequence place place records ≡ first_whole records }
{}

/// If only the process ends, an opening reads all batches whose appends were acknowledged, synced or not, even after a failed sync. The
/// machine continues with the batches that were read, and these are then the submitted ones. The exception is a failed batch that couldn't
/// be cut off with certainty. It can come back if the machine crashes before the opening has renewed the log, but not afterwards
/// ([`batches_that_are_given_up_are_gone`]).
pub fn a_process_that_ends_loses_nothing_answered()
    ensures readable { (events : List Event) → IsReadable (run events start).device }
    ensures prefix { (events : List Event) → IsPrefixOf (recovered (run events start).device) (submitted (run events start)) }
    ensures answered { (events : List Event) → IsPrefixOf (answered (run events start)) (recovered (run events start).device) }
    ensures acknowledged { (events : List Event) → IsPrefixOf (run events start).acked (recovered (run events start).device) }
    ensures goes_on { (events : List Event) (least top : ℕ) (sealed : Bool) →
        answered (happens (run events start) (Restart least top sealed None)) ≡ recovered (run events start).device }
    ensures submitted { (events : List Event) (least top : ℕ) (sealed : Bool) (keep : Option ℕ) →
        is_cut ((run events start).device.logs (last_log (run events start).device)).now ≡ false →
        submitted (happens (run events start) (Restart least top sealed keep)) ≡ recovered (run events start).device }
{}

/// The opening reads all batches acknowledged as synced even if only the durable part of the current log can be read. A system may drop the
/// other part after a failed sync.
pub fn a_log_read_from_the_device_loses_nothing_acknowledged()
    ensures readable { (events : List Event) (keep : Keep) → IsReadable (reread keep (run events start)) }
    ensures prefix { (events : List Event) (keep : Keep) →
        IsPrefixOf (recovered (reread keep (run events start))) (submitted (run events start)) }
    ensures acknowledged { (events : List Event) (keep : Keep) →
        IsPrefixOf (run events start).acked (recovered (reread keep (run events start))) }
    ensures goes_on { (events : List Event) (left : Keep) (least top : ℕ) (sealed : Bool) (keep : Option ℕ) →
        submitted (happens (run events start) (Reread left least top sealed keep)) ≡ recovered (reread left (run events start)) }
{}

/// An opening by the listed names doesn't fail, and finds the files that the other laws mention, after a crash and after the end of a
/// process.
pub fn an_opening_finds_its_files()
    ensures crashed { (events : List Event) (logs bases : ℕ → Keep) (base_list : List Base) (log_list : List Listed) →
        IsListing (crashed logs bases (run events start).device) base_list log_list →
        (result : Result Found Missing) → IsFoundIn base_list log_list result →
        (f : Found) × (result ≡ Ok f) × (f ≡ found (crashed logs bases (run events start).device) f.least f.top) }
    ensures ended { (events : List Event) (base_list : List Base) (log_list : List Listed) →
        IsListing (run events start).device base_list log_list →
        (result : Result Found Missing) → IsFoundIn base_list log_list result →
        (f : Found) × (result ≡ Ok f) × (f ≡ found (run events start).device f.least f.top) }
    ensures reread { (events : List Event) (keep : Keep) (base_list : List Base) (log_list : List Listed) →
        IsListing (reread keep (run events start)) base_list log_list →
        (result : Result Found Missing) → IsFoundIn base_list log_list result →
        (f : Found) × (result ≡ Ok f) × (f ≡ found (reread keep (run events start)) f.least f.top) }
{}

/// An opening removes the logs and bases from the least listed number to below the newest base's, and the logs after the current one, up
/// to the greatest listed number. No listed file is outside these bounds.
pub fn removals_reach_all_listed_files()
    ensures least_log { (bases : List Base) (logs : List Listed) (k : ℕ) →
        is_listed k logs ≡ true → (found_of bases logs).least ≤ k }
    ensures least_base { (bases : List Base) (logs : List Listed) (k : ℕ) →
        list_any (λ (b : Base). b.number == k) bases ≡ true → (found_of bases logs).least ≤ k }
    ensures top { (bases : List Base) (logs : List Listed) (k : ℕ) → is_listed k logs ≡ true → k ≤ (found_of bases logs).top }
{}

/// Under `Always` a write is acknowledged when the machine counts it as synced. No later crash loses such a write.
pub fn always_loses_nothing()
    ensures said { (events : List Event) → IsPrefixOf (first_of (run events start).parts (run events start).machine.log
        (run events start).machine.synced) (run events start).acked }
    ensures kept { (events later : List Event) (logs bases : ℕ → Keep) → all_keep later ≡ true →
        IsPrefixOf (first_of (run events start).parts (run events start).machine.log (run events start).machine.synced)
        (recovered (crashed logs bases (run (events ++ later) start).device)) }
{}

/// Under `EveryMs` a write is acknowledged when it is appended, and a sync is requested at intervals. After a sync has succeeded, no later
/// crash loses a write that was acknowledged before the sync was requested.
pub fn every_ms_loses_only_what_came_after_a_sync()
    ensures ready { (events beside later : List Event) (logs bases : ℕ → Keep) →
        (run events start).machine.writer ≡ Ready → are_beside beside ≡ true → all_keep later ≡ true →
        is_open (run (events ++ AskSync ∷ beside) start).machine.writer ≡ true →
        IsPrefixOf (answered (run events start))
        (recovered (crashed logs bases (run ((events ++ AskSync ∷ beside) ++ Syncs Done ∷ later) start).device)) }
    ensures appending { (events beside later : List Event) (logs bases : ℕ → Keep) →
        (run events start).machine.writer ≡ Appending → are_beside beside ≡ true → all_keep later ≡ true →
        is_open (run (events ++ AskSync ∷ beside) start).machine.writer ≡ true →
        IsPrefixOf (answered (run events start))
        (recovered (crashed logs bases (run ((events ++ AskSync ∷ beside) ++ Syncs Done ∷ later) start).device)) }
{}

/// Under `Never`, where no sync is requested, a crash loses at most the end of the current log: all batches of older logs are read, and
/// then the first ones of the current log. A switch to the next log syncs the log.
pub fn never_loses_only_the_end_of_a_log()
    ensures older { (events : List Event) (logs bases : ℕ → Keep) →
        IsPrefixOf (upto (run events start).parts (run events start).machine.log)
        (recovered (crashed logs bases (run events start).device)) }
    ensures prefix { (events : List Event) (logs bases : ℕ → Keep) →
        IsPrefixOf (recovered (crashed logs bases (run events start).device)) (submitted (run events start)) }
    ensures readable { (events : List Event) (logs bases : ℕ → Keep) → IsReadable (crashed logs bases (run events start).device) }
{}

/// An opening may give up the last batches of the current log. It keeps the first ones, and at least those that a base contains. Kept
/// batches that were acknowledged stay acknowledged and survive each crash. All kept batches survive the end of the process, by the other
/// laws. Once batches can be appended, exactly the kept batches are submitted and acknowledged, and a crash leaves exactly these.
///
/// To give up the batches of several logs, open the directory once for each log, the last log first, and keep no batch of the later ones.
pub fn batches_that_are_given_up_are_gone()
    ensures kept { (events : List Event) (least top keep : ℕ) (sealed : Bool) →
        IsPrefixOf (answered (happens (run events start) (Restart least top sealed (Some keep)))) (recovered (run events start).device) }
    ensures kept_after_a_crash { (events : List Event) (logs bases : ℕ → Keep) (least top keep : ℕ) (sealed : Bool) →
        IsPrefixOf (answered (happens (run events start) (Crash logs bases least top sealed (Some keep))))
        (recovered (crashed logs bases (run events start).device)) }
    ensures acknowledged { (events : List Event) (logs bases : ℕ → Keep) (least top keep : ℕ) (sealed : Bool) →
        (happens (run events start) (Crash logs bases least top sealed (Some keep))).acked
        ≡ take (length (answered (happens (run events start) (Crash logs bases least top sealed (Some keep))))) (run events start).acked }
    ensures done { (events : List Event) (least top : ℕ) (sealed : Bool) (keep : Option ℕ) (outcomes : List Outcome) →
        is_there ((run events start).device.logs (last_log (run events start).device)).now ≡ true →
        (run (writes outcomes) (happens (run events start) (Restart least top sealed keep))).machine.writer ≡ Ready →
        IsDone (answered (happens (run events start) (Restart least top sealed keep)))
        (run (writes outcomes) (happens (run events start) (Restart least top sealed keep))) }
    ensures done_after_a_crash { (events : List Event) (logs bases : ℕ → Keep) (least top : ℕ) (sealed : Bool) (keep : Option ℕ)
        (outcomes : List Outcome) →
        is_there ((crashed logs bases (run events start).device).logs
        (last_log (crashed logs bases (run events start).device))).now ≡ true →
        (run (writes outcomes) (happens (run events start) (Crash logs bases least top sealed keep))).machine.writer ≡ Ready →
        IsDone (answered (happens (run events start) (Crash logs bases least top sealed keep)))
        (run (writes outcomes) (happens (run events start) (Crash logs bases least top sealed keep))) }
    ensures stays { (events : List Event) (kept : List Batch) (logs bases : ℕ → Keep) → IsDone kept (run events start) →
        recovered (crashed logs bases (run events start).device) ≡ kept }
{}

/// Example: an opening gives up all batches of a log, and the next opening removes the log.
pub fn a_log_may_be_given_up()
    ensures acknowledged { (a b : Batch) → (run (batch_given_up a b) start).acked ≡ a ∷ [] }
    ensures gone { (a b : Batch) → ((run (batch_given_up a b) start).device.logs 2).now ≡ None }
    ensures read { (a b : Batch) → recovered (run (batch_given_up a b) start).device ≡ a ∷ [] }
{}

/// Example: a base contains one log and the first batch of the next, the first log is removed, and an opening reads all batches.
pub fn a_base_may_end_within_a_log()
    ensures acknowledged { (a b c : Batch) → (run (base_within_a_log a b c) start).acked ≡ a ∷ b ∷ c ∷ [] }
    ensures based { (a b c : Batch) → content ((run (base_within_a_log a b c) start).device.bases 2).now ≡ a ∷ b ∷ [] }
    ensures gone { (a b c : Batch) → ((run (base_within_a_log a b c) start).device.logs 1).now ≡ None }
    ensures read { (a b c : Batch) → recovered (run (base_within_a_log a b c) start).device ≡ a ∷ b ∷ c ∷ [] }
{}
