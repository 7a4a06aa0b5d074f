//! Laws about a compaction's output, under every operator.
ghost use Rattle.std.specs.Prelude.{◌≡◌, ℕ, ◌<◌, ◌^◌, ◌∷◌, List, filter, length};
ghost use Rattle.std.specs.List.{flat_map};
ghost use Rattle.std.specs.List.Sorted.{IsStrictlySortedBy, IsNonDecreasingBy};
ghost use Rattle.std.specs.Ordering.{nat_cmp};
ghost use Rattle.uc_oper.specs.Composition.{composed};
ghost use Rattle.uc_bytes.specs.declared.write.Write.{Write};
ghost use Rattle.uc_run_entry.specs.Run.{Contents, IsRun};
ghost use Rattle.uc_run_entry.specs.PlainList.{plain_list};
ghost use Rattle.uc_model.specs.Meaning.{effect_on};
ghost use Rattle.uc_compact.specs.Stripes.{is_in, stripes};
ghost use Rattle.uc_run_entry.specs.Cutting.{fragments_of};
ghost use Rattle.uc_compact.specs.Choice.{points_for, points_named, seqs_over, AreOfOneKey};
ghost use Rattle.uc_compact.specs.Inputs.{Compaction, AreRuns, AreNewestFirst, Stand};
ghost use Rattle.uc_compact.specs.Inputs.{writes_of, points_of, ranges_of, keeping_of};
ghost use Rattle.uc_compact.specs.Output.{keys_of, output_of};
ghost use Rattle.uc_compact.specs.Reading.{KeepsReads, KeepsStripes};
ghost use Rattle.uc_compact.specs.OneOfEach.{HasOneOfEach, HasValuesAlone};

use uc_oper::Operator;

/// The writes of runs, newest first, are in order of sequence. They do to a key what the older runs' writes do and then
/// those of the newest.
pub fn runs_compose<O: Operator>()
    ensures order { (runs : List Contents) → AreRuns runs → AreNewestFirst runs →
        IsNonDecreasingBy (λ (w : Write). w.seq) (writes_of runs) }
    ensures effects { (newest : Contents) (older : List Contents) (key : List ℕ) (at : ℕ) →
        effect_on O.meaning (writes_of (newest ∷ older)) key at ≡ composed O.meaning
        (effect_on O.meaning (writes_of older) key at) (effect_on O.meaning (plain_list newest) key at) }
{}

/// If keeps rise, each sequence that a write may have is in one stripe.
pub fn sequences_have_one_stripe()
    ensures { (keeps : List ℕ) (seq : ℕ) → IsStrictlySortedBy nat_cmp keeps → 0 < seq → seq < 2 ^ 56 →
        length (filter (λ s. is_in s seq) (stripes keeps)) ≡ 1 }
{}

/// The output is a run. Its range goes from the oldest input's least sequence to the newest input's greatest.
pub fn compaction_gives_a_run<O: Operator>()
    ensures { (c : Compaction) → AreRuns c.inputs → Stand c.inputs c.keeps →
        IsRun (output_of O.meaning c).low (output_of O.meaning c).high
        (output_of O.meaning c).points (output_of O.meaning c).fragments }
{}

/// At each keep, and at and above the greatest sequence of the inputs, the output's writes do to every key what the
/// inputs' writes do. If the oldest run is among the inputs, nothing lies below, and they give every key the value that
/// the inputs' writes give it.
pub fn compaction_keeps_what_is_read<O: Operator>()
    ensures { (c : Compaction) → AreRuns c.inputs → Stand c.inputs c.keeps →
        KeepsReads O.meaning c (output_of O.meaning c) }
{}

/// The output's writes of a stripe do to a key what the inputs' writes of that stripe do, if something may lie below.
/// In the bottom stripe of a compaction with the oldest run nothing does: there they give the same value.
pub fn compaction_keeps_each_stripe<O: Operator>()
    ensures { (c : Compaction) → AreRuns c.inputs → Stand c.inputs c.keeps →
        KeepsStripes O.meaning c (output_of O.meaning c) }
{}

/// The output has at most one point for each key and stripe, and each of its fragments has at most one sequence of each.
pub fn compaction_keeps_one_of_each_stripe<O: Operator>()
    ensures { (c : Compaction) → AreRuns c.inputs → Stand c.inputs c.keeps →
        HasOneOfEach c.keeps (output_of O.meaning c) }
{}

/// In the bottom stripe of a compaction with the oldest run only values are left: no delete, no merge and no range
/// deletion.
pub fn compaction_of_the_oldest_leaves_values<O: Operator>()
    ensures { (c : Compaction) → AreRuns c.inputs → Stand c.inputs c.keeps →
        HasValuesAlone (keeping_of c) (output_of O.meaning c) }
{}

/// The points that a compaction keeps, key by key. They depend only on the key's points, the newest first, and on the
/// sequences over the key in the pieces of all range deletions. Both fall, and no sequence is in both.
pub fn points_are_chosen_key_by_key<O: Operator>()
    ensures points { (c : Compaction) → AreRuns c.inputs → Stand c.inputs c.keeps →
        (output_of O.meaning c).points ≡ flat_map (λ key. points_for O.meaning (keeping_of c) key
        (points_named key (points_of c.inputs)) (seqs_over key (fragments_of (ranges_of c.inputs)))) (keys_of c) }
    ensures fall { (c : Compaction) (key : List ℕ) → AreRuns c.inputs → Stand c.inputs c.keeps →
        AreOfOneKey (points_named key (points_of c.inputs)) (seqs_over key (fragments_of (ranges_of c.inputs))) }
{}
