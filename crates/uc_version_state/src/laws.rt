//! Laws about versions and their changes.
ghost use Rattle.std.specs.Prelude.{◌≡◌, ◌≢◌, ◌≤◌, ◌<◌, ◌⊎◌, ◌↔◌, ◌+◌, ◌-◌, ◌^◌, ◌++◌, ◌∷◌, [], ℕ, List, None, Contains, length};
ghost use Rattle.std.specs.List.{flat_map};
ghost use Rattle.std.specs.List.Sorted.{IsStrictlySortedBy};
ghost use Rattle.std.specs.Ordering.{nat_cmp};
ghost use Rattle.uc_bytes.specs.declared.write.Write.{Write};
ghost use Rattle.uc_batch.specs.Rising.{IsRising, last_of};
ghost use Rattle.uc_claims.specs.Holding.{AreDistinct};
ghost use Rattle.uc_claims.specs.declared.table.TheConstants.{MOST_SLOTS};
ghost use Rattle.uc_model.specs.Meaning.{effect_on, value_of};
ghost use Rattle.uc_run.specs.Size.{memtable_size};
ghost use Rattle.uc_compact.specs.Reading.{IsReadAt};
ghost use Rattle.uc_version_state.specs.Versions.{PlacedRun, Stored, IsVersion, ids_of, writes_in};
ghost use Rattle.uc_version_state.specs.Flushes.{memtables, least_free};
ghost use Rattle.uc_version_state.specs.Feeds.{MayFeed, fed, feed_refusal};
ghost use Rattle.uc_version_state.specs.Snapshots.{kept, released};
ghost use Rattle.uc_version_state.specs.declared.options.TheConstants.{GREATEST_FIRST_ID};
ghost use Rattle.uc_version_state.specs.Openings.{Opening, MayOpen, opened};
ghost use Rattle.uc_version_state.specs.Installs.{Install, MayInstall, installed, part_of, standing};
ghost use Rattle.uc_version_state.specs.declared.event.Event.{Event};
ghost use Rattle.uc_version_state.specs.Histories.{MayHappen, after, ids_replaced, History, IsLegal, known};
ghost use Rattle.uc_version_state.specs.Histories.{version_after, writes_brought, writes_given, all_ids_given};
ghost use Rattle.uc_version_state.specs.Histories.{all_ids_replaced};

use uc_oper::Operator;
use uc_run::{flush_keeps_every_effect, flushed_writes_are_a_run};

/// Memtables are filled one after the other: together they hold the writes, in order, and none is empty. All but the
/// last have reached the limit. If the limit is at least 1 byte, none had reached it before its last write.
pub fn memtables_are_filled_in_turn()
    ensures joined { (limit : ℕ) (writes : List Write) →
        flat_map (λ (part : List Write). part) (memtables limit writes) ≡ writes }
    ensures some { (limit : ℕ) (writes part : List Write) → Contains (memtables limit writes) part → part ≢ [] }
    ensures full { (limit : ℕ) (writes : List Write) (front : List (List Write)) (part next : List Write) (behind : List (List Write)) →
        memtables limit writes ≡ front ++ part ∷ next ∷ behind → limit ≤ memtable_size part }
    ensures not_before { (limit : ℕ) (writes part front : List Write) (w : Write) → 1 ≤ limit →
        Contains (memtables limit writes) part → part ≡ front ++ w ∷ [] → memtable_size front < limit }
{}

/// Writes that don't reach the limit together fill one memtable.
pub fn small_writes_fill_one_memtable()
    ensures { (limit : ℕ) (writes : List Write) → writes ≢ [] → memtable_size writes < limit →
        memtables limit writes ≡ writes ∷ [] }
{}

/// A store opens with the given keeps and the last sequence, each once and in order.
pub fn opened_keeps_are_those_given()
    ensures given { (o : Opening) (seq : ℕ) →
        Contains (opened o).keeps seq ↔ (Contains o.keeps seq ⊎ (seq ≡ last_of 0 o.writes)) }
    ensures in_order { (o : Opening) → IsStrictlySortedBy nat_cmp (opened o).keeps }
{}

/// The greatest number of a first run leaves one below 2^64 - 1 for a run in each slot. A store whose first run has it can
/// fill its slots, and has none left for an install.
pub fn first_ids_leave_a_number_for_each_slot()
    ensures { GREATEST_FIRST_ID + MOST_SLOTS ≡ 2 ^ 64 - 1 }
{}

/// A store opens with a version.
pub fn opening_gives_a_version()
    ensures { (o : Opening) → MayOpen o → IsVersion (opened o) }
{
    flushed_writes_are_a_run();
}

/// An opening loses nothing: its version's plain writes do to every key, at every sequence, what the writes of the log do.
pub fn opening_keeps_every_effect<O: Operator>()
    ensures { (o : Opening) (key : List ℕ) (at : ℕ) → MayOpen o →
        effect_on O.meaning (writes_in (opened o)) key at ≡ effect_on O.meaning o.writes key at }
{
    flushed_writes_are_a_run();
    flush_keeps_every_effect::<O>();
}

/// An install changes nothing that is read: at each keep of the version, and from its last sequence on, every key keeps
/// its value.
pub fn install_keeps_what_is_read<O: Operator>()
    ensures { (v : Stored) (i : Install) (key : List ℕ) (at : ℕ) → IsVersion v → MayInstall O.meaning v i →
        IsReadAt v.keeps v.last at →
        value_of O.meaning (writes_in (installed i v)) key at ≡ value_of O.meaning (writes_in v) key at }
{}

/// After an install there is a version again.
pub fn install_gives_a_version<O: Operator>()
    ensures { (v : Stored) (i : Install) → IsVersion v → MayInstall O.meaning v i → IsVersion (installed i v) }
{}

/// After a feed, and with other keeps, there is a version again.
pub fn feeds_and_keeps_give_versions()
    ensures fed { (v : Stored) (ws : List Write) → IsVersion v → MayFeed v ws → IsVersion (fed ws v) }
    ensures kept { (v : Stored) → IsVersion v → IsVersion (kept v) }
    ensures released { (v : Stored) (seq : ℕ) → IsVersion v → IsVersion (released seq v) }
{
    flushed_writes_are_a_run();
}

/// After an event there is a version again.
pub fn events_give_versions<O: Operator>()
    ensures { (v : Stored) (e : Event) → IsVersion v → MayHappen O.meaning v e → IsVersion (after v e) }
{
    flushed_writes_are_a_run();
}

/// Whatever happened to a store, it holds a version. At each of its keeps, and from its last sequence on, every key has
/// the value that the plain writes give it.
pub fn histories_keep_what_is_read<O: Operator>()
    ensures version { (h : History) → IsLegal O.meaning h → IsVersion (version_after h) }
    ensures values { (h : History) (key : List ℕ) (at : ℕ) → IsLegal O.meaning h →
        IsReadAt (version_after h).keeps (version_after h).last at →
        value_of O.meaning (writes_in (version_after h)) key at ≡ value_of O.meaning (writes_given h) key at }
{
    flushed_writes_are_a_run();
    flush_keeps_every_effect::<O>();
    opening_gives_a_version();
    opening_keeps_every_effect::<O>();
}

/// The writes that a store has taken, and its keeps, are known without a look at its runs: the writes of a history rise, up to
/// the last sequence of the version after it, which has the keeps that are known.
pub fn histories_say_writes_and_keeps<O: Operator>()
    ensures writes { (h : History) → (known h).writes ≡ writes_given h }
    ensures rising { (h : History) → IsLegal O.meaning h → IsRising 0 (writes_given h) }
    ensures last { (h : History) → IsLegal O.meaning h → last_of 0 (writes_given h) ≡ (version_after h).last }
    ensures keeps { (h : History) → IsLegal O.meaning h → (known h).keeps ≡ (version_after h).keeps }
{}

/// Whatever happened to a store, no id was given twice, and no run was replaced twice.
pub fn runs_are_replaced_once<O: Operator>()
    ensures given { (h : History) → IsLegal O.meaning h → AreDistinct (all_ids_given h) }
    ensures replaced { (h : History) → IsLegal O.meaning h → AreDistinct (all_ids_replaced h) }
{
    flushed_writes_are_a_run();
    opening_gives_a_version();
}

/// An event that may happen to the version after a history extends it: the longer history is legal too, and the version
/// after it is the one after that event.
pub fn histories_grow_by_events<O: Operator>()
    ensures legal { (h : History) (e : Event) → IsLegal O.meaning h → MayHappen O.meaning (version_after h) e →
        IsLegal O.meaning (record h { events = h.events ++ e ∷ [] }) }
    ensures after { (h : History) (e : Event) →
        version_after (record h { events = h.events ++ e ∷ [] }) ≡ after (version_after h) e }
{}

/// A beginning of a legal history is a legal history.
pub fn beginnings_are_legal<O: Operator>()
    ensures { (h : History) (later : List Event) →
        IsLegal O.meaning (record h { events = h.events ++ later }) → IsLegal O.meaning h }
{}

/// A run that an event doesn't replace stays in the version, with its id, its slot and its contents.
pub fn runs_stay_until_replaced<O: Operator>()
    ensures { (v : Stored) (e : Event) (run : PlacedRun) → MayHappen O.meaning v e → Contains v.runs run →
        ¬ Contains (ids_replaced e) run.id → Contains (after v e).runs run }
{}

/// Along a history a run keeps its slot and its contents: if runs with one id are in the versions after a history and
/// after a longer one that begins with it, they are the same.
pub fn runs_keep_their_contents<O: Operator>()
    ensures { (h : History) (later : List Event) (run again : PlacedRun) →
        IsLegal O.meaning (record h { events = h.events ++ later }) →
        Contains (version_after h).runs run → Contains (version_after (record h { events = h.events ++ later })).runs again →
        run.id ≡ again.id → run ≡ again }
{
    flushed_writes_are_a_run();
    opening_gives_a_version();
}

/// The parts that each event changes: the keeps are changed by a keep and a release alone, the last sequence by a feed alone, and
/// the size of a memtable by none.
pub fn events_change_what_they_say()
    ensures keeps_installed { (v : Stored) (i : Install) → (installed i v).keeps ≡ v.keeps }
    ensures keeps_fed { (v : Stored) (ws : List Write) → (fed ws v).keeps ≡ v.keeps }
    ensures last { (v : Stored) (e : Event) → (after v e).last ≡ last_of v.last (writes_brought e) }
    ensures limit { (v : Stored) (e : Event) → (after v e).limit ≡ v.limit }
{}

/// An empty list of writes changes nothing, and never fails.
pub fn no_writes_change_nothing()
    ensures same { (v : Stored) → fed [] v ≡ v }
    ensures may { (v : Stored) → IsVersion v → MayFeed v [] }
{}

/// Writes, which rise, may be fed exactly if nothing rejects them.
pub fn no_refusal_is_leave_to_feed()
    ensures { (v : Stored) (ws : List Write) → IsRising 0 ws → (feed_refusal v ws ≡ None) ↔ MayFeed v ws }
{}

/// The slot of a flushed run is the least that no run holds.
pub fn flushed_runs_take_the_least_slots()
    ensures free { (slots : List ℕ) → ¬ Contains slots (least_free slots) }
    ensures least { (slots : List ℕ) (slot : ℕ) → slot < least_free slots → Contains slots slot }
    ensures within { (slots : List ℕ) → least_free slots ≤ length slots }
{}

/// Neighbours are found by their ids: as many runs as there are ids, from the one with the newest id on, are these
/// runs.
pub fn neighbours_stand_where_their_ids_say()
    ensures { (v : Stored) (first count : ℕ) → IsVersion v → 0 < count → first + count ≤ length v.runs →
        standing (ids_of (part_of first count v.runs)) v.runs ≡ part_of first count v.runs }
{}
