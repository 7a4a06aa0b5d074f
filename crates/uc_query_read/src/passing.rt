//! Moves of the cursors of several runs past a key, or up to one.
ghost use Rattle.std.specs.Prelude.{◌≡◌, ◌≢◌, ◌≤◌, List, Some, false, length, map, IfNone, IfSome};
ghost use Rattle.std.specs.List.{AllByRecursion};
ghost use Rattle.uc_oper.specs.declared.effect.Effect.TheVariants.{Set};
ghost use Rattle.uc_model.specs.Meaning.{effect_on, value_of};
ghost use Rattle.uc_run.specs.Cursors.{Standing, has_ranges};
ghost use Rattle.uc_run.specs.Heads.{next_key, number_of};
ghost use Rattle.uc_compact.specs.Inputs.{writes_of};
ghost use Rattle.uc_query_read.specs.Walks.{runs_of, newer_of, passed, sought, ArePassedTo, StandsAt, IsOfRun};

use uc_model::{effect_gives_value, effects_of_parts_compose};
use uc_oper::Operator;
use uc_run::{Cursor, Head, Heads, keys_at_places_are_next, other_keys_are_kept};

/// Moves the cursors from a place on that are at a key past it. The others are after it already.
fn pass_from<'a>(cursors: &mut [Cursor<'a>], heads: &mut Heads<'a>, head: Head<'_>, from: usize)
    requires number { head.number ≡ number_of heads.old.front head.key.now }
    requires within { from ≤ length cursors.old }
    requires heads { heads.old.keys ≡ map next_key cursors.old }
    ensures cursors { (all : List Standing) → AllByRecursion (StandsAt head.entry.key.now false) all → AllByRecursion IsOfRun all →
        length cursors.old ≡ length all → ArePassedTo head.entry.key.now all cursors.old from →
        cursors.new ≡ map (passed head.entry.key.now) all }
    ensures heads { heads.new.keys ≡ map next_key cursors.new }
{
    keys_at_places_are_next();
    let mut place = heads.next_at(from, head);
    while place < cursors.len() {
        let cursor = &mut cursors[place];
        cursor.pass(head.key);
        heads.set(place, cursor.key());
        place = heads.next_at(place + 1, head);
    }
}

/// Moves the cursors that are at a key past it. The others are after it already.
fn pass_there<'a>(cursors: &mut [Cursor<'a>], heads: &mut Heads<'a>, head: Head<'_>)
    requires number { head.number ≡ number_of heads.old.front head.key.now }
    requires stand { AllByRecursion (StandsAt head.key.now false) cursors.old }
    requires of_runs { AllByRecursion IsOfRun cursors.old }
    requires heads { heads.old.keys ≡ map next_key cursors.old }
    ensures cursors { cursors.new ≡ map (passed head.entry.key.now) cursors.old }
    ensures heads { heads.new.keys ≡ map next_key cursors.new }
{
    pass_from(cursors, heads, head, 0);
}

/// As [`pass_there`], if the newest of these runs says of the key one put at or below a sequence, which it returns: the put overwrites the
/// others. Otherwise none moves.
fn take_there<'a, O: Operator>(
    cursors: &mut [Cursor<'a>],
    heads: &mut Heads<'a>,
    head: Head<'_>,
    at: u64,
) -> Option<&'a [u8]>
    requires number { head.number ≡ number_of heads.old.front head.key.now }
    requires stand { AllByRecursion (StandsAt head.key.now false) cursors.old }
    requires of_runs { AllByRecursion IsOfRun cursors.old }
    requires heads { heads.old.keys ≡ map next_key cursors.old }
    requires plain { AllByRecursion (λ c. has_ranges c ≡ false) cursors.old }
    ensures puts { IfSome result (λ value.
        effect_on O.meaning (writes_of (runs_of cursors.old)) head.entry.key.now at ≡ Set (Some value.now)) }
    ensures cursors { IfSome result (λ value. cursors.new ≡ map (passed head.entry.key.now) cursors.old) }
    ensures heads { IfSome result (λ value. heads.new.keys ≡ map next_key cursors.new) }
    ensures stays { IfNone result (cursors.new ≡ cursors.old) }
    ensures heads_stay { IfNone result (heads.new ≡ heads.old) }
{
    effects_of_parts_compose::<O>();
    other_keys_are_kept::<O>();
    keys_at_places_are_next();
    let first = heads.next_at(0, head);
    if first >= cursors.len() {
        return None;
    }
    let cursor = &mut cursors[first];
    let value = cursor.next_put::<O>(at)?;
    heads.set(first, cursor.key());
    pass_from(cursors, heads, head, first + 1);
    Some(value)
}

/// As [`pass_there`], with the oldest run's cursor, whose next key isn't among the heads.
pub(crate) fn pass_all<'a>(cursors: &mut [Cursor<'a>], heads: &mut Heads<'a>, head: Head<'_>)
    requires number { head.number ≡ number_of heads.old.front head.key.now }
    requires stand { AllByRecursion (StandsAt head.key.now false) cursors.old }
    requires of_runs { AllByRecursion IsOfRun cursors.old }
    requires heads { heads.old.keys ≡ map next_key (newer_of cursors.old) }
    ensures cursors { cursors.new ≡ map (passed head.entry.key.now) cursors.old }
    ensures heads { heads.new.keys ≡ map next_key (newer_of cursors.new) }
{
    if let Some(last) = cursors.len().checked_sub(1) {
        pass_there(&mut cursors[..last], heads, head);
        cursors[last].pass(head.key);
    }
}

/// As [`take_there`], with the oldest run's cursor: the value of the key by all runs.
pub(crate) fn take_all<'a, O: Operator>(
    cursors: &mut [Cursor<'a>],
    heads: &mut Heads<'a>,
    head: Head<'_>,
    at: u64,
) -> Option<&'a [u8]>
    requires number { head.number ≡ number_of heads.old.front head.key.now }
    requires stand { AllByRecursion (StandsAt head.key.now false) cursors.old }
    requires of_runs { AllByRecursion IsOfRun cursors.old }
    requires heads { heads.old.keys ≡ map next_key (newer_of cursors.old) }
    requires plain { AllByRecursion (λ c. has_ranges c ≡ false) cursors.old }
    ensures value { IfSome result (λ value.
        value_of O.meaning (writes_of (runs_of cursors.old)) head.entry.key.now at ≡ Some value.now) }
    ensures cursors { IfSome result (λ value. cursors.new ≡ map (passed head.entry.key.now) cursors.old) }
    ensures heads { IfSome result (λ value. heads.new.keys ≡ map next_key (newer_of cursors.new)) }
    ensures stays { IfNone result (cursors.new ≡ cursors.old) }
    ensures heads_stay { IfNone result (heads.new ≡ heads.old) }
{
    effect_gives_value::<O>();
    effects_of_parts_compose::<O>();
    let last = cursors.len().checked_sub(1)?;
    let value = take_there::<O>(&mut cursors[..last], heads, head, at)?;
    cursors[last].pass(head.key);
    Some(value)
}

/// Moves the oldest run's cursor past a key at which no other is.
pub(crate) fn pass_oldest(cursors: &mut [Cursor<'_>], key: &[u8])
    requires alone { AllByRecursion (λ c. next_key c ≢ Some key.now) (newer_of cursors.old) }
    requires stand { AllByRecursion (StandsAt key.now false) cursors.old }
    requires of_runs { AllByRecursion IsOfRun cursors.old }
    ensures cursors { cursors.new ≡ map (passed key.now) cursors.old }
    ensures newer { newer_of cursors.new ≡ newer_of cursors.old }
{
    keys_at_places_are_next();
    if let Some(last) = cursors.len().checked_sub(1) {
        cursors[last].pass(key);
    }
}

/// Moves each cursor past the points below a key.
fn seek_each<'a>(cursors: &mut [Cursor<'a>], heads: &mut Heads<'a>, low: &[u8])
    requires { heads.old.keys ≡ map next_key cursors.old }
    ensures cursors { cursors.new ≡ map (sought low.now) cursors.old }
    ensures heads { heads.new.keys ≡ map next_key cursors.new }
{
    for place in 0..cursors.len() {
        let cursor = &mut cursors[place];
        cursor.seek(low);
        heads.set(place, cursor.key());
    }
}

/// As [`seek_each`], with the oldest run's cursor, whose next key isn't among the heads.
pub(crate) fn seek_all<'a>(cursors: &mut [Cursor<'a>], heads: &mut Heads<'a>, low: &[u8])
    requires { heads.old.keys ≡ map next_key (newer_of cursors.old) }
    ensures cursors { cursors.new ≡ map (sought low.now) cursors.old }
    ensures heads { heads.new.keys ≡ map next_key (newer_of cursors.new) }
{
    if let Some(last) = cursors.len().checked_sub(1) {
        seek_each(&mut cursors[..last], heads, low);
        cursors[last].seek(low);
    }
}
