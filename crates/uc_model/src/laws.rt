//! Laws about the meaning of reads, under every operator.
ghost use Rattle.std.specs.Prelude.{◌≡◌, ◌<◌, ◌≤◌, ◌&&◌, ◌++◌, ◌↔◌, [], ◌∷◌, ℕ, List, Option, Some, None};
ghost use Rattle.std.specs.Prelude.{false, nat_le, IsTrue, Any, if◌then◌else◌};
ghost use Rattle.std.specs.List.{AllByRecursion};
ghost use Rattle.std.specs.List.Sorted.{IsNonDecreasingBy};
ghost use Rattle.std.specs.Ordering.{is_lt, is_le};
ghost use Rattle.uc_bytes.specs.Bytes.{bytes_cmp};
ghost use Rattle.uc_oper.specs.Composition.{applied, composed};
ghost use Rattle.uc_oper.specs.declared.effect.Effect.TheVariants.{Keep};
ghost use Rattle.uc_bytes.specs.declared.op.Op.TheVariants.{Put, Delete, Merge, DeleteRange};
ghost use Rattle.uc_bytes.specs.declared.write.Write.{Write};
ghost use Rattle.uc_model.specs.Meaning.{touches_key, Gives, changed, value_from, value_of, effect_on, effect_within};

use uc_oper::Operator;

/// A put, a delete and a merge touch the key that they name and no other. A range deletion touches the keys at or above
/// its begin and below its end: none if its begin is not below its end.
pub fn keys_are_touched_by_name_or_range()
    ensures put { (key named value : List ℕ) → IsTrue (touches_key key (Put named value)) ↔ (named ≡ key) }
    ensures delete { (key named : List ℕ) → IsTrue (touches_key key (Delete named)) ↔ (named ≡ key) }
    ensures merge { (key named operand : List ℕ) → IsTrue (touches_key key (Merge named operand)) ↔ (named ≡ key) }
    ensures range { (key begin end : List ℕ) → IsTrue (touches_key key (DeleteRange begin end))
        ↔ (IsTrue (is_le (bytes_cmp begin key)) × IsTrue (is_lt (bytes_cmp key end))) }
    ensures empty { (key begin end : List ℕ) → is_lt (bytes_cmp begin end) ≡ false →
        touches_key key (DeleteRange begin end) ≡ false }
{}

/// Applying the effect of the writes to any value before them gives what the writes make of it.
pub fn effect_gives_value<O: Operator>()
    ensures from { (value : Option (List ℕ)) (writes : List Write) (key : List ℕ) (at : ℕ) →
        applied O.meaning (effect_on O.meaning writes key at) value ≡ value_from O.meaning value writes key at }
    ensures none { (writes : List Write) (key : List ℕ) (at : ℕ) →
        applied O.meaning (effect_on O.meaning writes key at) None ≡ value_of O.meaning writes key at }
{}

/// Writes above a sequence change nothing that is read there.
pub fn later_writes_change_nothing<O: Operator>()
    ensures alone { (later : List Write) (key : List ℕ) (at : ℕ) → AllByRecursion (λ w. at < w.seq) later →
        effect_on O.meaning later key at ≡ Keep }
    ensures effect { (writes later : List Write) (key : List ℕ) (at : ℕ) → AllByRecursion (λ w. at < w.seq) later →
        effect_on O.meaning (writes ++ later) key at ≡ effect_on O.meaning writes key at }
    ensures value { (writes later : List Write) (key : List ℕ) (at : ℕ) → AllByRecursion (λ w. at < w.seq) later →
        value_of O.meaning (writes ++ later) key at ≡ value_of O.meaning writes key at }
{}

/// Writes that don't touch a key change nothing of it.
pub fn untouched_key_keeps_its_value<O: Operator>()
    ensures alone { (others : List Write) (key : List ℕ) (at : ℕ) →
        AllByRecursion (λ w. touches_key key w.op ≡ false) others → effect_on O.meaning others key at ≡ Keep }
    ensures effect { (writes others : List Write) (key : List ℕ) (at : ℕ) →
        AllByRecursion (λ w. touches_key key w.op ≡ false) others →
        effect_on O.meaning (writes ++ others) key at ≡ effect_on O.meaning writes key at }
    ensures value { (writes others : List Write) (key : List ℕ) (at : ℕ) →
        AllByRecursion (λ w. touches_key key w.op ≡ false) others →
        value_of O.meaning (writes ++ others) key at ≡ value_of O.meaning writes key at }
{}

/// Without writes no key has a value. Each further write changes the value of the keys that it touches, as read at its
/// sequence or above.
pub fn each_write_changes_what_it_touches<O: Operator>()
    ensures none { (key : List ℕ) (at : ℕ) → value_of O.meaning [] key at ≡ None }
    ensures more { (writes : List Write) (w : Write) (key : List ℕ) (at : ℕ) →
        value_of O.meaning (writes ++ w ∷ []) key at ≡
        (if nat_le w.seq at && touches_key key w.op
        then changed O.meaning (value_of O.meaning writes key at) w.op
        else value_of O.meaning writes key at) }
{}

/// Wherever a list of writes is cut, its effect is the effect of the first part composed with that of the second.
pub fn effects_of_parts_compose<O: Operator>()
    ensures { (older newer : List Write) (key : List ℕ) (at : ℕ) →
        effect_on O.meaning (older ++ newer) key at ≡
        composed O.meaning (effect_on O.meaning older key at) (effect_on O.meaning newer key at) }
{}

/// Wherever a list of writes is cut, applying the second part's effect to the value after the first part gives the
/// value after all writes.
pub fn effect_continues_value<O: Operator>()
    ensures from { (value : Option (List ℕ)) (older newer : List Write) (key : List ℕ) (at : ℕ) →
        value_from O.meaning value (older ++ newer) key at ≡
        applied O.meaning (effect_on O.meaning newer key at) (value_from O.meaning value older key at) }
    ensures none { (older newer : List Write) (key : List ℕ) (at : ℕ) →
        value_of O.meaning (older ++ newer) key at ≡
        applied O.meaning (effect_on O.meaning newer key at) (value_of O.meaning older key at) }
{}

/// If sequences don't fall, the effect at a sequence is the effect at a lower one composed with that of the stripe
/// between them. So the stripe turns the value at the lower sequence into the value at the higher one. Stripes that
/// meet compose.
pub fn effects_of_stripes_compose<O: Operator>()
    ensures below { (writes : List Write) (key : List ℕ) (low high : ℕ) →
        IsNonDecreasingBy (λ w. w.seq) writes → low ≤ high →
        effect_on O.meaning writes key high ≡
        composed O.meaning (effect_on O.meaning writes key low) (effect_within O.meaning writes key low high) }
    ensures value { (writes : List Write) (key : List ℕ) (low high : ℕ) →
        IsNonDecreasingBy (λ w. w.seq) writes → low ≤ high →
        value_of O.meaning writes key high ≡
        applied O.meaning (effect_within O.meaning writes key low high) (value_of O.meaning writes key low) }
    ensures between { (writes : List Write) (key : List ℕ) (low middle high : ℕ) →
        IsNonDecreasingBy (λ w. w.seq) writes → low ≤ middle → middle ≤ high →
        effect_within O.meaning writes key low high ≡ composed O.meaning
        (effect_within O.meaning writes key low middle) (effect_within O.meaning writes key middle high) }
{}

/// If a key has a value at a sequence, a put or a merge at or below it names the key.
pub fn value_is_given<O: Operator>()
    ensures { (writes : List Write) (key value : List ℕ) (at : ℕ) →
        value_of O.meaning writes key at ≡ Some value → Any (λ w. (w.seq ≤ at) × Gives key w.op) writes }
{}
