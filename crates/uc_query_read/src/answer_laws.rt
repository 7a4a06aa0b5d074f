//! Laws about answers.
ghost use Rattle.std.specs.Prelude.{◌≡◌, ◌↔◌, ℕ, List, Option, Contains, reverse, take};
ghost use Rattle.std.specs.List.Sorted.{IsStrictlySortedBy};
ghost use Rattle.uc_bytes.specs.Bytes.{bytes_cmp};
ghost use Rattle.uc_bytes.specs.declared.write.Write.{Write};
ghost use Rattle.uc_query_read.specs.declared.query.Query.{Query};
ghost use Rattle.uc_query_read.specs.declared.query.Query.TheVariants.{Scan};
ghost use Rattle.uc_query_read.specs.declared.answer.Answer.TheVariants.{Rows, NotProtected};
ghost use Rattle.uc_query_read.specs.Query.{at_of};
ghost use Rattle.uc_model.specs.Meaning.{value_of};
ghost use Rattle.uc_query_read.specs.Answers.{Reads, named_keys, rows_of, first_rows, answer_of};
ghost use Rattle.uc_query_read.specs.Scans.{IsNamed, IsScan};

use uc_oper::Operator;

/// The keys of a scan rise strictly in byte order, so each occurs once.
pub fn scan_keys_rise()
    ensures { (writes : List Write) (low : List ℕ) (high : Option (List ℕ)) →
        IsStrictlySortedBy bytes_cmp (named_keys writes low high) }
{}

/// The keys of a scan are those in its range that a put or a merge names. A delete or a range deletion alone shows no
/// key.
pub fn scan_keys_are_named()
    ensures { (writes : List Write) (low : List ℕ) (high : Option (List ℕ)) (key : List ℕ) →
        Contains (named_keys writes low high) key ↔ IsNamed writes low high key }
{}

/// The rows of a scan are the first pairs, in byte order of their keys, of such a key and its value at the sequence.
pub fn scan_rows_are_first<O: Operator>()
    ensures { (writes : List Write) (low : List ℕ) (high : Option (List ℕ)) (at limit : ℕ) →
        IsScan O.meaning writes low high at limit
        (first_rows O.meaning writes at limit (named_keys writes low high)) }
{}

/// No other list is the rows of that scan.
pub fn scan_rows_are_determined<O: Operator>()
    ensures { (writes : List Write) (low : List ℕ) (high : Option (List ℕ)) (at limit : ℕ)
        (rows others : List (List ℕ × List ℕ)) → IsScan O.meaning writes low high at limit rows →
        IsScan O.meaning writes low high at limit others → rows ≡ others }
{}

/// The answer to a scan at a protected sequence is those rows, and no other list.
pub fn scan_is_answered_by_first_rows<O: Operator>()
    ensures { (writes : List Write) (keeps : List ℕ) (low : List ℕ) (high : Option (List ℕ)) (at limit : ℕ)
        (rows : List (List ℕ × List ℕ)) → Contains keeps at →
        (answer_of O.meaning writes keeps (Scan low high at limit) ≡ Rows rows)
        ↔ IsScan O.meaning writes low high at limit rows }
{}

/// A query fails exactly if no snapshot protects its sequence number, and the error names that number.
pub fn unprotected_is_refused<O: Operator>()
    ensures { (writes : List Write) (keeps : List ℕ) (query : Query) (seq : ℕ) →
        (answer_of O.meaning writes keeps query ≡ NotProtected seq)
        ↔ ((at_of query ≡ seq) × (¬ Contains keeps seq)) }
{}

/// If writes give each key that a query reads the same value, they give the query the same answer, whatever else they
/// say: a scan shows no other keys either. So writes that no protected read needs may be dropped.
pub fn equal_values_give_equal_answers<O: Operator>()
    ensures { (writes others : List Write) (keeps : List ℕ) (query : Query) →
        (Contains keeps (at_of query) → (key : List ℕ) → Reads query key →
        value_of O.meaning writes key (at_of query) ≡ value_of O.meaning others key (at_of query)) →
        answer_of O.meaning writes keeps query ≡ answer_of O.meaning others keeps query }
{}

/// A scan against the order of keys shows the rows of the scan in their order, the last first.
pub fn rows_back_are_rows_reversed<O: Operator>()
    ensures { (writes : List Write) (low : List ℕ) (high : Option (List ℕ)) (at limit : ℕ) →
        first_rows O.meaning writes at limit (reverse (named_keys writes low high)) ≡
        take limit (reverse (rows_of O.meaning writes at (named_keys writes low high))) }
{}
