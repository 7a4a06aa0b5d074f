//! Laws about the definitions of this crate. Each is a contract; its function is a proof step that does nothing
//! when it runs.

ghost use Rattle.std.specs.Prelude.{◌≡◌, ℕ, ◌<◌, ◌^◌, ◌++◌, ◌∷◌, [], List, codes, length, Ok, Some, Result, All};
ghost use Rattle.std.specs.Fmt.{decimal};
ghost use Rattle.hex.specs.Hex.{encode_lower};
ghost use Rattle.uc_script.specs.Cases.{ComesTo};
ghost use Rattle.uc_script.specs.Fed.{all_ops};
ghost use Rattle.uc_script.specs.Head.{Head, head_of};
ghost use Rattle.uc_script.specs.HeadCases as heads;
ghost use Rattle.uc_script.specs.Lines.{lines_of};
ghost use Rattle.uc_script.specs.Names.{NameIsGood};
ghost use Rattle.uc_script.specs.Script.{script_of};
ghost use Rattle.uc_script.specs.Short.{AreNoLonger};
ghost use Rattle.uc_script.specs.Texts.{number_of, text_of};
ghost use Rattle.uc_script.specs.declared.script.Script.{Script};

/// A script is setup lines, one `open`, and lines in which a `feed` follows each change; its calls are those of its lines, in their
/// order. Any other input has its fault at the first line that isn't valid, or one past the last line if no `open` comes, or no
/// `feed` after a change. There is no other outcome, and no input has two.
pub fn a_script_is_its_lines()
    ensures comes { (text : List ℕ) → ComesTo (lines_of text) (script_of text) }
    ensures alone { (text : List ℕ) (outcome : Result Script ℕ)
        → ComesTo (lines_of text) outcome → outcome ≡ script_of text }
{}

/// A head is lines that keep and query and a `log` line, each with its LF, and contains what they name in order. Any bytes may
/// follow it. Any other input has its fault at the first line that isn't valid, at a `log` without its LF, or one past the last
/// line if no `log` comes. There is no other outcome, and no input has two.
pub fn a_head_is_its_lines()
    ensures comes { (text : List ℕ) → heads.ComesTo text (head_of text) }
    ensures alone { (text : List ℕ) (outcome : Result Head ℕ) → heads.ComesTo text outcome → outcome ≡ head_of text }
{}

/// A head that is read at the front of some bytes is still the head if more bytes follow.
pub fn what_follows_a_head_changes_nothing()
    ensures { (text more : List ℕ) (said : Head) → head_of text ≡ Ok said → head_of (text ++ more) ≡ Ok said }
{}

/// A script has at most as many changes as bytes, and none of their keys and values is longer than the script. So it is of the
/// changes before its `open`, and of these and those that it feeds together.
pub fn a_script_names_no_more_than_it_has()
    ensures opened { (text : List ℕ) (script : Script) → script_of text ≡ Ok script
        → AreNoLonger (length text) script.ops }
    ensures all { (text : List ℕ) (script : Script) → script_of text ≡ Ok script
        → AreNoLonger (length text) (all_ops script) }
{}

/// Every name of a claim in a script that is read is below [`NAMES`](crate::NAMES).
pub fn names_are_in_range()
    ensures { (text : List ℕ) (script : Script) → script_of text ≡ Ok script
        → All NameIsGood script.calls }
{}

/// Reading the digits of bytes returns these bytes, and reading `.` returns none.
pub fn digits_are_read()
    ensures some { (byte : ℕ) (rest : List ℕ) → All (λ b. b < 256) (byte ∷ rest)
        → text_of (encode_lower (byte ∷ rest)) ≡ Some (byte ∷ rest) }
    ensures none { text_of (codes ".") ≡ Some [] }
{}

/// Reading what is printed for a number returns this number.
pub fn printed_numbers_are_read()
    ensures { (number : ℕ) → number < 2 ^ 64 → number_of (decimal number) ≡ Some number }
{}
