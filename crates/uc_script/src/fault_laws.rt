//! Laws about what is shown and printed. Each is a contract; its function is a proof step that does nothing when it runs.

ghost use Rattle.std.specs.Prelude.{◌≡◌, ℕ, ◌<◌, ◌≤◌, ◌^◌, List, length, IsTrue, IfSome};
ghost use Rattle.std.specs.List.{list_all};
ghost use Rattle.uc_script.specs.Explanations.{explanation_of};
ghost use Rattle.uc_script.specs.Shortened.{is_printable, shortened};
ghost use Rattle.uc_script.specs.declared.part.Source.{Source};

/// A line is shown by at most 243 characters, all of them printable characters of ASCII.
pub fn a_shortened_line_is_short()
    ensures printable { (line : List ℕ) → IsTrue (list_all is_printable (shortened line)) }
    ensures short { (line : List ℕ) → length (shortened line) ≤ 243 }
{}

/// An explanation of a line is one line: printable characters of ASCII alone, without a line break.
pub fn an_explanation_is_one_line()
    ensures { (source : Source) (text : List ℕ) (number : ℕ) → number < 2 ^ 64 →
        IfSome (explanation_of source text number) (λ said. IsTrue (list_all is_printable said)) }
{}
