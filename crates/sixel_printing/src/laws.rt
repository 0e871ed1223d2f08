//! Laws about the definitions. Each function's contract is the law.

ghost use Rattle.std.specs.Prelude.{◌≡◌, ◌⊎◌, ℕ, All, IsUtf8, List, chars, false};
ghost use Rattle.std.specs.Char.{is_control};
ghost use Rattle.sixel_printing.specs.Printing.{printed, printed_lines};

/// A text from outside, as a file's name, is printed without control characters, so it can't end a line. A text that has
/// none is printed as it is. Of a text of several lines the line feeds stay, and no other control character.
pub fn texts_are_printed_without_controls()
    ensures clean { (text : List ℕ) → IsUtf8 text → All (λ c. is_control c ≡ false) (chars (printed text)) }
    ensures plain { (text : List ℕ) → IsUtf8 text → All (λ c. is_control c ≡ false) (chars text) →
        printed text ≡ text }
    ensures lines { (text : List ℕ) → IsUtf8 text → All (λ c. (c ≡ 10) ⊎ (is_control c ≡ false))
        (chars (printed_lines text)) }
{}
