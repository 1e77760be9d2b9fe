//! What holds of the words as such.
ghost use Rattle.std.specs.Prelude.{◌≡◌, List, ℕ, Some};
ghost use Rattle.va_words.specs.Forms.{HasForm};
ghost use Rattle.va_words.specs.Words.{mode_of};
ghost use Rattle.va_words.specs.declared.form.Mode as modes;

/// Words ask for a mode exactly where they have its form.
pub fn modes_by_form()
    ensures form { (words : List (List ℕ)) (mode : modes.Mode) → mode_of words ≡ Some mode → HasForm mode words }
    ensures mode { (words : List (List ℕ)) (mode : modes.Mode) → HasForm mode words → mode_of words ≡ Some mode }
{}
