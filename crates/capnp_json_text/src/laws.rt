//! Laws of the definitions, as contracts of functions that do nothing: a caller brings one by its call.
ghost use Rattle.std.specs.Prelude.{ℕ, List, ◌∷◌, ◌≡◌, Err};
ghost use Rattle.capnp_json_text.specs.Laws.{IsReadInSteps, IsRefusedThere, StandsInSteps};
ghost use Rattle.capnp_json_text.specs.Texts.{after_text};
ghost use Rattle.capnp_json_text.specs.Writing.{IsReadBack};

/// A string is read a character after another, and a value a part after another.
pub fn texts_are_read_in_steps()
    ensures { IsReadInSteps }
{}

/// A value is one of its kind, and holds its elements or members one after another.
pub fn values_stand_in_steps()
    ensures { StandsInSteps }
{}

/// A byte that can't stand can't stand whatever follows: no text begins with the bytes up to it and with it.
pub fn refused_bytes_stay_refused()
    ensures { (bs : List ℕ) (b : ℕ) (fault : List ℕ) → after_text bs ≡ Err (b ∷ fault) → IsRefusedThere bs b fault }
{}

/// What is written of a string is read as the bytes for which it was written.
pub fn strings_are_read_back()
    ensures { (bs rest : List ℕ) → IsReadBack bs rest }
{}
