// Lists of words that are in the table, and some that aren't.
ghost use Rattle.std.specs.Prelude.{◌≡◌, ◌∷◌, [], codes, Some, None, true, false};
ghost use Rattle.wse_words.specs.Words.{Asked, Init, Show, options_in, options, standard_input, number_within, places_in, asked_by};

/// Some lists of words.
pub fn examples()
    ensures adopt { options_in (codes "--adopt" ∷ []) ≡ Some (options true standard_input) }
    ensures both { options_in (codes "--max-input" ∷ codes "5" ∷ codes "--adopt" ∷ []) ≡ Some (options true 5) }
    ensures zero { options_in (codes "--max-input" ∷ codes "0" ∷ []) ≡ None }
    ensures leading { number_within 0 100 (codes "07") ≡ None }
    ensures nothing { number_within 0 100 (codes "0") ≡ Some 0 }
    ensures inside { asked_by (codes "init" ∷ codes "t" ∷ codes "t/s" ∷ []) ≡ None }
    ensures init { asked_by (codes "init" ∷ codes "t" ∷ codes "s" ∷ []) ≡ Some (Init (codes "t") (codes "s")) }
    ensures show { asked_by (codes "show" ∷ codes "t" ∷ codes "s" ∷ []) ≡ Some (Show (codes "t") (codes "s")) }
    ensures more { asked_by (codes "show" ∷ codes "t" ∷ codes "s" ∷ codes "file:///w" ∷ []) ≡ None }
{}
