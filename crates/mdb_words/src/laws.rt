//! Laws of rows. Each function's contract is the law, and its body is empty.

ghost use Rattle.std.specs.Prelude.{◌≡◌, ◌+◌, ℕ, List};
ghost use Rattle.mdb_words.specs.Row.{IsRow};
ghost use Rattle.mdb_words.specs.Refusals.{IsRefusal};
ghost use Rattle.mdb_words.specs.declared.event.Event.{Event};
ghost use Rattle.mdb_words.specs.declared.limits.TheConstants.{ANSWER_GAP_MAX, BLOCK_GAP_MAX, BREAK_LENGTH_MIN, NEW_BLOCK_GAP_MIN, SETUP_GAP_MIN, WORD_GAP_MIN};
ghost use Rattle.mdb_words.specs.declared.row.RowFault.{RowFault};

/// Fields are the row of at most one event.
pub fn fields_are_of_one_event()
    ensures { (fields : List (List ℕ)) (a b : Event) → IsRow fields a → IsRow fields b → a ≡ b }
{}

/// The fields of a row are never refused.
pub fn rows_are_never_refused()
    ensures { (fields : List (List ℕ)) (event : Event) (fault : RowFault) →
        IsRow fields event → IsRefusal fields fault → ⊥ }
{}

/// Fields are refused for at most one reason.
pub fn fields_have_one_refusal()
    ensures { (fields : List (List ℕ)) (a b : RowFault) →
        IsRefusal fields a → IsRefusal fields b → a ≡ b }
{}

/// The time limits are those of MDB/ICP 4.3, plus the 1146 microseconds of the word that they count
/// from and a tolerance of 150.
pub fn limits_are_those_of_the_standard()
    ensures word { WORD_GAP_MIN + 150 ≡ 1146 }
    ensures block { BLOCK_GAP_MAX ≡ 1146 + 1000 + 150 }
    ensures answer { ANSWER_GAP_MAX ≡ 1146 + 5000 + 150 }
    ensures new_block { NEW_BLOCK_GAP_MIN + 150 ≡ 1146 + 5000 }
    ensures break_length { BREAK_LENGTH_MIN ≡ 100000 }
    ensures setup { SETUP_GAP_MIN ≡ 200000 }
{}
