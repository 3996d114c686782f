//! What the definitions of the text and of its reading come to, as laws.

ghost use Rattle.std.specs.Prelude.{◌≡◌, ℕ, List, ◌++◌, length, Ok, Err};
ghost use Rattle.order_proof.specs.Plain.{PlainProof};
ghost use Rattle.order_proof.specs.Ranges.{IsInRange};
ghost use Rattle.order_proof.specs.Text.{proof_text};
ghost use Rattle.order_proof.specs.Reading.{proof_end};

/// The text of a proof in range is read as a whole, whatever stands behind it.
pub fn what_is_written_is_read()
    ensures { (p : PlainProof) (behind : List ℕ) → IsInRange p → proof_end (proof_text p ++ behind) ≡ Ok (length (proof_text p)) }
{}

/// Two proofs in range with one text are one proof, and no text of a proof begins the text of another.
pub fn every_proof_has_one_spelling()
    ensures { (p q : PlainProof) (a b : List ℕ) → IsInRange p → IsInRange q → proof_text p ++ a ≡ proof_text q ++ b → (p ≡ q) × (a ≡ b) }
{}

/// Where reading stops before a line, no proof in range has its text at the front of the bytes.
pub fn no_proof_where_reading_stops()
    ensures { (bytes behind : List ℕ) (at : ℕ) (p : PlainProof) → proof_end bytes ≡ Err at → IsInRange p → bytes ≡ proof_text p ++ behind → ⊥ }
{}
