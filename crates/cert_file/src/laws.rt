//! What the definitions of the text and of its reading come to, as laws.

ghost use Rattle.std.specs.Prelude.{◌≡◌, ℕ, List, length, Ok, Err};
ghost use Rattle.cert_file.specs.Plain.{PlainCertificate};
ghost use Rattle.cert_file.specs.Ranges.{IsInRange};
ghost use Rattle.cert_file.specs.Text.{certificate_text};
ghost use Rattle.cert_file.specs.Reading.{certificate_end};

/// The text of a certificate in range is read as a whole.
pub fn what_is_written_is_read()
    ensures { (c : PlainCertificate) → IsInRange c → certificate_end (certificate_text c) ≡ Ok (length (certificate_text c)) }
{}

/// Two certificates in range with one text are one certificate.
pub fn every_certificate_has_one_spelling()
    ensures { (c d : PlainCertificate) → IsInRange c → IsInRange d → certificate_text c ≡ certificate_text d → c ≡ d }
{}

/// Where reading stops before a line, or before its end, the text is no certificate's in range.
pub fn no_certificate_where_reading_stops()
    ensures { (bytes : List ℕ) (at : ℕ) (c : PlainCertificate) → certificate_end bytes ≡ Err at → IsInRange c → bytes ≡ certificate_text c → ⊥ }
{}
