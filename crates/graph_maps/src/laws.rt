//! What definitions come to, as laws: of reading a certificate, of straightening, of moves, and of settings.

ghost use Rattle.std.specs.Prelude.{◌≡◌, ℕ, List, Ok, Err};
ghost use Rattle.map_base.specs.Settings.{Choices};
ghost use Rattle.map_method.specs.Methods.{MethodChoices};
ghost use Rattle.graph_core.specs.declared.parts.GraphParts.{GraphParts};
ghost use Rattle.cert_file.specs.Plain.{PlainCertificate};
ghost use Rattle.cert_file.specs.Readers.{IsTextOf};
ghost use Rattle.cert_file.specs.Reading.{certificate_end};
ghost use Rattle.graph_maps.specs.Subjects.{Subject};
ghost use Rattle.graph_maps.specs.Problems.{drawn_on, straightened_drawing, Drawn};
ghost use Rattle.graph_maps.specs.Solving.{SolvedPart};
ghost use Rattle.graph_maps.specs.Certificates.{certificate_of};
ghost use Rattle.graph_maps.specs.Moving.{after_moves, walks_after};
ghost use Rattle.graph_maps.specs.Making.{made_on};
ghost use Rattle.graph_maps.specs.Readings.{certificate_in};

/// The text of a certificate in range is read as that certificate.
pub fn each_certificate_is_read_from_its_text()
    ensures { (c : PlainCertificate) (bytes : List ℕ) → IsTextOf c bytes → certificate_in bytes ≡ Ok c }
{}

/// A text is refused where its first line begins that has not the form due there.
pub fn each_other_text_is_refused_at_its_first_wrong_line()
    ensures { (bytes : List ℕ) (at : ℕ) → certificate_end bytes ≡ Err at → certificate_in bytes ≡ Err at }
{}

/// Straightening changes the walks of a drawing alone: the problem of its line orders stays, and so does the cause why
/// there is none.
pub fn straightening_changes_walks_alone()
    ensures { (importance : List ℕ) (choices : Choices) (method : MethodChoices) (graph : GraphParts)
        → drawn_on importance choices method graph
        ≡ straightened_drawing choices method (drawn_on importance choices (record method { straight = 0 }) graph) }
{}

/// Moves change the walks of a certificate alone: its orders, their cost and their proof stay.
pub fn moves_change_walks_alone()
    ensures { (importance : List ℕ) (drawn : Drawn) (parts : List SolvedPart) (moves : ℕ)
        → certificate_of importance (after_moves moves drawn) parts
        ≡ record (certificate_of importance drawn parts) { walks = walks_after moves drawn.graph drawn.walks } }
{}

/// The map of a line graph depends on no settings but the weights, the cell and the budget.
pub fn maps_depend_on_three_settings()
    ensures { (subject : Subject) (some other : Choices) (method : MethodChoices) (graph : GraphParts)
        → some.weights ≡ other.weights → some.cell ≡ other.cell → some.budget ≡ other.budget
        → made_on subject some method graph ≡ made_on subject other method graph }
{}
