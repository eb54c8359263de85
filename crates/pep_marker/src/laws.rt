//! Laws of the definitions.

ghost use Rattle.std.specs.Prelude.{◌≡◌, ◌++◌, ℕ, List};
ghost use Rattle.pep_marker.specs.declared.environment.Variable.{Variable};
ghost use Rattle.pep_marker.specs.Environment.{EnvironmentParts, IsEnvironment};
ghost use Rattle.pep_marker.specs.Header.{header, header_value};
ghost use Rattle.pep_marker.specs.Holds.{Evaluates, Truth};
ghost use Rattle.pep_marker.specs.Marker.{IsMarker, MarkerParts};
ghost use Rattle.pep_marker.specs.MarkerText.{marker_text};

/// A marker has at most one truth in an environment: true, false or undefined (PEP 508,
/// "Environment Markers").
pub fn one_truth()
    ensures { (e : EnvironmentParts) (m : MarkerParts) (p q : Truth) → Evaluates e m p
        → Evaluates e m q → p ≡ q }
{}

/// A text is read as at most one marker (PEP 508, "Grammar").
pub fn one_marker()
    ensures { (text : List ℕ) (m n : MarkerParts) → IsMarker text m → IsMarker text n → m ≡ n }
{}

/// A marker that is read from some text is read back from its own: with `one_marker`, from no other
/// marker's.
pub fn marker_text_is_read()
    ensures { (text : List ℕ) (m : MarkerParts) → IsMarker text m → IsMarker (marker_text m) m }
{}

/// Two environments with one header have the same texts, but for the spelling of `extra`, and the
/// same truth of each marker. Texts that begin with headers begin with one where they are one text,
/// and then go on alike.
pub fn one_header()
    ensures headers { (e f : EnvironmentParts) (a b : List ℕ) → IsEnvironment e → IsEnvironment f
        → header e ++ a ≡ header f ++ b → (header e ≡ header f) × (a ≡ b) }
    ensures values { (e f : EnvironmentParts) → IsEnvironment e → IsEnvironment f
        → header e ≡ header f → (v : Variable) → header_value e v ≡ header_value f v }
    ensures markers { (e f : EnvironmentParts) → IsEnvironment e → IsEnvironment f
        → header e ≡ header f → (m : MarkerParts) (t : Truth) → Evaluates e m t → Evaluates f m t }
{}
