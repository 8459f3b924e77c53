//! Whether a reference has a scheme.
ghost use Rattle.std.specs.Prelude.{◌≡◌};
ghost use Rattle.iri_ref.specs.Scheme;
ghost use Rattle.iri_ref.specs.Scheme.{reaches_colon as colon_follows};

fn is_scheme_char(character: u8) -> bool
    ensures { result ≡ Scheme.is_scheme_char character }
{
    character.is_ascii_alphanumeric() || character == b'+' || character == b'-' || character == b'.'
}

fn reaches_colon(rest: &[u8]) -> bool
    ensures { result ≡ colon_follows rest.now }
{
    for character in rest {
        if *character == b':' {
            return true;
        }
        if !is_scheme_char(*character) {
            return false;
        }
    }
    false
}

/// Whether an IRI reference begins with a scheme and its colon (RFC 3986 section 3.1).
pub fn has_scheme(reference: &str) -> bool
    ensures { result ≡ Scheme.has_scheme reference.now }
{
    match reference.as_bytes() {
        [] => false,
        [first, rest @ ..] => first.is_ascii_alphabetic() && reaches_colon(rest),
    }
}
