//! The characters of the productions for terminals.
ghost use Rattle.std.specs.Prelude.{◌≡◌};
ghost use Rattle.rdf_lexical.specs.Characters;

/// Whether a character is LF or CR, which end a comment, and in N-Triples a line.
pub fn is_line_end(character: char) -> bool
    ensures { result ≡ Characters.is_line_end character }
{
    character == '\n' || character == '\r'
}

/// Whether a character is one of PN_CHARS_BASE (Turtle section 6.5).
pub fn is_pn_chars_base(character: char) -> bool
    ensures { result ≡ Characters.is_pn_chars_base character }
{
    matches!(
        character,
        'A'..='Z'
            | 'a'..='z'
            | '\u{C0}'..='\u{D6}'
            | '\u{D8}'..='\u{F6}'
            | '\u{F8}'..='\u{2FF}'
            | '\u{370}'..='\u{37D}'
            | '\u{37F}'..='\u{1FFF}'
            | '\u{200C}'..='\u{200D}'
            | '\u{2070}'..='\u{218F}'
            | '\u{2C00}'..='\u{2FEF}'
            | '\u{3001}'..='\u{D7FF}'
            | '\u{F900}'..='\u{FDCF}'
            | '\u{FDF0}'..='\u{FFFD}'
            | '\u{10000}'..='\u{EFFFF}'
    )
}

/// Whether a character is one of PN_CHARS_U (Turtle section 6.5). N-Triples has `:` there too.
pub fn is_pn_chars_u(character: char) -> bool
    ensures { result ≡ Characters.is_pn_chars_u character }
{
    is_pn_chars_base(character) || character == '_'
}

/// Whether a character is one of PN_CHARS (Turtle section 6.5). N-Triples has `:` there too.
pub fn is_pn_chars(character: char) -> bool
    ensures { result ≡ Characters.is_pn_chars character }
{
    is_pn_chars_u(character)
        || matches!(
            character,
            '-' | '0'..='9' | '\u{B7}' | '\u{300}'..='\u{36F}' | '\u{203F}'..='\u{2040}'
        )
}

/// Whether a character may stand in an IRIREF as itself (Turtle section 6.5).
pub fn is_iri_char(character: char) -> bool
    ensures { result ≡ Characters.is_iri_char character }
{
    let is_delimiter = matches!(
        character,
        '<' | '>' | '"' | '{' | '}' | '|' | '^' | '`' | '\\'
    );
    character > ' ' && !is_delimiter
}
