//! White space and comments.
ghost use Rattle.std.specs.Prelude.{◌≡◌, ◌≤◌, false, length};
ghost use Rattle.turtle_lex.specs.Blanks;

use rdf_lexical::{CharSlice, is_line_end};

// How many characters white space and comments have before anything else.
pub fn blank_length(characters: &CharSlice<'_>) -> usize
    ensures value { result ≡ Blanks.blank_length false characters.now }
    ensures bound { result ≤ length characters.now }
{
    let mut in_comment = false;
    let mut count = 0;
    let mut rest = characters.whole();
    while let Some((character, after)) = rest.split_first() {
        if in_comment {
            in_comment = !is_line_end(character);
        } else if character == '#' {
            in_comment = true;
        } else if !matches!(character, ' ' | '\t' | '\n' | '\r') {
            return count;
        }
        count += 1;
        rest = after;
    }
    count
}
