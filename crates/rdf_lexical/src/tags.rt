//! How far a language tag reaches.
ghost use Rattle.std.specs.Prelude.{◌≡◌, ◌<◌, ◌≤◌, ◌^◌, false, length};
ghost use Rattle.rdf_lexical.specs.Tags;

use crate::classes::{Class, begins_with, run_length};
use crate::slices::CharSlice;

// How many characters of a LANGTAG follow its letters; whether a subtag has begun.
fn subtags_length(characters: &CharSlice<'_>) -> usize
    ensures value { result ≡ Tags.subtags_length false characters.now }
    ensures bound { result ≤ length characters.now }
{
    let mut inside = false;
    let mut count = 0;
    let mut rest = characters.whole();
    while let Some((character, after)) = rest.split_first() {
        let goes_on = inside && Class::LetterOrDigit.holds(character);
        let begins = character == '-' && begins_with(Class::LetterOrDigit, &after);
        if !goes_on && !begins {
            return count;
        }
        inside = true;
        count += 1;
        rest = after;
    }
    count
}

/// How many characters the longest LANGTAG has after its `@`; 0 where none begins.
pub fn tag_length(characters: &CharSlice<'_>) -> usize
    ensures value { result ≡ Tags.tag_length characters.now }
    ensures bound { result ≤ length characters.now }
    ensures size { result < 2 ^ 63 }
{
    let letters = run_length(Class::Letter, characters);
    if letters == 0 {
        0
    } else {
        letters + subtags_length(&characters.after(letters))
    }
}
