//! How far a name of a class and dots reaches.
ghost use Rattle.std.specs.Prelude.{◌≡◌, ◌<◌, ◌≤◌, ◌^◌, length};
ghost use Rattle.rdf_lexical.specs.Names;

use crate::classes::Class;
use crate::slices::CharSlice;

/// How many characters of the class and dots the characters begin with, the last no dot.
pub fn name_length(class: Class, characters: &CharSlice<'_>) -> usize
    ensures value { result ≡ Names.name_length class characters.now }
    ensures bound { result ≤ length characters.now }
    ensures size { result < 2 ^ 63 }
{
    let mut kept = 0;
    let mut count = 0;
    let mut rest = characters.whole();
    while let Some((character, after)) = rest.split_first() {
        count += 1;
        if class.holds(character) {
            kept = count;
        } else if character != '.' {
            return kept;
        }
        rest = after;
    }
    kept
}
