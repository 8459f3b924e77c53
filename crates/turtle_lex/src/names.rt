//! How far prefixes and local names reach.
ghost use Rattle.std.specs.Prelude.{◌≡◌, ◌≤◌, length};
ghost use Rattle.turtle_lex.specs.Names;

use rdf_lexical::{CharSlice, Class, begins_with, name_length};

fn begins_with_pair(characters: &CharSlice<'_>) -> bool
    ensures { result ≡ Names.begins_with_pair characters.now }
{
    match characters.split_first() {
        Some((high, rest)) => {
            Class::Hexadecimal.holds(high) && begins_with(Class::Hexadecimal, &rest)
        }
        None => false,
    }
}

// How many characters of a local name stand for one: PN_CHARS, a colon or a PLX; 0 where none does.
fn local_piece(characters: &CharSlice<'_>) -> usize
    ensures value { result ≡ Names.local_piece characters.now }
    ensures bound { result ≤ length characters.now }
{
    match characters.split_first() {
        Some(('%', rest)) => { if begins_with_pair(&rest) { 3 } else { 0 } }
        Some(('\\', rest)) => {
            if begins_with(Class::LocalEscape, &rest) {
                2
            } else {
                0
            }
        }
        _ => {
            if begins_with(Class::NameOrColon, characters) {
                1
            } else {
                0
            }
        }
    }
}

// How many characters the longest run of such pieces and dots has that doesn't end in a dot.
fn local_run(characters: &CharSlice<'_>) -> usize
    ensures value { result ≡ Names.local_run 0 characters.now }
    ensures bound { result ≤ length characters.now }
{
    let mut kept = 0;
    let mut count = 0;
    let mut rest = characters.whole();
    while let Some((character, after)) = rest.split_first() {
        if Class::NameOrColon.holds(character) {
            count += 1;
            kept = count;
            rest = after;
        } else if character == '.' {
            count += 1;
            rest = after;
        } else {
            let piece = local_piece(&rest);
            if piece == 0 {
                return kept;
            }
            count += piece;
            kept = count;
            rest = rest.after(piece);
        }
    }
    kept
}

// How many characters the longest PN_LOCAL has; 0 where none begins here.
pub fn local_length(characters: &CharSlice<'_>) -> usize
    ensures value { result ≡ Names.local_length characters.now }
    ensures bound { result ≤ length characters.now }
{
    if begins_with(Class::LocalStart, characters) {
        local_run(characters)
    } else {
        0
    }
}

// How many characters the longest PN_PREFIX has; 0 where none begins here.
pub fn prefix_length(characters: &CharSlice<'_>) -> usize
    ensures value { result ≡ Names.prefix_length characters.now }
    ensures bound { result ≤ length characters.now }
{
    if begins_with(Class::NameStart, characters) {
        name_length(Class::Name, characters)
    } else {
        0
    }
}
