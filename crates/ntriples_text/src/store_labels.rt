//! The labels of the store.
ghost use Rattle.std.specs.Prelude.{◌≡◌, ◌<◌, nat_lt, length, slice_index};
ghost use Rattle.ntriples_text.specs.StoreLabels;

use rdf_model::Term;

// How many sessions there are at most.
const SESSIONS: u32 = 64;

// Whether a text begins with a character above `0`, as a number without a leading zero does.
fn begins_above_zero(text: &[u8]) -> bool
    ensures { result ≡ nat_lt 48 (slice_index text.now 0) }
{
    !text.is_empty() && text[0] > b'0'
}

// The number from 1 to the highest that the text is in decimal, without a leading zero.
fn number_within(highest: u32, text: &str) -> Option<u32>
    ensures { result ≡ StoreLabels.number_within highest text.now }
{
    if !begins_above_zero(text.as_bytes()) {
        return None;
    }
    match text.parse::<u32>() {
        Ok(number) => {
            if number <= highest {
                Some(number)
            } else {
                None
            }
        }
        Err(_) => None,
    }
}

// The blank node of these numbers of a session and within it.
fn node_of_numbers(session: &str, number: &str) -> Option<Term>
    ensures { result ≡ StoreLabels.node_of_numbers (StoreLabels.number_within 64 session.now) (StoreLabels.number_within 4294967295 number.now) }
{
    match (
        number_within(SESSIONS, session),
        number_within(u32::MAX, number),
    ) {
        (Some(session), Some(number)) => Some(Term::Blank { session, number }),
        _ => None,
    }
}

// The blank node of a label behind its `s`.
fn node_behind_s(text: &str) -> Option<Term>
    ensures { result ≡ StoreLabels.node_behind_s text.now }
{
    match text.split_once('x') {
        Some((session, number)) => node_of_numbers(session, number),
        None => None,
    }
}

/// The blank node of a label, without its `_:`, where it is one of the store's.
pub fn stored_node(label: &str) -> Option<Term>
    ensures { result ≡ StoreLabels.stored_node label.now }
{
    match label.strip_prefix('s') {
        Some(rest) => node_behind_s(rest),
        None => None,
    }
}
