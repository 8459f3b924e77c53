//! What changes of a data graph can alter in its validation, and for which other graphs a check of them stands.
//!
//! Each function promises a law of the definitions, and does nothing. A pair of a shape and a focus node that no changed triple
//! touches gives the same results afterwards, so the results of a graph after changes are those of its untouched pairs before and
//! those of the touched ones after them. What was found of the touched ones holds in each graph that agrees on the looks that
//! were made.
//!
//! Storey: laws.
#![tactic(auto)]

ghost use Rattle.change_laws.specs.Laws.{BackReadsLaw, CheckedLaw, CheckedListingLaw, CheckedMergeLaw, FootprintLaw, KeptListingLaw, MembersLaw, MergeLaw, NewListingLaw, UntouchedLaw, WayLaw};

/// A way that is one path after another is walked as their sequence.
pub fn way_law()
    ensures { WayLaw }
{}

/// The looks of the way back along a way are those of the sequence walked backwards.
pub fn back_reads_law()
    ensures { BackReadsLaw }
{}

/// A pair that no change touches gives the same afterwards.
pub fn untouched_law()
    ensures { UntouchedLaw }
{}

/// What a check found stands for each graph that agrees with its footprint.
pub fn footprint_law()
    ensures { FootprintLaw }
{}

/// The kept rows of pairs that aren't touched, with the new rows of those that are, are the kept rows afterwards.
pub fn merge_law()
    ensures { MergeLaw }
{}

/// The rows that are kept are the listing.
pub fn kept_listing_law()
    ensures { KeptListingLaw }
{}

/// Where there was no result, the new rows of touched pairs are the listing.
pub fn new_listing_law()
    ensures { NewListingLaw }
{}

/// What was kept of a check stands for each graph that agrees with its footprint.
pub fn checked_law()
    ensures { CheckedLaw }
{}

/// The kept rows of other pairs with the rows of the checked ones are those to be kept.
pub fn checked_merge_law()
    ensures { CheckedMergeLaw }
{}

/// Where there was no result, the rows of the checked pairs are the listing.
pub fn checked_listing_law()
    ensures { CheckedListingLaw }
{}

/// The order of a graph's triples is no matter.
pub fn members_law()
    ensures { MembersLaw }
{}
