//! What the merging of kept results is for.
ghost use Rattle.kept_rows.specs.Laws.{ListingLaw, MergeLaw};

/// Merged results are those of the graph after the changes that were checked.
pub fn merge_law()
    ensures { MergeLaw }
{}

/// Kept results give the listing of their graph.
pub fn listing_law()
    ensures { ListingLaw }
{}
