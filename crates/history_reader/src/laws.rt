//! A printed order is read back.
ghost use Rattle.history_reader.specs.Laws.{ReadsBack};

/// The line that tells an order of sessions is read back as that order.
pub fn an_order_reads_back()
    ensures { ReadsBack }
{}
