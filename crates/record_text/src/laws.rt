// The law of the texts of records.
ghost use Rattle.record_text.specs.Records.{TextsAreApart};

/// No text is that of two records with one number, whatever records can be read.
pub fn a_text_is_one_record()
    ensures { TextsAreApart }
{}
