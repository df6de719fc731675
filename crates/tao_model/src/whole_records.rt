//! Laws: what a lawful record is, as a property of the whole list of events.
ghost use Rattle.tao_model.specs.WholeRecords.{LawfulMeans};

/// Following lawfully, event by event, is the same as being lawful as a whole.
pub fn lawful_means()
    ensures { LawfulMeans }
{}
