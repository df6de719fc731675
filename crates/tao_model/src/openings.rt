//! Laws: the words and the blocks determine the loaded tree.
ghost use Rattle.tao_model.specs.Openings.{OneOpening, OpensSo};

/// An opening that opens with its load has the computed tree.
pub fn one_opening()
    ensures { OneOpening }
{}

/// An opening with the computed tree opens with its load.
pub fn opens_so()
    ensures { OpensSo }
{}
