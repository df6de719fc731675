//! A law of exchanges.
ghost use Rattle.tao_holdings.specs.Laws.{ExchangedBack};

/// Exchanging twice leaves all as it was.
pub fn exchanged_back()
    ensures { ExchangedBack }
{}
