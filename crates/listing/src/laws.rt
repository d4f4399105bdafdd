// What holds of searching for a list, as a contract.
ghost use Rattle.listing.specs.Listed.{SearchLaws};

// What a search need not tell apart is what the bits don't tell apart; no list fits into no class.
pub fn search_laws_stand()
    ensures { SearchLaws }
{}
