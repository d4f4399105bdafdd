// What the parts of a pattern tell apart, as contracts: a crate that calls one of these has the facts.
ghost use Rattle.parts.specs.Told.{PartsTell};
ghost use Rattle.parts.specs.Wrong.{OnceWrong};

// Each kind of part tells finitely many classes apart; so each sound pattern leaves finitely many things, and fits into some number.
pub fn parts_tell()
    ensures { PartsTell }
{}

// What is easily got wrong about not, many, ranges, 'and' and words that leave the same, as facts about the definitions.
pub fn once_wrong_stands()
    ensures { OnceWrong }
{}
