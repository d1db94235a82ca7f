//! Laws of script lines: what they say is well formed, and is taken by the world that they are read for.
ghost use Rattle.script_text.specs.Laws.{FormedLaw, OpeningLaw, TakenLaw};

/// What a script line says is well formed: each piece is one, and each operation and message is in its ranges.
pub fn formed()
    ensures { FormedLaw }
{}

/// A first line opens a world, and a later one is one that the world takes.
pub fn taken()
    ensures opening { OpeningLaw }
    ensures later { TakenLaw }
{}
