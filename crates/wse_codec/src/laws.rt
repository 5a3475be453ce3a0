// Laws over the spellings.
ghost use Rattle.wse_codec.specs.Laws.{IsOneSpelling};

/// No two lists of effects that are allowed share a spelling, and no two states.
pub fn one_spelling()
    ensures { IsOneSpelling }
{}
