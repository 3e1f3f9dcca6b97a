//! A law of the definitions that contracts cite. The function is empty, and its contract is the law.
ghost use Rattle.reading_kinds.specs.Laws.{LackingSpell};

/// Some reading lacks a kind exactly if the substitutions that lack it spell the label.
pub fn lacking_substitutions_spell()
    ensures { LackingSpell }
{}
