ghost use Rattle.script_model.specs.Laws.{ReadingKeepsLimits, ReadingResolves};

/// Whatever a checked script names is there, and of the kind that is wanted.
pub fn reading_resolves()
    ensures { ReadingResolves }
{}

/// A checked script has at most 1,024 guardians, each with at most 1,024 objects.
pub fn reading_keeps_limits()
    ensures { ReadingKeepsLimits }
{}
