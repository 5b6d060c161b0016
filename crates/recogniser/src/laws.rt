//! The law of first instances.

ghost use Rattle.recogniser.specs.Laws.{AtMostOneFirst};

/// At most one instance is the first that does a transfer: two searches that each give the first give the same.
pub fn at_most_one_first()
    ensures { AtMostOneFirst }
{}
