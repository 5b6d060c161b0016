//! What a greater bound shows, and what operators give. The functions do nothing: each promises a law.

ghost use Rattle.c_meaning.specs.Agreement.{OperatorsAgree};
ghost use Rattle.c_meaning.specs.Laws.{EndedIsClean, EndsStand, FailuresStand, OutputGrows, SourceIsRun};

/// What ended within a bound ends alike within each greater one.
pub fn ends_stand()
    ensures { EndsStand }
{}

/// What failed within a bound, by an undefined act or over its stack, fails alike within each
/// greater one.
pub fn failures_stand()
    ensures { FailuresStand }
{}

/// What is printed within a bound is the beginning of what is printed within each greater one.
pub fn output_grows()
    ensures { OutputGrows }
{}

/// A source is a run in the sense of all that is said of runs.
pub fn source_is_run()
    ensures { SourceIsRun }
{}

/// A source that ends does nothing undefined, and its stack suffices.
pub fn ended_is_clean()
    ensures { EndedIsClean }
{}

/// A constant expression has a value just where a run does nothing undefined, and it is the same.
pub fn operators_agree()
    ensures { OperatorsAgree }
{}
