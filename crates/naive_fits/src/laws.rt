//! Laws of the operations that a function's naive code is made of.

ghost use Rattle.naive_fits.specs.Labels.{AllLabelsAreOnce, LabelsAreOnce, LabelsAreOwn};
ghost use Rattle.naive_fits.specs.Bounds.{LimitsBound};
ghost use Rattle.naive_fits.specs.Fitting.{OperationsFit};
ghost use Rattle.naive_fits.specs.Example.{PremisesAreMet};

/// Each label of a function is opened once.
pub fn labels_are_once()
    ensures { LabelsAreOnce }
{}

/// The labels of a function are those from its first block's on, as many as it takes.
pub fn labels_are_own()
    ensures { LabelsAreOwn }
{}

/// No two blocks of functions that follow each other have one label.
pub fn all_labels_are_once()
    ensures { AllLabelsAreOnce }
{}

/// A source within the limits has no frame that offsets don't reach, and few functions and objects.
pub fn limits_bound()
    ensures { LimitsBound }
{}

/// Each operation of a sound function can be made: its numbers fit the shapes, and its operators are there.
pub fn operations_fit()
    ensures { OperationsFit }
{}

/// A source of one function meets the premises.
pub fn premises_are_met()
    ensures { PremisesAreMet }
{}
