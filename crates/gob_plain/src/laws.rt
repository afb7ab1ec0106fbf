//! Laws of what is written. Each function does nothing: its contract is a law that is proved here, once.

ghost use Rattle.gob_plain.specs.FilledLaws.{HaveOneTidyForm, ZerosHoldNoNils};
ghost use Rattle.gob_plain.specs.HeldPlainLaws.{SayAsEver};

/// Putting zeros back changes nothing that the tidy form keeps: a value with its zeros and the value without them have
/// the same tidy form.
pub fn zeros_are_what_tidying_drops()
    ensures { HaveOneTidyForm }
{}

/// A value with its zeros has as many nils as the value without them: no zero is nil.
pub fn zeros_hold_no_nils()
    ensures { ZerosHoldNoNils }
{}

/// A value of which no interface holds another is shown as ever, and tagged or not.
pub fn values_that_hold_nothing_are_plain()
    ensures { SayAsEver }
{}
