//! What a user relies on of the versions of scripts. A function has a law as its contract, and does nothing.
ghost use Rattle.grb_form_laws.specs.Laws.{LaterFormsAreOfVersionThree};

/// Words have a form that version 3 adds, or options that read a second input transposed, in a script of version 3 alone. It does not say
/// that other words have the form that they had before there was a version 3.
///
/// Source: own.
pub fn later_forms_are_of_version_3()
    ensures { LaterFormsAreOfVersionThree }
{}
