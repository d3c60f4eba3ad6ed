//! Laws of the forms of statements, over the definitions that readers of scripts are held to. No crate stands on them.
#![tactic(auto)]

mod laws;

pub use laws::later_forms_are_of_version_3;
