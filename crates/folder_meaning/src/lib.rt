//! What a folder means, which folders a dump may leave, and how far a load has come, as definitions.
#![tactic(auto)]
