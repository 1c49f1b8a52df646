//! A view, and what is told of it. Nothing here runs: the contracts are the examples.
ghost use Rattle.honest_examples.specs.Views.{AViewIsShownWithItsSettings, WhatAViewNeedsIsTold};

/// A view's text is shown with its settings, and no server withholds it.
pub fn a_view_is_shown_with_its_settings()
    ensures { AViewIsShownWithItsSettings }
{}

/// A view is told beside each thing that it needs.
pub fn what_a_view_needs_is_told()
    ensures { WhatAViewNeedsIsTold }
{}
