//! What pages mean: the items that one rendering of an instance makes, under a budget of units, or the fault that it meets; and
//! the page that they show.
//!
//! There are definitions alone here, over the trees of components with their names. Nothing here runs.
#![tactic(auto)]
