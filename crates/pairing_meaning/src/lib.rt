//! What belongs together of two renderings of an instance, and what becomes of the nodes that show the first.
//!
//! There are definitions alone here: which items of an old and a new list of siblings pair, what edits have to make of the nodes
//! of the old ones, how many edits of each kind that takes, which component items stay, and which handlers keep their ids. What
//! finds the edits cites these, and what rests on them. Nothing here walks a tree.
#![tactic(auto)]
