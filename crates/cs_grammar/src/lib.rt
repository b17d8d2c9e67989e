//! The grammar of C# code: which tokens spell which expressions, statements and members, and how deeply tokens nest.
//!
//! There are definitions alone here, which the contracts of the crates above cite. A relation holds between tokens, those
//! behind them, and a tree: the first up to the second spell the tree. That the grammar gives each list of tokens at
//! most one tree is proved where it is read.
#![tactic(auto)]
