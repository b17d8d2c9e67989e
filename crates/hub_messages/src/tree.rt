// The trees that screens show.
ghost use Rattle.std.specs.Prelude.{◌≡◌, ℕ, List, []};
ghost use Rattle.page_core.specs.declared.counts.Counts.{Counts};
ghost use Rattle.page_core.specs.declared.node.Node.{Node};

/// The trees that a screen may show, and what batches make of them.
pub trait Turns {
    /// The tree of a screen that has applied no batch.
    ghost first: { Self };

    /// The bytes take one tree to the other as the batch of this number, with these counts.
    ghost turns: { ℕ → List ℕ → Self → Self → Counts → Type 0 };

    /// The page that a tree shows.
    ghost page: { Self → List Node };

    ghost first_page: { page first ≡ [] };

    /// They take a tree to at most one tree.
    ghost one_tree: { (number : ℕ) (bytes : List ℕ) (before after other : Self) (counts others : Counts) →
        turns number bytes before after counts → turns number bytes before other others → after ≡ other };

    /// They do so with one list of counts.
    ghost one_count: { (number : ℕ) (bytes : List ℕ) (before after other : Self) (counts others : Counts) →
        turns number bytes before after counts → turns number bytes before other others → counts ≡ others };
}
