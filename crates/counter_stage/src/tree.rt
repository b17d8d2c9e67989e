// The trees of a counter's screen.
use hub_messages::Turns;

/// What a counter's screen shows.
#[derive(Clone, Copy, Debug, PartialEq, Eq)]
pub enum CounterTree {
    /// Nothing yet.
    Blank,
    /// A button with this number.
    Shows(u8),
}

impl Turns for CounterTree {
    ghost use Rattle.std.specs.Prelude.{refl};
    ghost use Rattle.counter_stage.specs.declared.tree.CounterTree.TheVariants.{Blank};
    ghost use Rattle.counter_stage.specs.Tree.{Turned, page_of};
    ghost use Rattle.counter_stage.specs.Laws.{one_tree, one_count};

    ghost first = { Blank };

    ghost turns = { Turned };

    ghost page = { page_of };

    ghost first_page = { refl };

    ghost one_tree = { one_tree };

    ghost one_count = { one_count };
}
