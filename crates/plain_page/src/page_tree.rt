// The trees that plain screens show.
use hub_messages::Turns;
use page_core::Page;

/// The tree that a plain screen shows: a page.
#[derive(Debug, Drop)]
pub struct PageTree {
    pub page: Page,
}

impl Turns for PageTree {
    ghost use Rattle.std.specs.Prelude.{[], refl};
    ghost use Rattle.plain_page.specs.Turning.{Turned};
    ghost use Rattle.plain_page.specs.Laws.Turning.{one_tree as one_tree_lem, one_count as one_count_lem};

    ghost first = { record { page = record { nodes = [] } } };

    ghost turns = { Turned };

    ghost page = { λ tree. tree.page.nodes };

    ghost first_page = { refl };

    ghost one_tree = { one_tree_lem };

    ghost one_count = { one_count_lem };
}
