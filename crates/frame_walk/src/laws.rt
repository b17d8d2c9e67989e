// What a walk makes of the ids of handlers.
ghost use Rattle.std.specs.Prelude.{◌≡◌, ℕ, ◌<◌, List, length, map};
ghost use Rattle.frame_core.specs.declared.item.Item.{Item};
ghost use Rattle.frame_core.specs.declared.item_attribute.ItemHandler.{ItemHandler};
ghost use Rattle.handler_ids.specs.History.{Past};
ghost use Rattle.pairing_meaning.specs.Slots.{slots_of};
ghost use Rattle.pairing_meaning.specs.Handlers.{HandlerAt, Keeps};
ghost use Rattle.item_edits.specs.Renderings.{AllClear};
ghost use Rattle.frame_walk.specs.Ids.{bare};
ghost use Rattle.frame_walk.specs.Keeping.{Walks};

/// Does nothing. By what `walk` promises of its items and ids, a handler has the id of the handler that it pairs with, and each
/// handler without such a pair has an id above all that were given before.
pub fn handlers_have_the_ids_of_their_pairs()
    ensures keeps { (batch released : ℕ) (olds news walked : List Item) (gone : List ℕ) (history last : List Past) → AllClear olds → map bare walked ≡ map bare news → Walks batch released olds news walked gone history last
        → (way name : List ℕ) (new old : ItemHandler) → HandlerAt (slots_of walked) way name new → Keeps (slots_of olds) (slots_of walked) way name new old → new.id ≡ old.id }
    ensures gives { (batch released : ℕ) (olds news walked : List Item) (gone : List ℕ) (history last : List Past) → AllClear olds → map bare walked ≡ map bare news → Walks batch released olds news walked gone history last
        → (way name : List ℕ) (new : ItemHandler) → HandlerAt (slots_of walked) way name new → ((old : ItemHandler) → Keeps (slots_of olds) (slots_of walked) way name new old → ⊥) → length history < new.id }
{}
