// Messages to the server, as bytes.
ghost use Rattle.std.specs.Prelude.{◌++◌, List, [], ◌∷◌, IfOk, OnOk};
ghost use Rattle.hub_messages.specs.declared.up.Up.{Up};
ghost use Rattle.client_core.specs.Pieces.{SpellAll, IsShort};

use hub_messages::{Up, encode_up};
use std::alloc::Global;
use text_core::Oom;

/// Messages to the server as bytes, in the order in which they are sent.
pub type Ups = Vec<Vec<u8>>;

/// Adds a message at the end.
pub fn add(alloc: Global, ups: &mut Ups, up: &Up) -> Result<(), Oom>
    requires { IsShort up.now }
    ensures { (before : List Up) → SpellAll ups.old before
        → OnOk result (SpellAll ups.new (before ++ up.now ∷ [])) }
{
    ups.push(encode_up(alloc, up)?)?;
    Ok(())
}

/// The one message.
pub fn one(alloc: Global, up: &Up) -> Result<Ups, Oom>
    requires { IsShort up.now }
    ensures { IfOk result (λ ups. SpellAll ups (up.now ∷ [])) }
{
    let mut ups = Vec::new(alloc);
    add(alloc, &mut ups, up)?;
    Ok(ups)
}
