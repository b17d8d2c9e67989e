// The one event that plain pages know.
ghost use Rattle.std.specs.Prelude.{◌≡◌, codes, IfOk};
ghost use Rattle.plain_page.specs.Click.{onclick};

use std::alloc::Global;
use text_core::{Oom, Txt};

/// The name of a click's event.
pub(crate) fn click(alloc: Global) -> Result<Txt, Oom>
    ensures { IfOk result (λ name. name ≡ onclick) }
{
    let mut name = Txt::new(alloc);
    name.push_str("onclick")?;
    Ok(name)
}
