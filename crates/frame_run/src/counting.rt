// Items that are begun. A rendering has only so many items and bytes, and none of its items lies too deep.
ghost use Rattle.std.specs.Prelude.{◌≡◌, ◌+◌, ◌<◌, ◌≤◌, ◌^◌, IfOk};
ghost use Rattle.cs_meaning.specs.State.{Fields};
ghost use Rattle.drawing_meaning.specs.Drawing as spec;
ghost use Rattle.frame_run.specs.Agrees.{Agrees, AgreesAs, reached};

use crate::exit::Exit;
use crate::progress::Progress;
use drawing_meaning::PageFault;
use text_core::Txt;

const MOST_ITEMS: u64 = 100_000;

const MOST_BYTES: u64 = 8_388_608;

const DEEPEST: u32 = 1000;

/// How many bytes a text has.
pub(crate) fn bytes_in(text: &Txt) -> u64
    ensures count { result ≡ spec.bytes_of text.now }
    ensures few { result < 2 ^ 63 }
{
    text.as_str().len() as u64
}

/// Begins an item that is no component, with so many bytes.
#[tactic(auto, unfolding(drawing_meaning::specs::Drawing::begun))]
pub(crate) fn begun(bytes: u64, progress: &mut Progress) -> Result<(), Exit>
    ensures means { (fields : Fields) → AgreesAs (λ _. tt) result (reached progress.new fields) (spec.begun bytes (reached progress.old fields)) }
    ensures left { progress.new.left ≡ progress.old.left }
    ensures some { IfOk result (λ _. 0 < progress.new.others) }
    ensures few { IfOk result (λ _. progress.new.others + progress.new.components ≤ 100000) }
{
    let items = u64::from(progress.others) + u64::from(progress.components) + 1;
    if items > MOST_ITEMS {
        return Err(Exit::Fault(PageFault::PageTooLarge));
    }
    let bytes = progress.bytes.saturating_add(bytes);
    if bytes > MOST_BYTES {
        return Err(Exit::Fault(PageFault::PageTooLarge));
    }
    progress.others += 1;
    progress.bytes = bytes;
    Ok(())
}

/// The same for an element, a text or markup, at a depth in the page.
#[tactic(auto, unfolding(drawing_meaning::specs::Drawing::begun_at))]
pub(crate) fn begun_at(depth: u32, bytes: u64, progress: &mut Progress) -> Result<(), Exit>
    ensures means { (fields : Fields) → AgreesAs (λ _. tt) result (reached progress.new fields) (spec.begun_at depth bytes (reached progress.old fields)) }
    ensures left { progress.new.left ≡ progress.old.left }
    ensures within { IfOk result (λ _. depth ≤ 1000) }
{
    if depth > DEEPEST {
        return Err(Exit::Fault(PageFault::PageTooLarge));
    }
    begun(bytes, progress)
}

/// Begins a component, and gives its place among those of the rendering.
#[tactic(auto, unfolding(drawing_meaning::specs::Drawing::component_begun))]
pub(crate) fn component_begun(progress: &mut Progress) -> Result<u32, Exit>
    ensures means { (fields : Fields) → Agrees result (reached progress.new fields) (spec.component_begun (reached progress.old fields)) }
    ensures left { progress.new.left ≡ progress.old.left }
{
    begun(0, progress)?;
    let order = progress.components;
    progress.others -= 1;
    progress.components += 1;
    Ok(order)
}
