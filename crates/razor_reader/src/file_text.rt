// From a file's name to a stem, and from its text to the text that is read.
ghost use Rattle.std.specs.Prelude.{◌≡◌, ◌+◌, ◌<◌, ◌^◌, IfOk, IfSome, position, length, drop};
ghost use Rattle.razor_ast.specs.FileTexts as texts;
ghost use Rattle.razor_reader.specs.FileReading as spec;

use std::alloc::Global;
use text_core::{Oom, Txt};

/// Where the first `/` stands.
fn first_slash(name: &[char]) -> Option<usize>
    ensures first { result ≡ position spec.is_slash name.now }
    ensures within { IfSome result (λ at. at < length name.now) }
    ensures fits { IfSome result (λ at. at + 1 < 2 ^ 64) }
{
    name.iter().position(|c| *c == '/')
}

/// What stands behind this character.
fn past(name: &[char], at: usize) -> &[char]
    requires within { at < length name.now }
    requires fits { at + 1 < 2 ^ 64 }
    ensures { result.now ≡ drop (at + 1) name.now }
{
    let (_, behind) = name.split_at(at + 1);
    behind
}

/// What stands behind the last `/`, or all where there is none.
fn behind_slash(name: &[char]) -> &[char]
    ensures { result.now ≡ texts.behind_slash name.now }
{
    let mut base = name;
    while let Some(slash) = first_slash(base) {
        base = past(base, slash);
    }
    base
}

/// The text of these characters.
fn text_of(alloc: Global, characters: &[char]) -> Result<Txt, Oom>
    ensures { IfOk result (λ text. text ≡ characters.now) }
{
    let mut text = Txt::new(alloc);
    for character in characters {
        text.push(*character)?;
    }
    Ok(text)
}

/// The stem of a file's name: what stands behind its last `/` and before `.razor`, or nothing where it doesn't end so.
#[tactic(auto, unfolding(razor_ast::specs::FileTexts::stem))]
pub fn stem(alloc: Global, name: &Txt) -> Result<Txt, Oom>
    ensures { IfOk result (λ text. text ≡ texts.stem name.now) }
{
    let characters = name.to_chars(alloc)?;
    match behind_slash(&characters).strip_suffix(&['.', 'r', 'a', 'z', 'o', 'r']) {
        Some(front) => text_of(alloc, front),
        None => Ok(Txt::new(alloc)),
    }
}

/// The characters without a mark U+FEFF at their head.
fn without_mark(characters: &[char]) -> &[char]
    ensures { result.now ≡ texts.without_mark characters.now }
{
    match characters {
        [first, rest @ ..] if *first == '\u{feff}' => rest,
        _ => characters,
    }
}

/// Whether a line feed stands first.
fn begins_feed(characters: &[char]) -> bool
    ensures { result ≡ spec.begins_feed characters.now }
{
    match characters {
        [first, ..] => *first == '\n',
        [] => false,
    }
}

/// The characters without carriage returns before line feeds.
fn with_feeds(alloc: Global, characters: &[char]) -> Result<Txt, Oom>
    ensures { IfOk result (λ text. text ≡ texts.with_feeds characters.now) }
{
    let mut text = Txt::new(alloc);
    let mut rest = characters;
    while let [first, behind @ ..] = rest {
        if !(*first == '\r' && begins_feed(behind)) {
            text.push(*first)?;
        }
        rest = behind;
    }
    Ok(text)
}

/// The text as it is read: without a mark at its head, and with a line feed alone at the end of each line.
#[tactic(auto, unfolding(razor_ast::specs::FileTexts::text_read))]
pub fn text_read(alloc: Global, text: &Txt) -> Result<Txt, Oom>
    ensures { IfOk result (λ read. read ≡ texts.text_read text.now) }
{
    let characters = text.to_chars(alloc)?;
    with_feeds(alloc, without_mark(&characters))
}
