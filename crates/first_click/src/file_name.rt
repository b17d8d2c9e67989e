// The name that a component's file has.
ghost use Rattle.std.specs.Prelude.{◌≡◌, ◌↔◌, ◌+◌, ◌<◌, ◌^◌, IsTrue, IfSome, position};
ghost use Rattle.first_click.specs.FileName.{is_slash, base_name, is_component_name, NamesComponent};

use super::characters::{Class, are_all, begins};

/// Where the first `/` stands.
fn first_slash(path: &[u8]) -> Option<usize>
    ensures first { result ≡ position is_slash path.now }
    ensures fits { IfSome result (λ at. at + 1 < 2 ^ 64) }
{
    path.iter().position(|byte| *byte == b'/')
}

/// What stands behind the last `/`, or all where there is none.
fn base_name(path: &[u8]) -> &[u8]
    ensures { result.now ≡ base_name path.now }
{
    let mut base = path;
    while let Some(slash) = first_slash(base) {
        base = &base[slash + 1..];
    }
    base
}

/// Whether a component may have the name.
fn is_component_name(name: &[u8]) -> bool
    ensures { result ≡ is_component_name name.now }
{
    begins(Class::Upper, name) && are_all(Class::Word, name) && name != b"CascadingValue".as_slice()
}

/// Whether the path, as UTF-8, is that of a component's file.
pub fn names_component(path: &[u8]) -> bool
    ensures { IsTrue result ↔ NamesComponent path.now }
{
    match base_name(path).strip_suffix(b".razor") {
        Some(name) => is_component_name(name),
        None => false,
    }
}
