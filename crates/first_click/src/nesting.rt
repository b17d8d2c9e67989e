// How deep code nests.
ghost use Rattle.std.specs.Prelude.{◌≡◌, IfOk};
ghost use Rattle.first_click.specs.Nesting.{role_of, is_shallow};

use std::alloc::Global;
use text_core::{Oom, Txt};

/// The deepest nesting.
const DEPTH: u32 = 100;

/// What a token does to the nesting.
#[derive(Clone, Copy, Debug, PartialEq, Eq)]
pub enum Role {
    /// Opens a bracket, which counts one.
    Opening,
    Closing,
    /// An operator, which counts one in its bracket up to the next `;`.
    Joining,
    /// `;`
    Ending,
    Other,
}

fn role_of(token: &Txt) -> Role
    ensures { result ≡ role_of token.now }
{
    if token.is_one_of(&["{", "("]) {
        return Role::Opening;
    }
    if token.is_one_of(&["}", ")"]) {
        return Role::Closing;
    }
    if token.is_one_of(&["=", "+", "-", "*", "++", "--"]) {
        return Role::Joining;
    }
    if token.is(";") {
        return Role::Ending;
    }
    Role::Other
}

/// Whether no token nests too deep. Kept for each open bracket, the innermost last, are one and its operators since its
/// last `;`.
#[tactic(auto, unfolding(crate::specs::Nesting::is_shallow))]
pub fn is_shallow(alloc: Global, tokens: &[Txt]) -> Result<bool, Oom>
    ensures { IfOk result (λ shallow. shallow ≡ is_shallow tokens.now) }
{
    let mut counts: Vec<u32> = Vec::new(alloc);
    let mut total = 0u32;
    for token in tokens {
        match role_of(token) {
            Role::Opening => {
                counts.push(1)?;
                total += 1;
            }
            Role::Closing => {
                if let Some(count) = counts.pop() {
                    total -= count;
                }
            }
            Role::Joining => {
                if let Some(count) = counts.pop() {
                    counts.push(count + 1)?;
                    total += 1;
                }
            }
            Role::Ending => {
                if let Some(count) = counts.pop() {
                    counts.push(1)?;
                    total = total - count + 1;
                }
            }
            Role::Other => {}
        }
        if total > DEPTH {
            return Ok(false);
        }
    }
    Ok(true)
}
