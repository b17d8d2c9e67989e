// The scopes of members, and the numbers of what stands in content.
ghost use Rattle.std.specs.Prelude.{◌≡◌, IfOk};
ghost use Rattle.page_meaning.specs.Resolved as page;
ghost use Rattle.razor_rules.specs.Scopes as spec;
ghost use Rattle.frame_parts.specs.Views.{IsWhole, home_in};

use crate::site::Site;
use cs_ast::{CsType, Scope};
use razor_parts::names::member_names;
use razor_parts::numbers::plus;
use razor_parts::records::records_of;
use sqlite_items::Items;
use text_core::Oom;

/// The scope of initial values, in which no member may be named.
pub fn initial_scope(site: &Site<'_>) -> Result<Scope, Oom>
    requires whole { IsWhole site.now }
    ensures { IfOk result (λ scope. scope ≡ spec.initial_scope (home_in site.now)) }
{
    let alloc = site.home.alloc;
    Ok(Scope {
        names: Items::new(alloc),
        records: records_of(alloc, site.home.components)?,
        result: CsType::Nothing,
    })
}

/// The scope of the members.
pub fn member_scope(site: &Site<'_>) -> Result<Scope, Oom>
    requires whole { IsWhole site.now }
    ensures { IfOk result (λ scope. scope ≡ spec.member_scope (home_in site.now)) }
{
    let alloc = site.home.alloc;
    Ok(Scope {
        names: member_names(alloc, site.home.first, site.home.members)?,
        records: records_of(alloc, site.home.components)?,
        result: CsType::Nothing,
    })
}

/// The number of the body or the fragment that stands at a number of the content.
pub fn place_at(site: &Site<'_>, number: u32) -> Result<u32, Oom>
    ensures { IfOk result (λ place. place ≡ page.place_at (home_in site.now) number) }
{
    let members = u32::try_from(site.home.members.len()).map_err(|_| Oom)?;
    let behind = plus(site.home.first, members)?;
    plus(behind, number)
}
