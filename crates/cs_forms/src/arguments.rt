// Values where others are wanted: arguments, and parts behind `with`.
ghost use Rattle.std.specs.Prelude.{◌≡◌, [], ◌∷◌, ◌++◌, map, IfOk, OnOk};
ghost use Rattle.cs_ast.specs.declared.code.Code.TheVariants as code_by;
ghost use Rattle.cs_rules.specs.Judged.{fine};
ghost use Rattle.cs_rules.specs.Expressions as spec;
ghost use Rattle.cs_forms.specs.Agrees.{Agrees};
ghost use Rattle.cs_forms.specs.Views.{replaced_view};

use crate::CheckFault;
use crate::fault::mismatch;
use crate::types::{code_of, typed, wants};
use cs_ast::{Code, CsType};
use cs_rules::Checked;
use sqlite_items::{Boxed, Items};
use std::alloc::Global;
use text_core::{Oom, Place};

/// A new value of a part: the position and the type of the part, and the value.
#[derive(Drop)]
pub struct Replacing {
    pub number: u32,
    pub wanted: CsType,
    pub value: Boxed<Checked>,
}

/// New values of parts, in order.
#[derive(Drop)]
pub struct Replaced {
    pub positions: Items<u32>,
    pub wanted: Items<CsType>,
    pub values: Vec<Boxed<Checked>>,
}

impl Replaced {
    /// One more behind the others.
    pub fn push(&mut self, one: Replacing) -> Result<(), Oom>
        ensures { OnOk result (replaced_view self.new ≡ record {
          positions = self.old.positions ++ one.number ∷ [];
          wanted = self.old.wanted ++ one.wanted ∷ [];
          values = self.old.values.items ++ one.value ∷ [];
        }) }
    {
        let Replacing {
            number,
            wanted,
            value,
        } = one;
        self.positions.push(number)?;
        self.wanted.push(wanted)?;
        self.values.push(value)?;
        Ok(())
    }
}

/// Refuses the first value that does not fit where it is wanted.
fn all_fit(wanted: &[CsType], xs: &[Boxed<Checked>]) -> Result<(), CheckFault>
    ensures { Agrees result (spec.all_fit wanted.now xs.now) }
{
    let mut types = wanted;
    let mut values = xs;
    while let Some((cs_type, other_types)) = types.split_first() {
        let Some((x, other_values)) = values.split_first() else {
            return Ok(());
        };
        let x = x.get();
        wants(cs_type, x.place, &x.expr_type)?;
        types = other_types;
        values = other_values;
    }
    Ok(())
}

fn codes_of(alloc: Global, xs: Vec<Boxed<Checked>>) -> Result<Items<Code>, Oom>
    ensures { IfOk result (λ codes. codes ≡ map (λ x. x.code) xs.items) }
{
    let codes = xs.into_iter().map(|x| code_of(x)).collect(alloc)?;
    Ok(Items::from_vec(codes))
}

/// The codes of arguments, as many as are wanted, each fitting.
#[tactic(auto, unfolding(cs_rules::specs::Expressions::passed))]
pub fn passed(
    alloc: Global,
    place: Place,
    takes: &[CsType],
    xs: Vec<Boxed<Checked>>,
) -> Result<Items<Code>, CheckFault>
    ensures { Agrees result (spec.passed place takes.now xs.items) }
{
    if takes.len() != xs.len() {
        return Err(mismatch(place));
    }
    all_fit(takes, xs.as_slice())?;
    Ok(codes_of(alloc, xs)?)
}

/// A record with new values of parts, by their codes.
fn changed(
    alloc: Global,
    x: Boxed<Checked>,
    positions: Items<u32>,
    codes: Items<Code>,
    place: Place,
) -> Result<Boxed<Checked>, CheckFault>
    ensures { Agrees result (fine (record { place = place; code = code_by.With x.code positions codes; expr_type = x.expr_type })) }
{
    let Checked {
        code,
        expr_type,
        ..
    } = x.into_inner();
    let expr_type = Boxed::new(alloc, expr_type)?;
    let record = Boxed::new(alloc, code)?;
    typed(
        alloc,
        place,
        Code::With(record, positions, codes),
        expr_type,
    )
}

/// A record with new values of parts.
#[tactic(auto, unfolding(cs_rules::specs::Expressions::with_replaced))]
pub fn with_replaced(
    alloc: Global,
    x: Boxed<Checked>,
    replaced: Replaced,
    place: Place,
) -> Result<Boxed<Checked>, CheckFault>
    ensures { Agrees result (spec.with_replaced x place (replaced_view replaced)) }
{
    all_fit(replaced.wanted.as_slice(), replaced.values.as_slice())?;
    let Replaced {
        positions,
        values,
        ..
    } = replaced;
    let codes = codes_of(alloc, values)?;
    changed(alloc, x, positions, codes, place)
}
