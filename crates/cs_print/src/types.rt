// Writes types.
ghost use Rattle.std.specs.Prelude.{◌≡◌, ◌++◌, OnOk, option_map};
ghost use Rattle.cs_print.specs.Layout.{code_text};
ghost use Rattle.cs_print.specs.Printed.{of_type, generic, type_kinds, type_kind_kinds};

use crate::tokens::{push_name, push_sign, push_word};
use cs_ast::{TypeExpr, TypeKind};
use cs_token::{Sign, Word};
use sqlite_items::Boxed;
use text_core::{Oom, Txt};

#[cycle(types)]
#[tactic(auto, using(crate::proofs::PrintedLaws::type_law))]
pub fn push_type(out: &mut Txt, cs_type: &TypeExpr) -> Result<(), Oom>
    ensures { OnOk result (out.new ≡ out.old ++ code_text (type_kinds cs_type.now)) }
{
    push_kind(out, &cs_type.kind)
}

#[cycle(types)]
#[tactic(auto, using(crate::proofs::TextLaws::text_alone, crate::proofs::PrintedLaws::type_int, crate::proofs::PrintedLaws::type_bool, crate::proofs::PrintedLaws::type_text, crate::proofs::PrintedLaws::type_named, crate::proofs::PrintedLaws::type_list, crate::proofs::PrintedLaws::type_callback_any, crate::proofs::PrintedLaws::type_fragment_any, crate::proofs::PrintedLaws::type_change, crate::proofs::PrintedLaws::type_args))]
fn push_kind(out: &mut Txt, kind: &TypeKind) -> Result<(), Oom>
    ensures { OnOk result (out.new ≡ out.old ++ code_text (type_kind_kinds kind.now)) }
{
    match kind {
        TypeKind::Int => push_word(out, Word::Int),
        TypeKind::Bool => push_word(out, Word::Bool),
        TypeKind::Text => push_word(out, Word::String),
        TypeKind::Named(name) => push_name(out, name),
        TypeKind::List(item) => push_type_of(out, Word::ImmutableList, item.get()),
        TypeKind::Callback(item) => push_generic(out, Word::EventCallback, item),
        TypeKind::Fragment(item) => push_generic(out, Word::RenderFragment, item),
        TypeKind::Change => push_word(out, Word::ChangeEventArgs),
        TypeKind::Args => push_word(out, Word::EventArgs),
    }
}

/// A type in the brackets of another.
#[cycle(types)]
#[tactic(auto, using(crate::proofs::TextLaws::text_then, crate::proofs::TextLaws::text_behind, crate::proofs::TextLaws::text_alone))]
pub fn push_type_of(out: &mut Txt, word: Word, item: &TypeExpr) -> Result<(), Oom>
    ensures { OnOk result (out.new ≡ out.old ++ code_text (of_type word (type_kinds item.now))) }
{
    push_word(out, word)?;
    push_sign(out, Sign::Less)?;
    push_type(out, item)?;
    push_sign(out, Sign::Greater)
}

/// The same, where there may be none in its brackets.
#[cycle(types)]
#[tactic(auto, using(crate::proofs::TextLaws::text_alone))]
fn push_generic(out: &mut Txt, word: Word, item: &Option<Boxed<TypeExpr>>) -> Result<(), Oom>
    ensures { OnOk result (out.new ≡ out.old ++ code_text (generic word (option_map type_kinds item.now))) }
{
    match item {
        None => push_word(out, word),
        Some(item) => push_type_of(out, word, item.get()),
    }
}
