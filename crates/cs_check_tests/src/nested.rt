// Records in records: sixty, each with two parts of the next, are judged at once.
use crate::trees::{at, binary, ident, name, named};
use cs_ast::{Argument, BinaryOp, CsType, Member, MemberKind, NameKind, Scope, TypeExpr, TypeKind};
use cs_check::{CheckFault, ExprType, Rule, check_expr};
use sqlite_items::{Boxed, Items};
use std::alloc::Global;
use std::test::Fail;
use text_core::{Oom, Txt};

const DEPTH: u32 = 60;

fn record_name(alloc: Global, number: u32) -> Result<Txt, Oom> {
    let text = format!(in alloc; "R{number}")?;
    Txt::from_str(alloc, text.as_str())
}

fn part(alloc: Global, text: &str, cs_type: TypeExpr) -> Result<Argument, Oom> {
    let name = ident(alloc, 1, text)?;
    Ok(Argument { cs_type, name })
}

/// The type of the parts of a record: the next one, and behind the last a number, or a list of them.
fn part_type(alloc: Global, number: u32, of_lists: bool) -> Result<TypeExpr, Oom> {
    if number < DEPTH - 1 {
        let next = record_name(alloc, number + 1)?;
        return Ok(TypeExpr {
            place: at(1),
            kind: TypeKind::Named(next),
        });
    }
    let number = TypeExpr {
        place: at(1),
        kind: TypeKind::Int,
    };
    if !of_lists {
        return Ok(number);
    }
    let item = Boxed::new(alloc, number)?;
    Ok(TypeExpr {
        place: at(1),
        kind: TypeKind::List(item),
    })
}

/// `record R0(R1 A, R1 B);`, `record R1(R2 A, R2 B);` and so on.
fn records(alloc: Global, of_lists: bool) -> Result<Items<Member>, Oom> {
    let mut records = Items::new(alloc);
    for number in 0..DEPTH {
        let name = cs_ast::Ident {
            place: at(1),
            name: record_name(alloc, number)?,
        };
        let mut parts = Items::new(alloc);
        parts.push(part(alloc, "A", part_type(alloc, number, of_lists)?)?)?;
        parts.push(part(alloc, "B", part_type(alloc, number, of_lists)?)?)?;
        records.push(Member {
            place: at(1),
            kind: MemberKind::RecordDef { name, parts },
        })?;
    }
    Ok(records)
}

/// A scope with these records and a local a of the first.
fn scope(alloc: Global, of_lists: bool) -> Result<Scope, Oom> {
    let first = CsType::Rec(record_name(alloc, 0)?);
    let mut names = Items::new(alloc);
    names.push(named(alloc, "a", first, NameKind::Local, 0)?)?;
    Ok(Scope {
        names,
        records: records(alloc, of_lists)?,
        result: CsType::Nothing,
    })
}

#[test]
fn nested_records_are_compared(rt: HostRuntime) -> Result<(), Fail> {
    let alloc = rt.alloc();
    // a == a
    let both = binary(
        alloc,
        BinaryOp::Equal,
        name(alloc, 1, "a")?,
        name(alloc, 6, "a")?,
    )?;
    let x = check_expr(alloc, &both, &scope(alloc, false)?)?;
    assert!(rt; matches!(x.expr_type, ExprType::Of(CsType::Bool)));
    let refused = check_expr(alloc, &both, &scope(alloc, true)?);
    assert!(rt;
        matches!(
            refused,
            Err(CheckFault::Broken { rule: Rule::TypeMismatch, place }) if place.column == 6
        )
    );
    Ok(())
}
