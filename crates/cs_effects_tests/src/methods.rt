// The effects of a few methods that run each other.
use cs_ast::{
    Argument, AssignOp, Body, Expr, ExprKind, Ident, Member, MemberKind, TypeExpr, TypeKind,
};
use cs_effects::effects;
use sqlite_items::{Boxed, Items};
use std::alloc::Global;
use std::test::Fail;
use text_core::{Oom, Place, Txt};

const HERE: Place = Place { line: 1, column: 1 };

fn expr(kind: ExprKind) -> Expr {
    Expr { place: HERE, kind }
}

fn ident(alloc: Global, text: &str) -> Result<Ident, Oom> {
    let name = Txt::from_str(alloc, text)?;
    Ok(Ident { place: HERE, name })
}

fn number_type() -> TypeExpr {
    TypeExpr {
        place: HERE,
        kind: TypeKind::Int,
    }
}

fn name(alloc: Global, text: &str) -> Result<Expr, Oom> {
    Ok(expr(ExprKind::Name(Txt::from_str(alloc, text)?)))
}

/// `target()`
fn call(alloc: Global, target: Expr) -> Result<Expr, Oom> {
    let target = Boxed::new(alloc, target)?;
    Ok(expr(ExprKind::Call(target, Items::new(alloc))))
}

/// `n = 1`
fn assignment(alloc: Global) -> Result<Expr, Oom> {
    let one = Boxed::new(alloc, expr(ExprKind::Int(1)))?;
    Ok(expr(ExprKind::Assign(AssignOp::Set, ident(alloc, "n")?, one)))
}

/// `void name(int argument) => value;`, or without an argument.
fn method(alloc: Global, name: &str, argument: Option<&str>, value: Expr) -> Result<Member, Oom> {
    let mut arguments = Items::new(alloc);
    if let Some(argument) = argument {
        arguments.push(Argument {
            cs_type: number_type(),
            name: ident(alloc, argument)?,
        })?;
    }
    let name = ident(alloc, name)?;
    let value = Boxed::new(alloc, value)?;
    Ok(Member {
        place: HERE,
        kind: MemberKind::Method {
            result: None,
            name,
            arguments,
            body: Body::Value(value),
        },
    })
}

/// int n; void A() => n = 1; void B() => A(); void C() => B(); void D(int n) => n = 1; void E() => On.InvokeAsync();
/// void F() => E();
fn members(alloc: Global) -> Result<Items<Member>, Oom> {
    let mut members = Items::new(alloc);
    members.push(Member {
        place: HERE,
        kind: MemberKind::Field {
            cs_type: number_type(),
            name: ident(alloc, "n")?,
            initial: None,
        },
    })?;
    members.push(method(alloc, "C", None, call(alloc, name(alloc, "B")?)?)?)?;
    members.push(method(alloc, "A", None, assignment(alloc)?)?)?;
    members.push(method(alloc, "B", None, call(alloc, name(alloc, "A")?)?)?)?;
    members.push(method(alloc, "D", Some("n"), assignment(alloc)?)?)?;
    let callback = Boxed::new(alloc, name(alloc, "On")?)?;
    let invoked = expr(ExprKind::Member(callback, ident(alloc, "InvokeAsync")?));
    members.push(method(alloc, "E", None, call(alloc, invoked)?)?)?;
    members.push(method(alloc, "F", None, call(alloc, name(alloc, "E")?)?)?)?;
    Ok(members)
}

#[test]
fn effects_come_through_methods(rt: HostRuntime) -> Result<(), Fail> {
    let alloc = rt.alloc();
    let told = effects(alloc, members(alloc)?.as_slice())?;
    let wanted = [
        ("C", true, false),
        ("A", true, false),
        ("B", true, false),
        ("D", false, false),
        ("E", false, true),
        ("F", false, true),
    ];
    assert_eq!(rt; told.len(), wanted.len());
    for (effect, (method, changes, invokes)) in told.iter().zip(&wanted) {
        assert!(rt; effect.method.is(method));
        assert_eq!(rt; effect.changes, *changes);
        assert_eq!(rt; effect.invokes, *invokes);
    }
    Ok(())
}
