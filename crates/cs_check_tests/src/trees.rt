// Small trees, and the scope that they stand in.
use cs_ast::{
    AssignOp, BinaryOp, CsType, Expr, ExprKind, Ident, NameKind, Named, Scope, Stmt, StmtKind,
    TypeExpr, TypeKind,
};
use sqlite_items::{Boxed, Items};
use std::alloc::Global;
use text_core::{Oom, Place, Txt};

pub fn at(column: u32) -> Place {
    Place { line: 1, column }
}

pub fn expr(column: u32, kind: ExprKind) -> Expr {
    Expr {
        place: at(column),
        kind,
    }
}

pub fn int(column: u32) -> Expr {
    expr(column, ExprKind::Int(1))
}

pub fn truth(column: u32) -> Expr {
    expr(column, ExprKind::Bool(true))
}

pub fn name(alloc: Global, column: u32, text: &str) -> Result<Expr, Oom> {
    Ok(expr(column, ExprKind::Name(Txt::from_str(alloc, text)?)))
}

pub fn ident(alloc: Global, column: u32, text: &str) -> Result<Ident, Oom> {
    let name = Txt::from_str(alloc, text)?;
    Ok(Ident {
        place: at(column),
        name,
    })
}

/// An operator between two operands, which begins with the first.
pub fn binary(alloc: Global, op: BinaryOp, a: Expr, b: Expr) -> Result<Expr, Oom> {
    let place = a.place;
    let a = Boxed::new(alloc, a)?;
    let b = Boxed::new(alloc, b)?;
    Ok(Expr {
        place,
        kind: ExprKind::Binary(op, a, b),
    })
}

/// `target = value`
pub fn assignment(alloc: Global, target: &str, value: Expr) -> Result<Expr, Oom> {
    let target = ident(alloc, 1, target)?;
    let value = Boxed::new(alloc, value)?;
    Ok(expr(1, ExprKind::Assign(AssignOp::Set, target, value)))
}

/// `F(argument)`, or `F()`.
pub fn call(alloc: Global, argument: Option<Expr>) -> Result<Expr, Oom> {
    let target = Boxed::new(alloc, name(alloc, 1, "F")?)?;
    let mut arguments = Items::new(alloc);
    if let Some(argument) = argument {
        arguments.push(argument)?;
    }
    Ok(expr(1, ExprKind::Call(target, arguments)))
}

/// `value;`
pub fn perform(value: Expr) -> Stmt {
    Stmt {
        place: value.place,
        kind: StmtKind::Expr(value),
    }
}

/// `T x = value;`, or with `var`, or without a value.
pub fn local(
    alloc: Global,
    cs_type: Option<TypeExpr>,
    text: &str,
    value: Option<Expr>,
) -> Result<Stmt, Oom> {
    let name = ident(alloc, 5, text)?;
    Ok(Stmt {
        place: at(1),
        kind: StmtKind::Local {
            cs_type,
            name,
            value,
        },
    })
}

pub fn named(
    alloc: Global,
    text: &str,
    cs_type: CsType,
    kind: NameKind,
    place: u32,
) -> Result<Named, Oom> {
    let name = Txt::from_str(alloc, text)?;
    Ok(Named {
        name,
        cs_type,
        kind,
        place,
    })
}

/// A scope with fields n and g, a parameter P, a method F of one number, a local s of type string and one more called n.
pub fn scope(alloc: Global) -> Result<Scope, Oom> {
    let mut takes = Items::new(alloc);
    takes.push(CsType::Int)?;
    let mut names = Items::new(alloc);
    names.push(named(alloc, "n", CsType::Bool, NameKind::Field, 7)?)?;
    names.push(named(alloc, "P", CsType::Int, NameKind::Parameter, 3)?)?;
    names.push(named(alloc, "F", CsType::Int, NameKind::Method(takes), 9)?)?;
    names.push(named(alloc, "s", CsType::Text, NameKind::Local, 0)?)?;
    names.push(named(alloc, "n", CsType::Int, NameKind::Local, 1)?)?;
    names.push(named(alloc, "g", CsType::Int, NameKind::Field, 4)?)?;
    Ok(Scope {
        names,
        records: Items::new(alloc),
        result: CsType::Nothing,
    })
}

/// The type of the record of this name, as it is written.
pub fn record_type(alloc: Global, text: &str) -> Result<TypeExpr, Oom> {
    let name = Txt::from_str(alloc, text)?;
    Ok(TypeExpr {
        place: at(1),
        kind: TypeKind::Named(name),
    })
}
