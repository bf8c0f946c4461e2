//! Cases of expressions. The name of a case is an expression, and its line `shape TEXT` says how it is read: with `{`
//! and `}` around each operation, call and plug.

use bw_lang::{Expr, Fun, Op, Pairs, Part, Service, Stmt};
use bw_syntax::{SyntaxFault, read_service};
use case_files::{Case, Fault, Verdict};
use std::alloc::{AllocError, Global};

/// Tries an expression.
pub fn try_case(alloc: Global, case: &Case<'_>) -> Result<Verdict, Fault> {
    let mut wanted = String::new(alloc);
    for line in &case.lines {
        match line.key {
            "shape" => wanted = String::from_str(alloc, line.value)?,
            _ => return Err(Fault::Malformed),
        }
    }
    Ok(Verdict::of(wanted, shape_of(alloc, case.name)?))
}

/// The shape of an expression, as it is read within a service.
fn shape_of(alloc: Global, expression: &str) -> Result<String, Fault> {
    let text = format!(in alloc; "service A {{ session s() {{ exit {expression}; }} }}")?;
    let read = read_service(alloc, text.as_bytes());
    drop(text);
    match read {
        Ok(service) => {
            let shape = shape_of_service(alloc, &service);
            drop(service);
            shape
        }
        Err(fault) => {
            let shape = shape_of_fault(alloc, &fault);
            drop(fault);
            shape
        }
    }
}

/// The shape of the expression in a service of one session.
fn shape_of_service(alloc: Global, service: &Service) -> Result<String, Fault> {
    match service.sessions.as_slice() {
        [session] => shape_of_exit(alloc, session.body.as_slice()),
        _ => Ok(String::from_str(alloc, "sessions")?),
    }
}

/// The word for a service that isn't read.
fn shape_of_fault(alloc: Global, fault: &SyntaxFault) -> Result<String, Fault> {
    match fault {
        SyntaxFault::Syntax(_) => Ok(String::from_str(alloc, "syntax")?),
        SyntaxFault::Memory => Err(Fault::Memory),
        _ => Ok(String::from_str(alloc, "refused")?),
    }
}

/// The shape of the expression of one `exit`.
fn shape_of_exit(alloc: Global, stmts: &[Stmt]) -> Result<String, Fault> {
    let mut shape = String::new(alloc);
    match stmts {
        [Stmt::Exit { page }] => put_expr(&mut shape, page)?,
        _ => shape.push_str("statements")?,
    }
    Ok(shape)
}

/// The sign of an operator, and a blank.
fn op_sign(op: Op) -> &'static str {
    match op {
        Op::Or => "|| ",
        Op::And => "&& ",
        Op::Eq => "== ",
        Op::Ne => "!= ",
        Op::Lt => "< ",
        Op::Le => "<= ",
        Op::Gt => "> ",
        Op::Ge => ">= ",
        Op::Add => "+ ",
        Op::Sub => "- ",
        Op::Mul => "* ",
        Op::Div => "/ ",
        Op::Rem => "% ",
    }
}

/// The word of a function, and a blank.
fn fun_word(fun: Fun) -> &'static str {
    match fun {
        Fun::Text => "text ",
        Fun::Number => "number ",
        Fun::IsNumber => "isnumber ",
        Fun::Count => "count ",
    }
}

/// Puts the shape of an expression behind others.
#[tactic(auto, using(bw_lang::proofs::Sizes::size_steps))]
#[cycle(shape)]
fn put_expr(shape: &mut String, expr: &Expr) -> Result<(), AllocError> {
    match expr {
        Expr::Int(number) => write!(shape, "{number}"),
        Expr::Bool(true) => shape.push_str("true"),
        Expr::Bool(false) => shape.push_str("false"),
        Expr::Nothing => shape.push_str("none"),
        Expr::Str(text) => write!(shape, "\"{}\"", text.as_str()),
        Expr::Name(name) => shape.push_str(name.as_str()),
        Expr::Paren(inner) => put_within(shape, "(", inner, ")"),
        Expr::Not(of) => put_within(shape, "{!", of, "}"),
        Expr::Neg(of) => put_within(shape, "{-", of, "}"),
        Expr::Binary { op, left, right } => {
            put_within(shape, "{", left, " ")?;
            put_within(shape, op_sign(*op), right, "}")
        }
        Expr::Call { fun, arg } => {
            shape.push('{')?;
            put_within(shape, fun_word(*fun), arg, "}")
        }
        Expr::Plug { base, pairs } => {
            put_within(shape, "{", base, "")?;
            put_pairs(shape, pairs)?;
            shape.push('}')
        }
    }
}

/// Puts the shape of a part behind others, between these.
#[cycle(shape)]
fn put_within(shape: &mut String, front: &str, part: &Part, back: &str) -> Result<(), AllocError> {
    shape.push_str(front)?;
    put_expr(shape, part.expr())?;
    shape.push_str(back)
}

/// Puts the shape of the pairs of a plug behind others.
#[tactic(auto, using(bw_lang::proofs::Sizes::size_steps))]
#[cycle(shape)]
fn put_pairs(shape: &mut String, pairs: &Pairs) -> Result<(), AllocError> {
    for pair in pairs.as_slice() {
        shape.push_str(" [")?;
        shape.push_str(pair.gap.as_str())?;
        shape.push('=')?;
        put_expr(shape, &pair.value)?;
        shape.push(']')?;
    }
    Ok(())
}
