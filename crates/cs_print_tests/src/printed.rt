// What code is printed as, by hand. What is printed is read again and printed as the same text.
use cs_parse::{expression, members, statements};
use cs_print::{push_members, push_statements, push_whole};
use cs_token::{LexFault, Token, tokens};
use std::alloc::Global;
use std::process::Abort;
use std::test::Fail;
use text_core::Txt;

/// The most bytes that a text has whose tokens are asked for.
const BYTES: usize = 1_048_576;

fn lexed(alloc: Global, text: &str) -> Result<Vec<Token>, LexFault> {
    let text = Txt::from_str(alloc, text)?;
    if text.as_str().len() > BYTES {
        return Err(LexFault::Oom);
    }
    tokens(alloc, &text)
}

fn printed_expression(alloc: Global, text: &str) -> Result<Txt, Fail> {
    let a = expression(alloc, lexed(alloc, text)?.as_slice())?;
    let mut out = Txt::new(alloc);
    push_whole(alloc, &mut out, &a)?;
    Ok(out)
}

fn printed_statements(alloc: Global, text: &str) -> Result<Txt, Fail> {
    let read = statements(alloc, lexed(alloc, text)?.as_slice())?;
    let mut out = Txt::new(alloc);
    push_statements(alloc, &mut out, read.as_slice())?;
    Ok(out)
}

fn printed_members(alloc: Global, text: &str) -> Result<Txt, Fail> {
    let read = members(alloc, lexed(alloc, text)?.as_slice())?;
    let mut out = Txt::new(alloc);
    push_members(alloc, &mut out, read.as_slice())?;
    Ok(out)
}

#[derive(Clone, Copy)]
enum Form {
    Expression,
    Statements,
    Members,
}

fn printed(alloc: Global, form: Form, text: &str) -> Result<Txt, Fail> {
    match form {
        Form::Expression => printed_expression(alloc, text),
        Form::Statements => printed_statements(alloc, text),
        Form::Members => printed_members(alloc, text),
    }
}

fn is_printed_as(
    rt: &impl Abort,
    alloc: Global,
    form: Form,
    text: &str,
    expected: &str,
) -> Result<(), Fail> {
    assert_eq!(rt; printed(alloc, form, text)?.as_str(), expected, "{text}");
    Ok(())
}

/// Each text is printed as the one beside it, and that one as itself.
fn compare(rt: &impl Abort, alloc: Global, form: Form, rows: &[(&str, &str)]) -> Result<(), Fail> {
    for (text, expected) in rows {
        is_printed_as(rt, alloc, form, text, expected)?;
        is_printed_as(rt, alloc, form, expected, expected)?;
    }
    Ok(())
}

#[test]
fn brackets_stand_where_a_part_holds_less(rt: HostRuntime) -> Result<(), Fail> {
    compare(
        &rt,
        rt.alloc(),
        Form::Expression,
        &[
            ("a-(b-c)", "a - ( b - c ) "),
            ("(a-b)-c", "a - b - c "),
            ("(a+b).c", "( a + b ) . c "),
            ("((a))*(b+c)", "a * ( b + c ) "),
            ("a??(b??c)", "a ?? b ?? c "),
            ("(a??b)??c", "( a ?? b ) ?? c "),
            ("(a?b:c)?d:(e?f:g)", "( a ? b : c ) ? d : e ? f : g "),
            ("-(a+1)+ -a.b", "- ( a + 1 ) + - a . b "),
            ("!(a==b)", "! ( a == b ) "),
            ("- -1", "- - 1 "),
            ("(a?.b).c", "( a ?. b ) . c "),
            ("(a?.b)?.c", "( a ?. b ) ?. c "),
            ("(string)(a+b)", "( string ) ( a + b ) "),
            ("(a with{b=1}).c", "( a with { b = 1 } ) . c "),
            (
                "a with{b=1,c=d} with{e=f}",
                "a with { b = 1 , c = d } with { e = f } ",
            ),
            ("f(a,(b))[i+1]", "f ( a , b ) [ i + 1 ] "),
            ("new A(1,null)", "new A ( 1 , null ) "),
            ("ImmutableList<A?>.Empty", "ImmutableList < A > . Empty "),
            ("int.Parse(s)", "int . Parse ( s ) "),
            ("(x)=>x+1", "x => x + 1 "),
            ("()=>{ n++; }", "( ) => { n ++ ; } "),
            ("()=>n+=a?1:2", "( ) => n += a ? 1 : 2 "),
        ],
    )
}

#[test]
fn texts_have_no_single_quotes(rt: HostRuntime) -> Result<(), Fail> {
    compare(
        &rt,
        rt.alloc(),
        Form::Expression,
        &[
            ("\"\\\"'\\\\\\n{\"", "\"\\\"\\u0027\\\\\\n{\" "),
            ("$\"{{'{ a }}}\"", "$\"{{\\u0027{ a }}}\" "),
            ("$\"{a}{b}\"", "$\"{ a }{ b }\" "),
            ("$\"\"", "$\"\" "),
            ("$\"{(a?b:c)}\"", "$\"{ a ? b : c }\" "),
            ("$\"{$\"{a}\"}x\"", "$\"{ $\"{ a }\" }x\" "),
        ],
    )
}

#[test]
fn statements_stand_one_behind_another(rt: HostRuntime) -> Result<(), Fail> {
    compare(
        &rt,
        rt.alloc(),
        Form::Statements,
        &[
            ("", ""),
            ("n=1;n++;", "n = 1 ; n ++ ; "),
            ("string? a;var b=a;", "string a ; var b = a ; "),
            (
                "if(a)b();else if(c)d();",
                "if ( a ) b ( ) ; else if ( c ) d ( ) ; ",
            ),
            (
                "if(a){if(b)c();}else d();",
                "if ( a ) { if ( b ) c ( ) ; } else d ( ) ; ",
            ),
            ("while(true){break;}", "while ( true ) { break ; } "),
            (
                "for(int i=0;i<3;i++)continue;",
                "for ( int i = 0 ; i < 3 ; i ++ ) continue ; ",
            ),
            ("for(;;);", "for ( ; ; ) ; "),
            (
                "foreach(var a in b)f(a);",
                "foreach ( var a in b ) f ( a ) ; ",
            ),
            (
                "switch(a){case -1:case \"x\":return 1;default:return;}",
                "switch ( a ) { case - 1 : case \"x\" : return 1 ; default : return ; } ",
            ),
            ("await E.InvokeAsync(1);", "await E . InvokeAsync ( 1 ) ; "),
        ],
    )
}

#[test]
fn members_stand_one_behind_another(rt: HostRuntime) -> Result<(), Fail> {
    compare(
        &rt,
        rt.alloc(),
        Form::Members,
        &[
            ("private int n=0;", "int n = 0 ; "),
            (
                "[Parameter]public int N{get;set;}=3;",
                "[ Parameter ] int N { get ; set ; } = 3 ; ",
            ),
            (
                "[CascadingParameter(Name=\"a\")]A B{get;set;}",
                "[ CascadingParameter ( Name = \"a\" ) ] A B { get ; set ; } ",
            ),
            ("public int N{get;set;}", "int N ; "),
            ("int Twice=>n*2;", "int Twice => n * 2 ; "),
            (
                "async Task F(){await G.InvokeAsync();}",
                "void F ( ) { await G . InvokeAsync ( ) ; } ",
            ),
            (
                "record? F(int a,string? b)=>null;",
                "record ? F ( int a , string b ) => null ; ",
            ),
            (
                "record A(int B,ImmutableList<A> C);",
                "record A ( int B , ImmutableList < A > C ) ; ",
            ),
        ],
    )
}
