// Operations of all forms, built by hand.
use cs_ast::{BinaryOp, Bodies, Code, LibraryMember, StepOp, Value, Variable};
use frame_core::Made;
use frame_program::{
    AttributePart, Compiled, CompiledComponent, ContentForm, Fragments, Operation,
    OperationSection, TagPart, TextPart,
};
use sqlite_items::{Boxed, Items};
use std::alloc::Global;
use text_core::{Oom, Txt};

/// What a test draws.
#[derive(Clone, Copy, Debug)]
pub(crate) enum Form {
    /// A `p` with every form of attribute, and a text.
    Element,
    /// Elements inside one another, so many.
    Deep(u32),
    /// A tag with every form of part.
    Tag,
    /// `@(true)`, as a text or as markup.
    Shown(ContentForm),
    /// The fragment of this number, over no locals.
    Fragment(u32),
    /// `@null` as a fragment.
    NoFragment,
    /// `for`, so many turns with a keyed element each.
    Counted(i32),
    /// `foreach` over 1, 1.
    Twice,
    /// `foreach` over null.
    OverNull,
    /// A `switch` over this number: 1 with a text and a `break`, and `default`.
    Switch(i32),
    /// `if`, with a text on each side.
    If(bool),
    /// `while (true)`.
    Forever,
    /// A statement that divides by zero.
    Divides,
}

fn txt(alloc: Global, said: &str) -> Result<Txt, Oom> {
    Txt::from_str(alloc, said)
}

fn all<T: Drop, const N: usize>(alloc: Global, items: [T; N]) -> Result<Items<T>, Oom> {
    Ok(Items::from_vec(Vec::from_array(alloc, items)?))
}

fn text(alloc: Global, said: &str) -> Result<Operation, Oom> {
    Ok(Operation::Text {
        number: 9,
        text: txt(alloc, said)?,
    })
}

fn element(alloc: Global, children: Items<Operation>) -> Result<Operation, Oom> {
    Ok(Operation::Element {
        number: 0,
        name: txt(alloc, "b")?,
        attributes: Items::new(alloc),
        children,
    })
}

fn dressed(alloc: Global) -> Result<Operation, Oom> {
    let parts = all(
        alloc,
        [
            TextPart::Literal(txt(alloc, "x")?),
            TextPart::Shown(Code::Int(7)),
        ],
    )?;
    let mut attributes = Items::new(alloc);
    attributes.push(AttributePart::Empty {
        number: 1,
        name: txt(alloc, "a")?,
    })?;
    attributes.push(AttributePart::Whole {
        number: 2,
        name: txt(alloc, "b")?,
        code: Code::Null,
    })?;
    attributes.push(AttributePart::Whole {
        number: 3,
        name: txt(alloc, "c")?,
        code: Code::Bool(true),
    })?;
    attributes.push(AttributePart::Key(Code::Int(3)))?;
    attributes.push(AttributePart::Mixed {
        number: 4,
        name: txt(alloc, "d")?,
        parts,
    })?;
    attributes.push(AttributePart::Event {
        number: 5,
        name: txt(alloc, "e")?,
        code: Code::Callback(0, Items::new(alloc)),
    })?;
    attributes.push(AttributePart::Event {
        number: 6,
        name: txt(alloc, "f")?,
        code: Code::Null,
    })?;
    attributes.push(AttributePart::Handler {
        number: 7,
        name: txt(alloc, "g")?,
        place: 1,
    })?;
    Ok(Operation::Element {
        number: 0,
        name: txt(alloc, "p")?,
        attributes,
        children: all(alloc, [text(alloc, "hi")?])?,
    })
}

fn nested(alloc: Global, count: u32) -> Result<Operation, Oom> {
    let mut inside = Items::new(alloc);
    for _ in 1..count {
        let one = element(alloc, inside)?;
        inside = all(alloc, [one])?;
    }
    element(alloc, inside)
}

fn tag(alloc: Global) -> Result<Operation, Oom> {
    let parts = all(
        alloc,
        [
            TagPart::Text {
                place: 0,
                text: txt(alloc, "t")?,
            },
            TagPart::Value {
                place: 1,
                code: Code::Int(5),
            },
            TagPart::Key(Code::Int(8)),
            TagPart::Content {
                place: 0,
                number: 1,
                locals: Items::new(alloc),
            },
            TagPart::Fragment {
                place: 1,
                number: 1,
                locals: Items::new(alloc),
            },
        ],
    )?;
    Ok(Operation::Child {
        number: 0,
        made: Made::Component(0),
        parts,
    })
}

fn content(form: ContentForm, code: Code) -> Operation {
    Operation::Content {
        number: 0,
        form,
        code,
    }
}

fn keyed(alloc: Global, key: Code) -> Result<Operation, Oom> {
    Ok(Operation::Element {
        number: 1,
        name: txt(alloc, "i")?,
        attributes: all(alloc, [AttributePart::Key(key)])?,
        children: Items::new(alloc),
    })
}

fn less(alloc: Global, limit: i32) -> Result<Code, Oom> {
    let local = Boxed::new(alloc, Code::Local(0))?;
    let limit = Boxed::new(alloc, Code::Int(limit))?;
    Ok(Code::Binary(BinaryOp::Less, local, limit))
}

fn counting(alloc: Global, test: Code, body: Items<Operation>) -> Result<Operation, Oom> {
    let start = Boxed::new(alloc, Code::Int(0))?;
    Ok(Operation::For {
        number: 0,
        start: Some(Code::Declare(start)),
        test: Some(test),
        step: Some(Code::Step(Variable::Local(0), StepOp::Increment)),
        keyed: Some(1),
        body,
    })
}

fn counted(alloc: Global, limit: i32) -> Result<Operation, Oom> {
    let body = all(alloc, [keyed(alloc, Code::Local(0))?])?;
    counting(alloc, less(alloc, limit)?, body)
}

fn one_one(alloc: Global) -> Result<Code, Oom> {
    let none = Code::Library(LibraryMember::EmptyList, Items::new(alloc));
    let one = Code::Library(LibraryMember::Add, all(alloc, [none, Code::Int(1)])?);
    Ok(Code::Library(LibraryMember::Add, all(alloc, [one, Code::Int(1)])?))
}

fn over(alloc: Global, list: Code) -> Result<Operation, Oom> {
    Ok(Operation::ForEach {
        number: 0,
        list,
        keyed: Some(1),
        body: all(alloc, [keyed(alloc, Code::Local(0))?])?,
    })
}

fn switch(alloc: Global, number: i32) -> Result<Operation, Oom> {
    let first = OperationSection {
        constants: all(alloc, [Value::Int(1)])?,
        otherwise: false,
        operations: all(
            alloc,
            [text(alloc, "1")?, Operation::Break, text(alloc, "no")?],
        )?,
    };
    let other = OperationSection {
        constants: Items::new(alloc),
        otherwise: true,
        operations: all(alloc, [text(alloc, "d")?])?,
    };
    Ok(Operation::Switch {
        value: Code::Int(number),
        sections: all(alloc, [first, other])?,
    })
}

fn divides(alloc: Global) -> Result<Operation, Oom> {
    let quotient = Code::Binary(
        BinaryOp::Divide,
        Boxed::new(alloc, Code::Int(1))?,
        Boxed::new(alloc, Code::Int(0))?,
    );
    Ok(Operation::Statement(Code::Perform(Boxed::new(alloc, quotient)?)))
}

fn branch(alloc: Global, truth: bool) -> Result<Operation, Oom> {
    let holds = all(alloc, [text(alloc, "y")?])?;
    let fails = all(alloc, [text(alloc, "n")?])?;
    Ok(Operation::If {
        test: Code::Bool(truth),
        holds,
        fails,
    })
}

fn forever(alloc: Global) -> Operation {
    Operation::While {
        number: 0,
        test: Code::Bool(true),
        keyed: None,
        body: Items::new(alloc),
    }
}

fn statement(alloc: Global, form: Form) -> Result<Operation, Oom> {
    match form {
        Form::Counted(limit) => counted(alloc, limit),
        Form::Twice => over(alloc, one_one(alloc)?),
        Form::OverNull => over(alloc, Code::Null),
        Form::Switch(number) => switch(alloc, number),
        Form::If(truth) => branch(alloc, truth),
        Form::Forever => Ok(forever(alloc)),
        _ => divides(alloc),
    }
}

fn operation(alloc: Global, form: Form) -> Result<Operation, Oom> {
    match form {
        Form::Element => dressed(alloc),
        Form::Deep(count) => nested(alloc, count),
        Form::Tag => tag(alloc),
        Form::Shown(form) => Ok(content(form, Code::Bool(true))),
        Form::Fragment(_) => Ok(content(ContentForm::Fragment, Code::Field(0))),
        Form::NoFragment => Ok(content(ContentForm::Fragment, Code::Null)),
        _ => statement(alloc, form),
    }
}

/// The value of the field of the instance: a fragment, where a form has one.
pub(crate) fn field(alloc: Global, form: Form) -> Value {
    match form {
        Form::Fragment(place) => Value::Fragment {
            who: 1,
            place,
            captures: Items::new(alloc),
        },
        _ => Value::Null,
    }
}

/// A program of one component, whose fragment 1 is a text and whose fragment 2 shows the field.
pub(crate) fn program(alloc: Global, form: Form) -> Result<Compiled, Oom> {
    let mut fragments = Fragments::new(alloc);
    fragments.set(1, all(alloc, [text(alloc, "in")?])?)?;
    let again = content(ContentForm::Fragment, Code::Field(0));
    fragments.set(2, all(alloc, [again])?)?;
    let component = CompiledComponent {
        name: txt(alloc, "C")?,
        disposes: false,
        fields: Items::new(alloc),
        parameters: Items::new(alloc),
        initialized: None,
        parameters_set: None,
        dispose: None,
        operations: all(alloc, [operation(alloc, form)?])?,
    };
    Ok(Compiled {
        components: all(alloc, [component])?,
        bodies: Bodies::new(alloc),
        fragments,
    })
}
