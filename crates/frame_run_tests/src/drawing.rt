// Renderings of one instance on a thousand units. Items, faults and units by hand.
use crate::building::{Form, field, program};
use crate::sketch::items;
use cs_ast::Value;
use cs_eval::{Fault, Fuel, Owners};
use drawing_meaning::PageFault;
use frame_program::{ContentForm, RunScope};
use frame_run::try_frames;
use std::alloc::Global;
use std::process::Abort;
use std::test::Fail;
use text_core::{Oom, Txt};

/// The instance 1, with one field.
#[derive(Drop)]
struct Held {
    field: Value,
}

impl Owners for Held {
    ghost use Rattle.std.specs.Prelude.{◌==◌, ◌&&◌, if◌then◌else◌, Some, None};

    ghost Rest = { Unit {0} };

    ghost fields = { λ it who at. if who == 1 && at == 0 then Some it.field else None };

    ghost parameters = { λ it who at. None };

    ghost rest = { λ it. tt };

    fn field(&self, who: u32, at: u32) -> Option<&Value> {
        match (who, at) {
            (1, 0) => Some(&self.field),
            _ => None,
        }
    }

    fn set(&mut self, who: u32, at: u32, value: Value) -> bool {
        match (who, at) {
            (1, 0) => self.field = value,
            _ => return false,
        }
        true
    }

    fn parameter(&self, _who: u32, _at: u32) -> Option<&Value> {
        None
    }
}

/// What is drawn, at a depth in the page: the items in short or the fault, and the units left of a thousand.
const DRAWN: &[(Form, u32, Result<&str, PageFault>, u32)] = &[
    (Form::Element, 1, Ok("<p 3 a= c= d=x7 e! g!>'hi'</>"), 985),
    (Form::Deep(2), 999, Ok("<b -><b -></></>"), 998),
    (Form::Deep(2), 1000, Err(PageFault::PageTooLarge), 998),
    (Form::Tag, 1, Ok("{8 0=t 1=5 0=f 1=f}"), 994),
    (Form::Shown(ContentForm::Text), 1, Ok("'True'"), 998),
    (Form::Shown(ContentForm::Markup), 1, Ok("\"True\""), 998),
    (Form::Fragment(1), 1, Ok("(-'in')"), 997),
    (
        Form::Fragment(2),
        1,
        Err(PageFault::Code(Fault::CallDepth)),
        798,
    ),
    (Form::NoFragment, 1, Ok(""), 998),
    (Form::Counted(2), 1, Ok("(0<i 0></>)(1<i 1></>)"), 980),
    (Form::Twice, 1, Err(PageFault::DuplicateKey), 988),
    (Form::OverNull, 1, Err(PageFault::Code(Fault::NullUse)), 998),
    (Form::Switch(1), 1, Ok("'1'"), 996),
    (Form::Switch(2), 1, Ok("'d'"), 997),
    (Form::If(true), 1, Ok("'y'"), 997),
    (Form::If(false), 1, Ok("'n'"), 997),
    (Form::Forever, 1, Err(PageFault::Code(Fault::FuelSpent)), 0),
    (
        Form::Divides,
        1,
        Err(PageFault::Code(Fault::DivideByZero)),
        996,
    ),
];

fn draws(
    rt: &impl Abort,
    alloc: Global,
    form: Form,
    depth: u32,
    want: Result<&str, PageFault>,
    left: u32,
) -> Result<(), Oom> {
    let program = program(alloc, form)?;
    let owners = Held {
        field: field(alloc, form),
    };
    let scope = RunScope {
        who: 1,
        component: 0,
        depth,
    };
    let mut fuel = Fuel {
        left: 1000,
        depth: 0,
    };
    match try_frames(alloc, &program, scope, &owners, &mut fuel) {
        Ok(Some(drawn)) => {
            let mut short = Txt::new(alloc);
            items(alloc, drawn.as_slice(), &mut short)?;
            match want {
                Ok(want) => assert!(rt; short.is(want), "{form:?} {}", short.as_str()),
                Err(_) => panic!(rt; "{form:?} {}", short.as_str()),
            }
        }
        Ok(None) => panic!(rt; "{form:?} is stuck"),
        Err(fault) => match want {
            Ok(_) => panic!(rt; "{form:?} {fault:?}"),
            Err(want) => assert!(rt; fault == want, "{form:?} {fault:?}"),
        },
    }
    assert!(rt; fuel.left == left, "{form:?} {} units left", fuel.left);
    Ok(())
}

#[test]
fn forms_draw(rt: HostRuntime) -> Result<(), Fail> {
    for (form, depth, want, left) in DRAWN {
        draws(&rt, rt.alloc(), *form, *depth, *want, *left)?;
    }
    Ok(())
}
