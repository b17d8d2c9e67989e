// What the code of the first instance finds.
use cs_ast::Value;
use cs_eval::Owners;
use sqlite_items::Items;

/// No instance is there, as long as its initial values are made.
#[derive(Clone, Copy, Debug)]
pub struct Nobody;

impl Owners for Nobody {
    ghost use Rattle.page_meaning.specs.Initial.{no_fields};

    ghost Rest = { Unit {0} };

    ghost fields = { λ it. no_fields };

    ghost parameters = { λ it. no_fields };

    ghost rest = { λ it. tt };

    fn field(&self, _who: u32, _at: u32) -> Option<&Value> {
        None
    }

    fn set(&mut self, _who: u32, _at: u32, _value: Value) -> bool {
        false
    }

    fn parameter(&self, _who: u32, _at: u32) -> Option<&Value> {
        None
    }
}

/// The instance 1 with these own fields.
#[derive(Debug, Drop)]
pub struct FirstInstance {
    pub fields: Items<Value>,
}

impl Owners for FirstInstance {
    ghost use Rattle.page_meaning.specs.Initial.{fields_of, no_fields};

    ghost Rest = { Unit {0} };

    ghost fields = { λ it. fields_of 1 it.fields };

    ghost parameters = { λ it. no_fields };

    ghost rest = { λ it. tt };

    fn field(&self, who: u32, at: u32) -> Option<&Value> {
        if who != 1 {
            return None;
        }
        self.fields.get(at as usize)
    }

    fn set(&mut self, who: u32, at: u32, value: Value) -> bool {
        if who != 1 {
            return false;
        }
        let at = at as usize;
        if at >= self.fields.len() {
            return false;
        }
        self.fields.set(at, value);
        true
    }

    fn parameter(&self, _who: u32, _at: u32) -> Option<&Value> {
        None
    }
}
