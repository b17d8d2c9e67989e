// The fields of the one instance of a plain stage.
use cs_ast::Value;
use cs_eval::Owners;
use first_click::Field;
use sqlite_items::at as item_at;

/// The fields of the instance 1, with their present values.
#[derive(Debug, Drop)]
pub(crate) struct Present {
    pub(crate) fields: Vec<Field>,
}

impl Owners for Present {
    ghost use Rattle.std.specs.Prelude.{List, ℕ};
    ghost use Rattle.plain_page.specs.Present.{fields_of, names_of, no_parameters};

    ghost Rest = { List (List ℕ) };

    ghost fields = { λ it. fields_of it.fields.items };

    ghost parameters = { λ it. no_parameters };

    ghost rest = { λ it. names_of it.fields.items };

    fn field(&self, who: u32, at: u32) -> Option<&Value> {
        if who != 1 {
            return None;
        }
        let field = item_at(self.fields.as_slice(), at as usize)?;
        Some(&field.value)
    }

    fn set(&mut self, who: u32, at: u32, value: Value) -> bool {
        if who != 1 {
            return false;
        }
        let at = at as usize;
        if at >= self.fields.len() {
            return false;
        }
        let field = &mut self.fields[at];
        field.value = value;
        true
    }

    fn parameter(&self, _who: u32, _at: u32) -> Option<&Value> {
        None
    }
}
