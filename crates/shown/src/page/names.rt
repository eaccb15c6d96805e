//! Members that are numbers with names: by their places, by rows, and flags.

ghost use Rattle.std.specs.Prelude.{◌≡◌, ◌==◌, [], ◌∷◌, map, option_map, OnOk};
ghost use Rattle.std.specs.List.{find};
ghost use Rattle.shown.specs.Values.{name_or_number, named_number, flags_of};
ghost use Rattle.shown.specs.Drafts.{with_value};

use crate::page::{Nest, Page};
use std::alloc::AllocError;

/// The first row that has a number.
fn row_of<'a>(names: &'a [(u64, &'a str)], value: u64) -> Option<&'a (u64, &'a str)>
    ensures { option_map (λ row. row.now) result ≡ find (λ row. row.0 == value) names.now }
{
    names.iter().find(|row| row.0 == value)
}

impl Page {
    /// Adds the name that a number has in a table, or the number where it has none there.
    pub fn choice(&mut self, name: &str, value: u64, names: &[&str]) -> Result<(), AllocError>
        ensures { OnOk result
            (self.new ≡ with_value name.now
            (name_or_number (map (λ text. text.now) names.now) value ∷ []) self.old) }
    {
        if value < names.len() as u64 {
            let text = names[value as usize];
            if !text.is_empty() {
                return self.string(name, text);
            }
        }
        self.number(name, value)
    }

    /// Adds the name that a number has in a table of numbers and names, of the first row that has it, or the number
    /// where none has.
    pub fn named(&mut self, name: &str, value: u64, names: &[(u64, &str)]) -> Result<(), AllocError>
        ensures { OnOk result
            (self.new ≡ with_value name.now
            (named_number (map (λ row. (row.0, row.1.now)) names.now) value ∷ []) self.old) }
    {
        match row_of(names, value) {
            Some(row) => self.string(name, row.1),
            None => self.number(name, value),
        }
    }

    /// Adds a list of the names of the bits that are set, and after them a number of those that have no name.
    pub fn flags(&mut self, name: &str, bits: u64, names: &[(u64, &str)]) -> Result<(), AllocError>
        ensures { OnOk result
            (self.new ≡ with_value name.now
            (flags_of (map (λ row. (row.0, row.1.now)) names.now) bits) self.old) }
    {
        self.begin(name, Nest::List)?;
        let mut others = bits;
        for i in 0..names.len() {
            let (bit, text) = names[i];
            if bits & bit != 0 {
                self.string("", text)?;
            }
            others &= !bit;
        }
        if others != 0 {
            self.number("", others)?;
        }
        self.end()
    }
}
