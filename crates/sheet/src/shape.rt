// A layout as it is lent, and its tests: lengths, three tables that belong together, and the rules used.
ghost use Rattle.std.specs.Prelude.{length};
ghost use Rattle.plane.specs.Words.{TableLength, PictureTable, Says};
ghost use Rattle.sheet.specs.Answers.{ready_number, ready_place};
ghost use Rattle.sheet.specs.Layout.{tables, OneLength, Marks, IsLayout};
ghost use Rattle.sheet.specs.Ready.{Readied};

use plane::words::{room_in, table_length};
use rules::list::{RuleList, list_length};
use vet::vet::is_table;

// Three slices that are lent as the material, the errors recorded on it, and what waits to be checked again.
#[derive(Clone, Copy)]
pub struct Layout<'a> {
    pub material: &'a [u16],
    pub errors: &'a [u16],
    pub waiting: &'a [u16],
}

// What speaks against a layout with its rules: a length, the tables, or a rule, the lowest that is out of its ranges.
#[derive(Clone, Copy, PartialEq, Eq)]
pub enum SheetError {
    Lengths,
    NoTable,
    BadRule(u16),
}

// Are the words of a slice of a table's length a picture's table?
fn is_picture(t: &[u16]) -> bool
    requires { TableLength (length t.now) }
    ensures { Says result (PictureTable t.now) }
{
    is_table(t, room_in(t.len()))
}

// Are the words of `marks` marks on the material?
fn are_marks(material: &[u16], marks: &[u16]) -> bool
    requires { (TableLength (length material.now)) × (TableLength (length marks.now)) }
    ensures { Says result (Marks material.now marks.now) }
{
    marks[1] == material[1] && marks[2] == material[2] && marks[3] == 2 && is_picture(marks)
}

impl<'a> Layout<'a> {
    // Are the three slices of one length, and is it a table's?
    pub fn one_length(self) -> bool
        ensures { Says result (OneLength (tables self.entry)) }
    {
        self.errors.len() == self.material.len()
            && self.waiting.len() == self.material.len()
            && table_length(self.material.len())
    }

    // Are the three slices a layout? Not a public call: its caller has tested the lengths.
    pub fn is_layout(self) -> bool
        requires { OneLength (tables self) }
        ensures { Says result (IsLayout (tables self.entry)) }
    {
        is_picture(self.material)
            && are_marks(self.material, self.errors)
            && are_marks(self.material, self.waiting)
    }

    // Are the lengths of the layout and of its rules right (1), is it a layout (3), and are the used rules within their ranges (4)?
    pub fn ready(self, rules: RuleList<'_>) -> Result<(), SheetError>
        ensures { Readied (tables self.entry) rules.entry.words.now rules.entry.used (ready_number result) (ready_place result) }
    {
        if !self.one_length() || !list_length(rules.words.len(), rules.used) {
            return Err(SheetError::Lengths);
        }
        if !self.is_layout() {
            return Err(SheetError::NoTable);
        }
        rules.vet(self.material[3]).map_err(SheetError::BadRule)
    }
}
