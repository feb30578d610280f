// The fields of a record, where they stand.

ghost use Rattle.std.specs.Prelude.{◌≡◌, length, option_map};
ghost use Rattle.csv.specs.Records.{field_at};
ghost use Rattle.mdb_records.specs.Parts.{AreWithin, ends_in, line_in, parted};

use csv::ByteRecord;

/// The fields of the record that was read last, where they stand.
#[derive(Clone, Copy)]
pub struct Record<'a> {
    pub(crate) fields: Fields<'a>,
    ghost within: { AreWithin (ends_in fields) (length (line_in fields)) },
}

/// Who parted the fields.
#[derive(Clone, Copy)]
pub(crate) enum Fields<'a> {
    /// They stand in this text, each up to one of these places, with a comma after it.
    Line(&'a [u8], &'a [usize]),
    /// csv has them.
    Csv(&'a ByteRecord),
}

impl<'a> Record<'a> {
    ghost use Rattle.mdb_records.specs.Fields.{fields_of};

    /// How many fields there are.
    #[inline(always)]
    pub fn len(&self) -> usize
        ensures { result ≡ length (fields_of self.now) }
    {
        match self.fields {
            Fields::Line(_, ends) => ends.len(),
            Fields::Csv(row) => row.len(),
        }
    }

    /// The field at this place, from 0 on, if there is one.
    #[inline(always)]
    pub fn get(&self, place: usize) -> Option<&'a [u8]>
        ensures { option_map (λ s. s.now) result ≡ field_at (fields_of self.now) place }
    {
        match self.fields {
            Fields::Line(text, ends) => part(text, ends, place),
            Fields::Csv(row) => row.get(place),
        }
    }
}

// The part of a text at this place, of those that end at `ends`.
#[inline(always)]
fn part<'a>(text: &'a [u8], ends: &[usize], place: usize) -> Option<&'a [u8]>
    requires { AreWithin ends.now (length text.now) }
    ensures { option_map (λ s. s.now) result ≡ field_at (parted 0 ends.now text.now) place }
{
    if place >= ends.len() {
        return None;
    }
    let start = if place == 0 { 0 } else { ends[place - 1] + 1 };
    Some(&text[start..ends[place]])
}
