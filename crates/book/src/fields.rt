// The fields of one tag in a read book.
ghost use Rattle.std.specs.Prelude.{drop};
ghost use Rattle.std.specs.Iterator.{item_count};
ghost use Rattle.book.specs.Format.{Row};

use crate::field::Field;
use crate::reader::Reader;

// Goes over the fields with one tag, in file order.
#[derive(Drop)]
pub struct Fields<'a> {
    pub(crate) reader: Reader<'a>,
    pub(crate) tag: u8,
    ghost row: { Row (drop reader.at reader.bytes.now) },
}

impl<'a> Iterator for Fields<'a> {
    ghost use Rattle.book.specs.Walks.{HandsOut, fields_left};

    type Item = Field<'a>;

    ghost next_gives = { HandsOut };

    ghost remaining = { item_count fields_left };

    // The next field with the tag, or None if there is none left.
    fn next(&mut self) -> Option<Field<'a>> {
        while let Some(field) = self.reader.next().ok()? {
            if field.tag == self.tag {
                return Some(field);
            }
        }
        None
    }
}
