// A reader over lent bytes: it hands out fields as parts of them.
ghost use Rattle.std.specs.Prelude.{◌≡◌, ◌≤◌, length};
ghost use Rattle.book.specs.Views.{ReaderGives};

use crate::fault::Fault;
use crate::field::Field;

// A tag and two bytes of length stand before a value.
pub(crate) const HEADER: usize = 3;

// Goes over lent bytes, field by field.
#[derive(Drop)]
pub struct Reader<'a> {
    bytes: &'a [u8],
    at: usize,
    ghost within: { at ≤ length bytes.now },
}

impl<'a> Reader<'a> {
    // A reader at the beginning of the bytes.
    pub fn new(bytes: &'a [u8]) -> Reader<'a>
        ensures { (result.bytes.now ≡ bytes.now) × (result.at ≡ 0) }
    {
        Reader { bytes, at: 0 }
    }

    // A reader at a place of the bytes.
    pub(crate) fn at_place(bytes: &'a [u8], place: usize) -> Reader<'a>
        requires { place ≤ length bytes.now }
        ensures { (result.bytes.now ≡ bytes.now) × (result.at ≡ place) }
    {
        Reader { bytes, at: place }
    }

    // The next field, or None at the end. Where what is left is no whole field, it is refused and the reader stays.
    pub fn next(&mut self) -> Result<Option<Field<'a>>, Fault>
        ensures bytes { self.new.bytes.now ≡ self.old.bytes.now }
        ensures answer { ReaderGives self.old.bytes.now self.old.at result self.new.at }
    {
        let offset = self.at;
        let rest = &self.bytes[offset..];
        if rest.is_empty() {
            return Ok(None);
        }
        let [tag, high, low, behind @ ..] = rest else {
            return Err(Fault::NotWhole(offset));
        };
        let length = u16::from_be_bytes([*high, *low]) as usize;
        let Some(value) = behind.get(..length) else {
            return Err(Fault::NotWhole(offset));
        };
        self.at = offset + HEADER + length;
        Ok(Some(Field {
            offset,
            tag: *tag,
            value,
        }))
    }
}
