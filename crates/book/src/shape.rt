// Which lengths a value may have, by its tag.
ghost use Rattle.std.specs.Prelude.{◌≡◌, ◌<◌, Some, None, Decides, MatchResult};
ghost use Rattle.book.specs.Format.{shape_of, FitsShape};
ghost use Rattle.book.specs.Tags.{tag_number};

// A number that is no tag of the format.
#[derive(Clone, Copy, PartialEq, Eq, Debug)]
pub struct NoTag;

// The tags of fields.
#[derive(Clone, Copy, PartialEq, Eq, Debug)]
pub enum Tag {
    Symbol = 1,
    Rule = 2,
    Polynomial = 3,
    Rank = 4,
    Joining = 5,
}

pub const SYMBOL: u8 = Tag::Symbol as u8;

pub const RULE: u8 = Tag::Rule as u8;

pub const POLYNOMIAL: u8 = Tag::Polynomial as u8;

pub const RANK: u8 = Tag::Rank as u8;

pub const JOINING: u8 = Tag::Joining as u8;

impl TryFrom<u8> for Tag {
    // The format has no such tag.
    type Error = NoTag;

    ghost try_from_gives = { λ n r. MatchResult r (λ tag. tag_number tag ≡ n) (λ _. shape_of n ≡ None) };

    fn try_from(tag: u8) -> Result<Tag, NoTag> {
        match tag {
            SYMBOL => Ok(Tag::Symbol),
            RULE => Ok(Tag::Rule),
            POLYNOMIAL => Ok(Tag::Polynomial),
            RANK => Ok(Tag::Rank),
            JOINING => Ok(Tag::Joining),
            _ => Err(NoTag),
        }
    }
}

// From the least length to the most, in steps.
#[derive(Clone, Copy)]
pub(crate) struct Shape {
    least: u16,
    most: u16,
    step: u16,
}

impl Shape {
    // The shape of the values of a tag.
    pub(crate) fn of(tag: Tag) -> Shape
        ensures value { shape_of (tag_number tag) ≡ Some result }
        ensures steps { 0 < result.step }
    {
        match tag {
            Tag::Symbol | Tag::Rank => Shape::between(2, 2, 1),
            Tag::Rule => Shape::between(3, 65, 1),
            Tag::Polynomial => Shape::between(8, 57, 7),
            Tag::Joining => Shape::between(4, 260, 1),
        }
    }

    fn between(least: u16, most: u16, step: u16) -> Shape
        ensures { result ≡ record { least = least; most = most; step = step } }
    {
        Shape { least, most, step }
    }

    // Whether a value of so many bytes has the shape.
    pub(crate) fn fits(&self, length: usize) -> bool
        requires { 0 < self.now.step }
        ensures { Decides result (FitsShape self.now length) }
    {
        let least = self.least as usize;
        let most = self.most as usize;
        (least..=most).contains(&length) && (length - least) % self.step as usize == 0
    }
}
