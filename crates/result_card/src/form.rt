// The two forms of the result card, and where their fields lie.
ghost use Rattle.std.specs.Prelude.{◌≡◌, ◌≤◌};
ghost use Rattle.result_card.specs.ResultCard.{tag, wide, stat_size, flags_at, card_size};

// The bytes of a field's head: its tag and its length.
const HEAD: usize = 3;

// The bytes of four corners and of four flags.
pub(crate) const CORNERS_SIZE: usize = 4 * 16;

pub(crate) const FLAGS_SIZE: usize = 4;

// Where the field of the counts begins, behind that of the corners; and where its contents do.
pub(crate) const STATS_AT: usize = HEAD + CORNERS_SIZE;

pub(crate) const FIRST_STAT: usize = STATS_AT + HEAD;

// The length of a result card as it is written: of the newer form, three headers, four corners, four counts, four flags.
pub const RESULT_SIZE: usize = 105;

// A form of the result card.
#[derive(Clone, Copy)]
pub enum Form {
    // A count has one byte.
    Older,
    // A count has two bytes.
    Newer,
}

impl Form {
    // The tag of the counts.
    pub(crate) fn tag(self) -> u8
        ensures { result ≡ tag self }
    {
        match self {
            Form::Older => 17,
            Form::Newer => 19,
        }
    }

    // How many bytes a count has.
    pub(crate) fn wide(self) -> usize
        ensures { (result ≡ wide self) × (result ≤ 2) }
    {
        match self {
            Form::Older => 1,
            Form::Newer => 2,
        }
    }

    // How many bytes an edge has: three counts, and whether it is valid.
    pub(crate) fn stat_size(self) -> usize
        ensures { (result ≡ stat_size self) × (result ≤ 7) }
    {
        3 * self.wide() + 1
    }

    // Where the field of the flags begins, behind that of the counts.
    pub(crate) fn flags_at(self) -> usize
        ensures { (result ≡ flags_at self) × (result ≤ 98) }
    {
        FIRST_STAT + 4 * self.stat_size()
    }

    // How long a card is.
    pub fn size(self) -> usize
        ensures { (result ≡ card_size self) × (result ≤ 105) }
    {
        self.flags_at() + HEAD + FLAGS_SIZE
    }
}
