// Why a call is refused: document 01's causes of refusal, in the order of their numbers.
ghost use Rattle.std.specs.Prelude.{◌≡◌};
ghost use Rattle.numbers.specs.Refusals.{place_of_array, place_of_lent, lent_of, number_of, place_of};

// The arrays of a file, in the order of document 01's places.
#[derive(Clone, Copy, PartialEq, Eq, Debug)]
pub enum Array {
    Nodes,
    Links,
    Junctions,
    Heightmap,
    Refs,
}

// What is lent to a call, in the order of document 01's places.
#[derive(Clone, Copy, PartialEq, Eq, Debug)]
pub enum Lent {
    Nodes,
    Links,
    Junctions,
    Heightmap,
    Refs,
    Section,
    Scratch,
    NewPlaces,
    // The list that a call fills, or a round's file or choices.
    List,
    PathScratch,
    Members,
}

#[derive(Clone, Copy, PartialEq, Eq, Debug)]
pub enum Refusal {
    // 1: 1 to 111 system bytes.
    SystemTooShort,
    // 2: a section over its limit.
    SystemTooLong,
    GraphicsTooLong,
    // 3: an array's address or extent is bad.
    BadArray(Array),
    // 4: a node's links end behind the list; 5: a junction's values end behind the bytes.
    LinksOutside(usize),
    ValuesOutside(usize),
    // 6: more than the limit.
    TooManyNodes,
    TooManyJunctions,
    // 7: lent memory too short.
    TooShort(Lent),
    // 8: over 31 links of a node; 9: too many links before a node's; 10: too many values before a junction's; 11: refs
    // over 65,535: none of them can be written.
    TooManyLinks(usize),
    LinksStartTooHigh(usize),
    ValuesStartTooHigh(usize),
    TooManyRefs,
    // 12: heightmap values not width times height.
    WrongSize,
    // 13: no such place, or no such number.
    NoSuchPlace,
    // 14: the cell is at a limit, or over one.
    AtLimit,
    // 15: no round file of this version; 16: its length is another, or it would be.
    NoRoundFile,
    WrongLength,
    // 17: no walk joins the two places.
    NoPath,
    // 18: the area is already in the set.
    AreaTaken,
    // 19: a round of another area.
    OtherArea,
}

impl Array {
    fn place(self) -> usize
        ensures { result ≡ place_of_array self }
    {
        self as usize
    }
}

impl Lent {
    fn place(self) -> usize
        ensures { result ≡ place_of_lent self }
    {
        self as usize
    }
}

// The list that an array is read into.
impl From<Array> for Lent {
    ghost from_gives = { λ a l. l ≡ lent_of a };

    fn from(array: Array) -> Lent {
        match array {
            Array::Nodes => Lent::Nodes,
            Array::Links => Lent::Links,
            Array::Junctions => Lent::Junctions,
            Array::Heightmap => Lent::Heightmap,
            Array::Refs => Lent::Refs,
        }
    }
}

impl Refusal {
    // Document 01's number.
    pub fn number(self) -> u32
        ensures { result ≡ number_of self }
    {
        match self {
            Refusal::SystemTooShort => 1,
            Refusal::SystemTooLong | Refusal::GraphicsTooLong => 2,
            Refusal::BadArray(_) => 3,
            Refusal::LinksOutside(_) => 4,
            Refusal::ValuesOutside(_) => 5,
            Refusal::TooManyNodes | Refusal::TooManyJunctions => 6,
            Refusal::TooShort(_) => 7,
            Refusal::TooManyLinks(_) => 8,
            Refusal::LinksStartTooHigh(_) => 9,
            Refusal::ValuesStartTooHigh(_) => 10,
            Refusal::TooManyRefs => 11,
            Refusal::WrongSize => 12,
            Refusal::NoSuchPlace => 13,
            Refusal::AtLimit => 14,
            Refusal::NoRoundFile => 15,
            Refusal::WrongLength => 16,
            Refusal::NoPath => 17,
            Refusal::AreaTaken => 18,
            Refusal::OtherArea => 19,
        }
    }

    // The place that it names, 0 if none.
    pub fn place(self) -> usize
        ensures { result ≡ place_of self }
    {
        match self {
            Refusal::BadArray(array) => array.place(),
            Refusal::LinksOutside(place)
            | Refusal::ValuesOutside(place)
            | Refusal::TooManyLinks(place)
            | Refusal::LinksStartTooHigh(place)
            | Refusal::ValuesStartTooHigh(place) => place,
            Refusal::GraphicsTooLong | Refusal::TooManyJunctions => 1,
            Refusal::TooShort(lent) => lent.place(),
            _ => 0,
        }
    }
}
