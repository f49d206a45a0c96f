// What the calls answer: their result, or one refusal of document 01 or 02.
#![tactic(auto)]

ghost use Rattle.std.specs.Prelude.{◌≡◌};
ghost use Rattle.answers.specs.Refusals.{number};

// Why a call is refused. Each case stands for the number of its cause.
#[derive(Clone, Copy, PartialEq, Eq)]
pub enum Refusal {
    Side = 1,
    Tree = 2,
    NumbersLength = 3,
    CoefficientLimit = 4,
    PassiveNotZero = 5,
    Point = 6,
    Box = 7,
    Level = 8,
    Function = 9,
    NumberLimit = 10,
    Tariff = 11,
    FileEnds = 12,
    FileTag = 13,
    FileFieldLength = 14,
    FileGoesOn = 15,
    OutputLength = 16,
    TreeOutputShort = 17,
    FileOutputShort = 18,
    Slip = 19,
    FileCount = 20,
    NoTable = 21,
    Window = 22,
    Record = 23,
}

impl Refusal {
    // The number of the cause, as other languages get it.
    pub fn number(self) -> u8
        ensures { result ≡ number self }
    {
        self as u8
    }
}

// The least and the greatest level under a box, with the number of tree nodes visited.
#[derive(Clone, Copy)]
pub struct LevelsUnder {
    pub least: u8,
    pub greatest: u8,
    pub visited: usize,
}

// Document 02: "a slip: box, level, new tree length, active functions of each level over the new tree, and the tree
// nodes that one least-level call over the box will visit in the new tree".
#[derive(Clone, Copy, PartialEq, Eq)]
pub struct Slip {
    pub u0: usize,
    pub v0: usize,
    pub u1: usize,
    pub v1: usize,
    pub level: usize,
    pub length: usize,
    pub active0: usize,
    pub active1: usize,
    pub active2: usize,
    pub active3: usize,
    pub visited: usize,
}

// Document 02: "One record holds the watts and both slopes as f64", slopes in watts per eighth of a cell.
#[derive(Clone, Copy)]
pub struct WattsAndSlopes {
    pub watts: f64,
    pub along_u: f64,
    pub along_v: f64,
}

// What file reading loads: the tree's length and the sides of the sheet.
#[derive(Clone, Copy)]
pub struct Loaded {
    pub length: usize,
    pub w: usize,
    pub h: usize,
}

// The part of a file that its note is.
#[derive(Clone, Copy)]
pub struct Note {
    pub offset: usize,
    pub length: usize,
}

// The bench loader returns what file reading does, and "whether a note stands there".
#[derive(Clone, Copy)]
pub struct Bench {
    pub loaded: Loaded,
    pub note: Option<Note>,
}

// A grid converted over a tree gives the sides of its sheet.
#[derive(Clone, Copy)]
pub struct Sheet {
    pub w: usize,
    pub h: usize,
}

// Document 02: "the state is the number held and the place of the oldest".
#[derive(Clone, Copy)]
pub struct WindowState {
    pub held: usize,
    pub oldest: usize,
}

// The least and the greatest of the records held.
#[derive(Clone, Copy)]
pub struct Extremes {
    pub least: i32,
    pub greatest: i32,
}

// Document 02: "the total, least and greatest of the records held. ... With none held the total is 0 and the other two
// are marked missing."
#[derive(Clone, Copy)]
pub struct Figures {
    pub total: i64,
    pub extremes: Option<Extremes>,
}
