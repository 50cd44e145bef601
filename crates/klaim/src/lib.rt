//! The names that targets and fields are made of, one to four fields, and refusals. The definitions of documents 01 and 02 stand in specs/.
#![tactic(auto)]

ghost use Rattle.std.specs.Prelude.{◌≡◌, ◌≤◌, length, map};
ghost use Rattle.klaim.specs.Refusals.{number_of};
ghost use Rattle.klaim.specs.Fields.{items};

// "A site number and a variable number are different sorts": Loc and LocVar of document 001.
#[derive(Clone, Copy)]
pub struct Site(pub u8);

#[derive(Clone, Copy)]
pub struct Var(pub u8);

// A target or a field: a site, `self`, or a variable.
#[derive(Clone, Copy)]
pub enum Loc {
    At(Site),
    Here,
    Use(Var),
}

// A field of a template: a value, `!u`, or `_`, the "field that takes anything" of document 02, No. 1.
#[derive(Clone, Copy)]
pub enum Slot {
    Value(Loc),
    Bind(Var),
    Wildcard,
}

// The fields of a tuple or a template: one to four.
#[derive(Clone, Copy)]
pub enum Fields<T> {
    One([T; 1]),
    Two([T; 2]),
    Three([T; 3]),
    Four([T; 4]),
}

impl<T> Fields<T> {
    pub fn as_slice(&self) -> &[T]
        ensures value { result.now ≡ items self.now }
        ensures some { 1 ≤ length result.now }
        ensures few { length result.now ≤ 4 }
    {
        match self {
            Fields::One(a) => a,
            Fields::Two(a) => a,
            Fields::Three(a) => a,
            Fields::Four(a) => a,
        }
    }
}

impl<T: Copy> Fields<T> {
    // What f makes of each of them.
    pub fn map<U, F: Fn(T) -> U>(self, f: F) -> Fields<U>
        requires { F.IsAlwaysCallable f }
        ensures { (g : T → U) → ((x : T) (y : U) → F.post f x y → y ≡ g x) → items result ≡ map g (items self) }
    {
        match &self {
            Fields::One([a]) => Fields::One([f(*a)]),
            Fields::Two([a, b]) => Fields::Two([f(*a), f(*b)]),
            Fields::Three([a, b, c]) => Fields::Three([f(*a), f(*b), f(*c)]),
            Fields::Four([a, b, c, d]) => Fields::Four([f(*a), f(*b), f(*c), f(*d)]),
        }
    }
}

// Why a call is refused; the discriminant is the number of documents 01 and 02.
#[derive(Clone, Copy, PartialEq, Eq)]
pub enum Reason {
    // The row is not of its form.
    Form = 1,
    // A number over its limit, too many rows, or an input that is too long.
    Limit = 2,
    // A row out of order, foreign to the text, or repeated.
    Place = 3,
    // A site that the net does not have.
    Site = 4,
    // Lines out of turn, a line absent, or a child not greater than its parent.
    Turn = 5,
    // A line named twice or never.
    Naming = 6,
    // A variable bound twice in one template, or bound and used.
    Clash = 7,
    // A root with a free variable.
    Free = 8,
    // A report buffer that is too short.
    Buffer = 9,
    // No thread at the place.
    Thread = 21,
    // No tuple at the place.
    Tuple = 22,
    // The tuple does not agree with the template.
    Agreement = 23,
    // No arrival has the root.
    Arrival = 24,
    // The door does not pass the arrival.
    Door = 25,
    // A guarded step without its right.
    Right = 26,
    // No room for a thread or a tuple more.
    Room = 27,
    // No arrival to withdraw.
    Newest = 35,
    // A thread stands on a line of the newest arrival.
    Occupied = 36,
}

// A refusal: why, and the row at fault, 0 where it is none of them.
#[derive(Clone, Copy, PartialEq, Eq)]
pub struct Refusal {
    pub why: Reason,
    pub row: usize,
}

impl Reason {
    // The number of documents 01 and 02.
    pub fn number(self) -> u8
        ensures { result ≡ number_of self }
    {
        self as u8
    }
}

// A refusal for which no row is at fault.
impl From<Reason> for Refusal {
    ghost from_gives = { λ why refusal. refusal ≡ record { why = why; row = 0 } };

    fn from(why: Reason) -> Refusal {
        Refusal { why, row: 0 }
    }
}
