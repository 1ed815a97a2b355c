// The table of signs: their names and numbers, and what each does to the pending operands.
ghost use Rattle.std.specs.Prelude.{◌≡◌};
ghost use Rattle.word.specs.Sign.{number_of, Numbered, kind_of};

use limits::most::LARGEST_LABEL;

// "9+L: label L", "so the largest sign is 65,544."
pub const FIRST_LABEL: u32 = 9;

pub const LARGEST_SIGN: u32 = FIRST_LABEL + LARGEST_LABEL;

// The signs in the order of their numbers. A label is any number here, and `Numbered` a clause where its sign is written: with labels of 16 bits the
// conversion could fail, and each sign of an accepted word would be unwrapped with a proof.
#[derive(Clone, Copy, PartialEq, Eq)]
pub enum Sign {
    Empty,
    Itself,
    Child,
    Parent,
    Composition,
    FirstProjection,
    SecondProjection,
    Intersection,
    Inverse,
    Label(u32),
}

// The sign that a number stands for; that no second one does is `number_unique`.
impl From<u32> for Sign {
    ghost from_gives = { λ number sign. number_of sign ≡ number };

    fn from(number: u32) -> Self {
        match number {
            0 => Sign::Empty,
            1 => Sign::Itself,
            2 => Sign::Child,
            3 => Sign::Parent,
            4 => Sign::Composition,
            5 => Sign::FirstProjection,
            6 => Sign::SecondProjection,
            7 => Sign::Intersection,
            8 => Sign::Inverse,
            _ => Sign::Label(number - FIRST_LABEL),
        }
    }
}

impl Sign {
    // Its number in the table.
    pub fn number(self) -> u32
        requires { Numbered self }
        ensures { result ≡ number_of self }
    {
        match self {
            Sign::Empty => 0,
            Sign::Itself => 1,
            Sign::Child => 2,
            Sign::Parent => 3,
            Sign::Composition => 4,
            Sign::FirstProjection => 5,
            Sign::SecondProjection => 6,
            Sign::Intersection => 7,
            Sign::Inverse => 8,
            Sign::Label(label) => FIRST_LABEL + label,
        }
    }
}

// What a sign does to the pending operands: an operand, an operand that is a step, an operator on one or on two.
#[derive(Clone, Copy)]
pub enum Kind {
    Operand,
    Step,
    Unary,
    Binary,
}

// "Signs 4 and 7 take the two latest operands, the earlier as first; 5, 6 and 8 take one. Signs 2 and 3 are steps."
// By its number and not as a `Sign`: numbers are compared, where the ten cases of an enum become a jump through a table. Tried: the processor guesses
// that jump wrongly at most signs of a word without a pattern, and to ask such a word again and again took 1.4 to 2.8 times as long.
pub fn kind_of(sign: u32) -> Kind
    ensures { result ≡ kind_of sign }
{
    match sign {
        0 | 1 => Kind::Operand,
        2 | 3 => Kind::Step,
        4 | 7 => Kind::Binary,
        5 | 6 | 8 => Kind::Unary,
        _ => Kind::Operand,
    }
}
