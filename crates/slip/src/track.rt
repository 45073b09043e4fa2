// The ends of a block, and the trains that run between them.
ghost use Rattle.slip.specs.Numbers.{class_letter_lem, class_of, end_number, end_of, named, other_end, train_of};
ghost use Rattle.slip.specs.Trains.{known_train_lem};
ghost use Rattle.slip.specs.Words.{class_word, end_word};
ghost use Rattle.std.specs.Prelude.{◌≡◌, Some, decimal};

use std::fmt;

// A number or a letter that names nothing.
#[derive(Clone, Copy, PartialEq, Eq, Debug)]
pub struct NamesNothing;

// An end of a block: its west end is one station, its east end the next.
#[derive(Clone, Copy, PartialEq, Eq, Debug)]
pub enum End {
    West,
    East,
}

impl End {
    // The other end of the same block.
    pub fn other(self) -> End
        ensures { result ≡ other_end self }
    {
        match self {
            End::West => End::East,
            End::East => End::West,
        }
    }
}

impl From<End> for u8 {
    ghost from_gives = { λ end number. number ≡ end_number end };

    fn from(end: End) -> u8 {
        match end {
            End::West => 0,
            End::East => 1,
        }
    }
}

impl From<End> for u32 {
    ghost from_gives = { λ end number. number ≡ end_number end };

    fn from(end: End) -> u32 {
        u32::from(u8::from(end))
    }
}

impl TryFrom<u32> for End {
    type Error = NamesNothing;

    ghost try_from_gives = { λ number end. end ≡ named (end_of number) };

    fn try_from(number: u32) -> Result<End, NamesNothing> {
        match number {
            0 => Ok(End::West),
            1 => Ok(End::East),
            _ => Err(NamesNothing),
        }
    }
}

impl fmt::Display for End {
    ghost output = { λ end. Some (end_word end) };

    fn fmt<W: fmt::Write>(&self, f: &mut fmt::Formatter<W>) -> fmt::Result {
        f.write_str(match self {
            End::West => "west",
            End::East => "east",
        })
    }
}

// What kind of train it is.
#[derive(Clone, Copy, PartialEq, Eq, Debug)]
pub enum Class {
    Passenger,
    Freight,
    Work,
    Light,
}

// Its letter in ASCII.
impl From<Class> for u8 {
    ghost from_gives = { λ class letter. letter ≡ class_letter_lem class };

    fn from(class: Class) -> u8 {
        match class {
            Class::Passenger => b'P',
            Class::Freight => b'F',
            Class::Work => b'W',
            Class::Light => b'L',
        }
    }
}

impl From<Class> for char {
    ghost from_gives = { λ class letter. letter ≡ class_letter_lem class };

    fn from(class: Class) -> char {
        char::from(u8::from(class))
    }
}

impl TryFrom<char> for Class {
    type Error = NamesNothing;

    ghost try_from_gives = { λ letter class. class ≡ named (class_of letter) };

    fn try_from(letter: char) -> Result<Class, NamesNothing> {
        match letter {
            'P' => Ok(Class::Passenger),
            'F' => Ok(Class::Freight),
            'W' => Ok(Class::Work),
            'L' => Ok(Class::Light),
            _ => Err(NamesNothing),
        }
    }
}

// A class is told by its letter.
impl fmt::Display for Class {
    ghost output = { λ class. Some (class_word class) };

    fn fmt<W: fmt::Write>(&self, f: &mut fmt::Formatter<W>) -> fmt::Result {
        f.write_char(char::from(*self))
    }
}

// A train's name. Any number can be written down; only 1 to 9,999 names a train.
#[derive(Clone, Copy, Debug, PartialEq, Eq)]
pub struct Train {
    pub number: u16,
}

impl Train {
    // Whether there is a train of this name.
    pub fn is_known(self) -> bool
        ensures { result ≡ known_train_lem self }
    {
        1 <= self.number && self.number <= 9999
    }
}

// The train of this number, if there is one.
impl TryFrom<u32> for Train {
    type Error = NamesNothing;

    ghost try_from_gives = { λ number train. train ≡ named (train_of number) };

    fn try_from(number: u32) -> Result<Train, NamesNothing> {
        let train = Train {
            number: u16::try_from(number).or(Err(NamesNothing))?,
        };
        if train.is_known() {
            Ok(train)
        } else {
            Err(NamesNothing)
        }
    }
}

impl fmt::Display for Train {
    ghost output = { λ train. Some (decimal train.number) };

    fn fmt<W: fmt::Write>(&self, f: &mut fmt::Formatter<W>) -> fmt::Result {
        let number = self.number;
        write!(f, "{number}")
    }
}
