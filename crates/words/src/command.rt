// What a line of a sheet can ask for.
use slip::End;

// The call that a line names by its first word.
#[derive(Clone, Copy)]
pub enum Name {
    Ask,
    Withdraw,
    Show,
    Enter,
    Form,
    Arrive,
    Repeat,
    Deliver,
    Fade,
}

// A call with its arguments. Numbers go up to 99,999 and the class is any capital:
// whether there is such a block, train or class is not judged here.
// Block and end stand apart in each, as the calls of a line take them.
#[derive(Clone, Copy, PartialEq, Eq, Debug)]
pub enum Command {
    Ask {
        block: u32,
        end: End,
        train: u32,
        class: char,
    },
    Withdraw {
        block: u32,
        end: End,
    },
    Show {
        block: u32,
        end: End,
    },
    Enter {
        block: u32,
        end: End,
        train: u32,
    },
    Form {
        block: u32,
        end: End,
    },
    Arrive {
        block: u32,
        end: End,
        train: u32,
    },
    Repeat {
        block: u32,
        end: End,
        train: u32,
    },
    Deliver,
    Fade,
}
