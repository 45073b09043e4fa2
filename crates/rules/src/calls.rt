// The nine calls, with what they are called with: any number, good or not, can be handed in.

#[derive(Clone, Copy)]
pub enum Call {
    Ask {
        block: u32,
        end: u32,
        train: u32,
        class: char,
    },
    Withdraw {
        block: u32,
        end: u32,
    },
    Show {
        block: u32,
        end: u32,
    },
    Enter {
        block: u32,
        end: u32,
        train: u32,
    },
    Present {
        block: u32,
        end: u32,
        serial: u32,
        train: u32,
    },
    Arrive {
        block: u32,
        end: u32,
        train: u32,
    },
    Repeat {
        block: u32,
        end: u32,
        train: u32,
    },
    Deliver,
    Fade,
}
