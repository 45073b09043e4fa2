// Form A, by which a train passes a signal at Stop: written, signed twice, and then presented or voided.
#![tactic(auto)]

ghost use Rattle.std.specs.Prelude.{◌≡◌, true, false};

// What stands on a form: the block and end, and the serial and train of the row that is held there.
#[derive(Clone, Copy, PartialEq, Eq, Debug)]
pub struct Paper {
    pub block: u32,
    pub end: u32,
    pub serial: u32,
    pub train: u32,
}

// A form that nobody has signed.
#[derive(Drop)]
pub struct Written {
    paper: Paper,
}

// A form that the conductor has signed.
#[derive(Drop)]
pub struct HalfSigned {
    paper: Paper,
}

// A form that both have signed. It is presented or voided: it cannot lapse.
pub struct Signed {
    paper: Paper,
    // a flag, and no type of its own: the drop that nobody may call has to require something that a form could be
    used: bool,
}

impl Written {
    pub fn write(paper: Paper) -> Written
        ensures { result.paper ≡ paper }
    {
        Written { paper }
    }

    // What stands on it.
    pub fn paper(&self) -> Paper
        ensures { result ≡ self.now.paper }
    {
        self.paper
    }

    // The conductor signs first.
    pub fn sign_as_conductor(self) -> HalfSigned
        ensures { result.paper ≡ self.paper }
    {
        let Written { paper } = self;
        HalfSigned { paper }
    }
}

impl HalfSigned {
    // The engineman signs second.
    pub fn sign_as_engineman(self) -> Signed
        ensures paper { result.paper ≡ self.paper }
        ensures unused { result.used ≡ false }
    {
        let HalfSigned { paper } = self;
        Signed { paper, used: false }
    }
}

impl Signed {
    // Hands the form in: it is used up, whatever comes of it.
    pub fn hand_in(self) -> Paper
        ensures { result ≡ self.paper }
    {
        let Signed { paper, used: _ } = self;
        paper
    }

    // Tears the form up, and answers what stood on it.
    pub fn void(self) -> Paper
        ensures { result ≡ self.paper }
    {
        self.hand_in()
    }
}

// Only a form that is used may be let go. No form is made so, and handing in takes it apart: one that is merely let go is not proved.
impl Drop for Signed {
    fn drop(self)
        requires { self.used ≡ true }
    {
        let Signed { paper: _, used: _ } = self;
    }
}

// Writes a form, has it signed twice, and voids it.
pub fn written_and_voided(paper: Paper) -> Paper
    ensures { result ≡ paper }
{
    let form = Written::write(paper)
        .sign_as_conductor()
        .sign_as_engineman();
    form.void()
}
