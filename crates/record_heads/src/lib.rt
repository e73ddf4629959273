// A record's head with names, a case for each kind, from its numbers. Product and period stay numbers, as `head_of`'s clause and the year's definitions read them.
#![tactic(auto)]

ghost use Rattle.std.specs.Prelude.{◌≡◌, ◌≤◌, length};
ghost use Rattle.record_heads.specs.Record.{head_of};

#[derive(Clone, Copy)]
pub struct OpeningHead {
    pub leap: u64,
    pub factor: u64,
    pub requirement: u64,
}

#[derive(Clone, Copy)]
pub struct RegistrationHead {
    pub id: u64,
    pub seller: u64,
    pub area: u64,
    pub zone: u64,
    pub product: u64,
    pub committed: u64,
    pub rate: u64,
}

#[derive(Clone, Copy)]
pub struct LseHead {
    pub id: u64,
    pub obligation: u64,
}

// An event of kind 4, or of kind 8, which is one of period 3 with two reductions an entry, on-peak and off-peak: it is dual. A flag, as the
// rules read it (`owed.Owed`).
#[derive(Clone, Copy)]
pub struct EventHead {
    pub area: u64,
    pub month: u64,
    pub period: u64,
    pub dual: bool,
}

#[derive(Clone, Copy)]
pub struct TestHead {
    pub zone: u64,
    pub product: u64,
    pub month: u64,
}

#[derive(Clone, Copy)]
pub struct CloseHead {
    pub month: u64,
}

#[derive(Clone, Copy)]
pub struct ClearingHead {
    pub registration: u64,
    pub price: u64,
    pub kw: u64,
}

#[derive(Clone, Copy)]
pub struct RetestHead {
    pub seller: u64,
    pub zone: u64,
    pub product: u64,
    pub month: u64,
}

#[derive(Clone, Copy)]
pub enum Head {
    Opening(OpeningHead),
    Registration(RegistrationHead),
    Lse(LseHead),
    Event(EventHead),
    Test(TestHead),
    Close(CloseHead),
    Clearing(ClearingHead),
    Retest(RetestHead),
}

// The head of a record with these numbers.
#[tactic(auto, unfolding(crate::specs::Record::head_of))]
pub fn head_of(values: &[u64]) -> Head
    requires { 8 ≤ length values.now }
    ensures { result ≡ head_of values.now }
{
    match values[0] {
        1 => Head::Opening(OpeningHead {
            leap: values[1],
            factor: values[2],
            requirement: values[3],
        }),
        2 => Head::Registration(RegistrationHead {
            id: values[1],
            seller: values[2],
            area: values[3],
            zone: values[4],
            product: values[5],
            committed: values[6],
            rate: values[7],
        }),
        3 => Head::Lse(LseHead {
            id: values[1],
            obligation: values[2],
        }),
        4 => Head::Event(EventHead {
            area: values[1],
            month: values[2],
            period: values[3],
            dual: false,
        }),
        5 => Head::Test(TestHead {
            zone: values[1],
            product: values[2],
            month: values[3],
        }),
        6 => Head::Close(CloseHead { month: values[1] }),
        7 => Head::Clearing(ClearingHead {
            registration: values[1],
            price: values[2],
            kw: values[3],
        }),
        8 => Head::Event(EventHead {
            area: values[1],
            month: values[2],
            period: 3,
            dual: true,
        }),
        9 => Head::Retest(RetestHead {
            seller: values[1],
            zone: values[2],
            product: values[3],
            month: values[4],
        }),
        _ => Head::Close(CloseHead { month: 0 }), // no kind
    }
}
