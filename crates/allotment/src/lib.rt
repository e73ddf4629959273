// The allotment of an amount by weights, share by share in the order of the weights.
#![tactic(auto)]

ghost use Rattle.allotment.specs.Stepper.{Carried, Asks, Gives};

#[derive(Clone, Copy)]
pub struct Allotment {
    // What is allotted.
    pub amount: u64,
    // The sum of all weights.
    pub total: u64,
    // The sum of the weights passed.
    pub passed: u64,
    // amount × passed / total: it was computed for the share before, and the next takes it off.
    pub quotient: u64,
    // How many divisions were made.
    pub divisions: u64,
}

#[derive(Clone, Copy)]
pub struct Share {
    pub value: u64,
    pub next: Allotment,
}

impl Allotment {
    pub fn new(amount: u64, total: u64) -> Allotment
        ensures { Carried amount total 0 0 result }
    {
        Allotment {
            amount,
            total,
            passed: 0,
            quotient: 0,
            divisions: 0,
        }
    }

    // The next weight's share: one division, also of a weight of 0, and none where the total is 0.
    pub fn share(self, weight: u64) -> Share
        requires { Asks self weight }
        ensures { Gives self weight result }
    {
        if self.total == 0 {
            return Share {
                value: 0,
                next: self,
            };
        }
        let passed = self.passed + weight;
        let quotient = self.amount * passed / self.total;
        Share {
            value: quotient - self.quotient,
            next: Allotment {
                passed,
                quotient,
                divisions: self.divisions + 1,
                ..self
            },
        }
    }
}
