// Faults that are planned for calls to come.
ghost use Rattle.std.specs.Prelude.{◌≡◌, ℕ, ◌+◌, ◌≤◌};
ghost use Rattle.lsm_store.specs.Plans.{outcome_at, has_effect};

/// How a planned call of a `MemStore` fails.
#[derive(Clone, Copy, Debug, PartialEq, Eq)]
pub enum Fault {
    /// This call, without its effect.
    Once,
    /// This call, with its effect.
    OnceDone,
    /// This call, which is known to have done nothing.
    OnceNothing,
    /// This call and all later ones, without their effects.
    FromHere,
}

/// What comes of a call.
#[derive(Clone, Copy, Debug, PartialEq, Eq)]
pub enum Outcome {
    Done,
    Fails,
    FailsDone,
    NothingDone,
}

impl Outcome {
    pub fn has_effect(self) -> bool
        ensures { result ≡ has_effect self }
    {
        match self {
            Outcome::Done | Outcome::FailsDone => true,
            Outcome::Fails | Outcome::NothingDone => false,
        }
    }
}

/// Which call from now on has which fault: 1 is the next call, 0 one that has been made.
#[derive(Clone, Copy, Debug)]
pub struct Plan {
    pub call: u64,
    pub fault: Fault,
}

impl Plan {
    /// No fault.
    pub const NONE: Plan = Plan {
        call: 0,
        fault: Fault::Once,
    };

    /// What comes of the next call.
    pub fn outcome(self) -> Outcome
        ensures { result ≡ outcome_at self 1 }
    {
        match (self.call, self.fault) {
            (0, Fault::FromHere) => Outcome::Fails,
            (1, Fault::OnceDone) => Outcome::FailsDone,
            (1, Fault::OnceNothing) => Outcome::NothingDone,
            (1, _) => Outcome::Fails,
            _ => Outcome::Done,
        }
    }

    /// The plan after the next call.
    pub fn next(self) -> Plan
        ensures { (n : ℕ) → 1 ≤ n → outcome_at result n ≡ outcome_at self (n + 1) }
    {
        Plan {
            call: self.call.saturating_sub(1),
            fault: self.fault,
        }
    }
}
