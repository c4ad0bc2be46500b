// Why a load or a save is refused.

#![tactic(auto)]

ghost use Rattle.std.specs.Prelude.{◌≡◌};
ghost use Rattle.refusal.specs.Refusal.{number_of};

// 10, 12 and 41 to 48, in this order.
#[derive(Clone, Copy, Debug, PartialEq, Eq)]
pub enum Refusal {
    Unsettled,
    Cells,
    Short,
    Unknown,
    Length,
    Cut,
    Space,
    Order,
    After,
    Room,
}

impl Refusal {
    // A refusal's number: a method, as the documents speak of it; a `From` would be no plainer.
    pub fn number(self) -> u64
        ensures { result ≡ number_of self }
    {
        match self {
            Refusal::Unsettled => 10,
            Refusal::Cells => 12,
            Refusal::Short => 41,
            Refusal::Unknown => 42,
            Refusal::Length => 43,
            Refusal::Cut => 44,
            Refusal::Space => 45,
            Refusal::Order => 46,
            Refusal::After => 47,
            Refusal::Room => 48,
        }
    }
}
