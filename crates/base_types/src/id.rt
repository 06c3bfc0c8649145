// A slot.
ghost use Rattle.std.specs.Prelude.{◌≡◌};
ghost use Rattle.base_types.specs.Slot.{highest_id, not_an_id};

// A frame ID, which is the number of the slot that the frame is sent in.
#[derive(Clone, Copy, PartialEq, Eq)]
pub struct Slot(pub u16);

impl Slot {
    pub const HIGHEST: u16 = 2047;

    // The constant is its rule's (DECISIONS 108).
    fn constants()
        ensures { Slot.HIGHEST ≡ highest_id }
    {}

    // Refusal 9.
    pub fn is_not_an_id(self) -> bool
        ensures { result ≡ not_an_id self.0 }
    {
        !(1..=Slot::HIGHEST).contains(&self.0)
    }
}
