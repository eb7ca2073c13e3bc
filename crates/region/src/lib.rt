// A region's id, and the constants of `region.rs`.

#![tactic(auto)]

ghost use Rattle.std.specs.Prelude.{◌≡◌, ◌+◌, ◌<◌};
ghost use Rattle.rules.specs.Growth.{flagged};

// A region of a field.
#[derive(Clone, Copy)]
pub struct RegionId(pub u16);

impl RegionId {
    // No region: the span is not walkable, or not yet in one.
    pub const NONE: RegionId = RegionId(0);
    // The flag of a border region.
    pub const BORDER_REGION: RegionId = RegionId(0x8000);

    pub const MAX: RegionId = RegionId(65535);

    // The id that lies `other` further on: an addition that may not overflow.
    pub fn add(self, other: u16) -> RegionId
        requires { self.0 + other < 65536 }
        ensures { result.0 ≡ self.0 + other }
    {
        RegionId(self.0 + other)
    }

    // The id bears the border flag: `intersects(BORDER_REGION)`.
    pub fn is_border(self) -> bool
        ensures { result ≡ flagged self.0 }
    {
        RegionId::BORDER_REGION.0 <= self.0
    }
}
