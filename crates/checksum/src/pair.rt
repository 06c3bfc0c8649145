// Two checksums that were compared (document 02, C-18).
ghost use Rattle.std.specs.Prelude.{◌≡◌};
ghost use Rattle.checksum.specs.Pair.{no_checksums, is_none, differ};

// The checksum found in bytes, and the one worked out for them.
#[derive(Clone, Copy, PartialEq, Eq)]
pub struct ChecksumPair {
    pub found: u32,
    pub expected: u32,
}

impl ChecksumPair {
    // 0 for both: what stands where none are told. (No Option: 02, C-18, tells 0 for both, and a status that is handed in may hold any pair.)
    pub const NONE: ChecksumPair = ChecksumPair {
        found: 0,
        expected: 0,
    };

    // The constant is its rule's (DECISIONS 108).
    fn constants()
        ensures { ChecksumPair.NONE ≡ no_checksums }
    {}

    // 0 for both, which two that differ never are.
    pub fn is_none(self) -> bool
        ensures { result ≡ is_none self }
    {
        self == ChecksumPair::NONE
    }

    pub fn differ(self) -> bool
        ensures { result ≡ differ self }
    {
        self.found != self.expected
    }
}
