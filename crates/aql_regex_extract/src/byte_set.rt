ghost use Rattle.std.specs.Prelude.{◌≡◌, ℕ, ◌<◌, ◌≤◌, ◌↔◌, true, All, IsTrue};
ghost use Rattle.regex_class.specs.Ranges.{in_ranges};
ghost use Rattle.aql_regex_extract.specs.ByteSets.{has, Has, Widens};

use regex_class::Class;

/// The last byte of ASCII.
const LAST_ASCII: u32 = 0x7F;

/// A set of bytes, as a flag for each.
#[derive(Drop)]
pub(crate) struct ByteSet {
    flags: [bool; 256],
}

impl ByteSet {
    /// The set without a byte.
    pub(crate) fn none() -> ByteSet {
        ByteSet {
            flags: [false; 256],
        }
    }

    /// The set of all bytes.
    pub(crate) fn all() -> ByteSet
        ensures { (b : ℕ) → b < 256 → Has result b }
    {
        let mut set = ByteSet::none();
        set.add_range(0, 0xFF);
        set
    }

    /// Whether the byte is in the set.
    #[inline]
    pub(crate) fn has(&self, byte: u8) -> bool
        ensures { result ≡ has self.now byte }
    {
        self.flags[byte as usize]
    }

    /// Whether each byte of the list is.
    pub(crate) fn has_each(&self, bytes: &[u8]) -> bool
        ensures { IsTrue result ↔ All (Has self.now) bytes.now }
    {
        for byte in bytes {
            if !self.has(*byte) {
                return false;
            }
        }
        true
    }

    /// Whether all bytes are.
    pub(crate) fn has_all(&self) -> bool
        ensures { IsTrue result → (b : ℕ) → b < 256 → Has self.now b }
    {
        for byte in 0..=255u8 {
            if !self.has(byte) {
                return false;
            }
        }
        true
    }

    /// Puts the bytes from `first` to `last` into the set.
    pub(crate) fn add_range(&mut self, first: u32, last: u32)
        requires { last ≤ 0xFF }
        ensures marks { (b : ℕ) → first ≤ b → b ≤ last → Has self.new b }
        ensures keeps { Widens self.old self.new }
    {
        for byte in first as usize..last as usize + 1 {
            self.flags[byte] = true;
        }
    }

    /// Puts the members of the class up to `most` into the set.
    pub(crate) fn add_class(&mut self, class: &Class, most: u32)
        requires { most ≤ 0xFF }
        ensures marks { (c : ℕ) → in_ranges class.now.ranges.items c ≡ true → c ≤ most → Has self.new c }
        ensures keeps { Widens self.old self.new }
    {
        for range in class.ranges.iter() {
            if range.0 > most {
                return;
            }
            self.add_range(range.0, range.1.min(most));
        }
    }

    /// Puts the bytes of the characters of the class into the set. Each byte of a character beyond
    /// ASCII is 0x80 or above.
    pub(crate) fn add_chars(&mut self, class: &Class)
        ensures ascii { (c : ℕ) → in_ranges class.now.ranges.items c ≡ true → c ≤ 0x7F → Has self.new c }
        ensures high { (c : ℕ) → in_ranges class.now.ranges.items c ≡ true → 0x80 ≤ c
            → (b : ℕ) → 0x80 ≤ b → b ≤ 0xFF → Has self.new b }
        ensures keeps { Widens self.old self.new }
    {
        self.add_class(class, LAST_ASCII);
        if !class.is_within(LAST_ASCII) {
            self.add_range(LAST_ASCII + 1, 0xFF);
        }
    }
}
