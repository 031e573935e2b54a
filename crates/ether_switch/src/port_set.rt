//! Sets of ports.
ghost use Rattle.std.specs.Prelude.{◌≡◌, ◌<◌, ℕ, Bool, false, not, ◌&&◌, ◌||◌, nat_eq};

/// A set of ports, by their numbers, 0 to 255. Port `i` is in the set if bit `i % 64` of the word `i / 64` is 1, where
/// bit 0 is the lowest.
///
/// ```
/// let mut set = PortSet::NONE;
/// set.insert(3);
/// assert!(rt; set.contains(3) && !set.contains(4));
/// ```
#[repr(C)]
#[derive(Clone, Copy, PartialEq, Eq, Debug)]
pub struct PortSet {
    /// The bits.
    pub words: [u64; 4],
}

impl PortSet {
    ghost use Rattle.ether_switch.specs.Ports.{has};

    /// The empty set.
    pub const NONE: PortSet = PortSet { words: [0; 4] };

    /// The set of one port.
    pub fn only(port: u8) -> PortSet
        ensures { (p : ℕ) → p < 256 → has result p ≡ nat_eq p port }
    {
        let mut set = PortSet::NONE;
        set.insert(port);
        set
    }

    /// Whether a port is in the set.
    pub fn contains(&self, port: u8) -> bool
        ensures { result ≡ has self.now port }
    {
        (self.words[port as usize / 64] >> (port % 64)) & 1 == 1
    }

    /// Adds a port to the set.
    pub fn insert(&mut self, port: u8)
        ensures { (p : ℕ) → p < 256 → has self.new p ≡ (nat_eq p port || has self.old p) }
    {
        self.words[port as usize / 64] |= 1 << (port % 64);
    }

    /// Removes a port from the set.
    pub fn remove(&mut self, port: u8)
        ensures { (p : ℕ) → p < 256 → has self.new p ≡ (not (nat_eq p port) && has self.old p) }
    {
        self.words[port as usize / 64] &= !(1 << (port % 64));
    }

    /// The ports that are in both sets.
    pub fn intersection(&self, other: &PortSet) -> PortSet
        ensures { (p : ℕ) → p < 256 → has result p ≡ (has self.now p && has other.now p) }
    {
        let [a, b, c, d] = self.words;
        let [e, f, g, h] = other.words;
        PortSet {
            words: [a & e, b & f, c & g, d & h],
        }
    }

    /// The ports that are in one of the sets.
    pub fn union(&self, other: &PortSet) -> PortSet
        ensures { (p : ℕ) → p < 256 → has result p ≡ (has self.now p || has other.now p) }
    {
        let [a, b, c, d] = self.words;
        let [e, f, g, h] = other.words;
        PortSet {
            words: [a | e, b | f, c | g, d | h],
        }
    }

    /// The ports of this set that are not in the other one.
    pub fn difference(&self, other: &PortSet) -> PortSet
        ensures { (p : ℕ) → p < 256 → has result p ≡ (has self.now p && not (has other.now p)) }
    {
        let [a, b, c, d] = self.words;
        let [e, f, g, h] = other.words;
        PortSet {
            words: [a & !e, b & !f, c & !g, d & !h],
        }
    }
}
