//! Sets of members.
ghost use Rattle.std.specs.Prelude.{ℕ, ◌≡◌, ◌≢◌, ◌-◌, ◌<◌, ◌≤◌, ◌==◌, ◌↔◌, min, max, IsTrue, IsSome, IfSome, count_ones};
ghost use Rattle.std.specs.Int.{bit_at};

use crate::MemberId;

/// A set of members, as bits: the bit at a member's number is 1 exactly where the set contains that member. Sets of the
/// same members are equal. Their order is that of their bits as numbers.
#[derive(Clone, Copy, Debug, PartialEq, Eq, PartialOrd, Ord)]
pub struct MemberSet {
    /// Bit `k`, from the lowest on, is the member of number `k`.
    pub bits: u16,
}

impl MemberSet {
    /// The set of nobody.
    pub fn empty() -> MemberSet
        ensures { result.bits ≡ 0 }
    {
        MemberSet { bits: 0 }
    }

    /// Whether nobody is in it.
    pub fn is_empty(self) -> bool
        ensures { result ≡ (self.bits == 0) }
    {
        self.bits == 0
    }

    /// Whether the member is in it.
    #[tactic(auto, using(std::proofs::lemmas::Nat::Bits::shr_and_one))]
    pub fn contains(self, member: MemberId) -> bool
        ensures { result ≡ (bit_at self.bits member.number == 1) }
    {
        (self.bits >> member.number) & 1 == 1
    }

    /// How many members are in it.
    pub fn len(self) -> u32
        ensures { result ≡ count_ones self.bits }
    {
        self.bits.count_ones()
    }

    /// This set and the member.
    pub fn with(self, member: MemberId) -> MemberSet
        ensures same { bit_at result.bits member.number ≡ 1 }
        ensures others { (k : ℕ) → k ≢ member.number → bit_at result.bits k ≡ bit_at self.bits k }
    {
        MemberSet {
            bits: self.bits | (1 << member.number),
        }
    }

    /// This set but for the member.
    pub fn without(self, member: MemberId) -> MemberSet
        ensures same { bit_at result.bits member.number ≡ 0 }
        ensures others { (k : ℕ) → k ≢ member.number → bit_at result.bits k ≡ bit_at self.bits k }
        ensures less { bit_at self.bits member.number ≡ 1 → result.bits < self.bits }
    {
        MemberSet {
            bits: self.bits & !(1 << member.number),
        }
    }

    /// The members of either set.
    #[tactic(auto, using(std::proofs::lemmas::Nat::Bits::bit_at_or))]
    pub fn union(self, other: MemberSet) -> MemberSet
        ensures { (k : ℕ) → bit_at result.bits k ≡ max (bit_at self.bits k) (bit_at other.bits k) }
    {
        MemberSet {
            bits: self.bits | other.bits,
        }
    }

    /// The members of both sets.
    #[tactic(auto, using(std::proofs::lemmas::Nat::Bits::bit_at_and))]
    pub fn intersection(self, other: MemberSet) -> MemberSet
        ensures { (k : ℕ) → bit_at result.bits k ≡ min (bit_at self.bits k) (bit_at other.bits k) }
    {
        MemberSet {
            bits: self.bits & other.bits,
        }
    }

    /// The members of this set that aren't in the other.
    pub fn difference(self, other: MemberSet) -> MemberSet
        ensures { (k : ℕ) → bit_at result.bits k ≡ bit_at self.bits k - bit_at other.bits k }
    {
        MemberSet {
            bits: self.bits & !other.bits,
        }
    }

    /// Whether each member of this set is in the other.
    pub fn is_subset(self, other: MemberSet) -> bool
        ensures { IsTrue result ↔ ((k : ℕ) → bit_at self.bits k ≤ bit_at other.bits k) }
    {
        self.bits & other.bits == self.bits
    }

    /// The first of its members in the order of their numbers. `None` exactly where it is empty.
    pub fn first(self) -> Option<MemberId>
        ensures found { IsSome result ↔ (0 < self.bits) }
        ensures inside { IfSome result (λ member. bit_at self.bits member.number ≡ 1) }
        ensures before { IfSome result (λ member. (k : ℕ) → k < member.number → bit_at self.bits k ≡ 0) }
    {
        if self.bits == 0 {
            None
        } else {
            MemberId::new(self.bits.trailing_zeros() as u8)
        }
    }
}
