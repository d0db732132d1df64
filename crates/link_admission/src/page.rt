// How the numbers of one page stand, which follow one another.

ghost use Rattle.std.specs.Prelude.{◌≡◌, ◌↔◌, ◌/◌, ◌%◌, ◌<◌, ◌==◌, ◌≢◌, ℕ, IsTrue, if◌then◌else◌};
ghost use Rattle.std.specs.Int.{bit_at};
ghost use Rattle.link_admission.specs.Standings.{standing_bits, standing_from};
ghost use Rattle.link_admission.specs.Pages.{in_page, unused_page};

use crate::kinds::Standing;

/// How many numbers a page has.
pub(crate) const PAGE_LEN: u32 = 32;

/// How the numbers of a page stand, by two bits each: whether it is live, and whether it is closed.
#[derive(Clone, Copy)]
pub(crate) struct Page {
    live: u32,
    closed: u32,
}

/// Which page a number is on.
pub(crate) fn page_of(number: u32) -> u32
    ensures { result ≡ number / PAGE_LEN }
{
    number / PAGE_LEN
}

/// Its place there.
fn place_of(number: u32) -> u32
    ensures { result ≡ number % PAGE_LEN }
{
    number % PAGE_LEN
}

/// Whether the bit of a place is set.
fn is_set(bits: u32, place: u32) -> bool
    requires { place < PAGE_LEN }
    ensures { result ≡ (bit_at bits place == 1) }
{
    (bits >> place) & 1 == 1
}

/// These bits with another one at a place.
fn with_bit(bits: u32, place: u32, bit: bool) -> u32
    requires { place < PAGE_LEN }
    ensures here { (bit_at result place == 1) ≡ bit }
    ensures others { (i : ℕ) → i < PAGE_LEN → i ≢ place → bit_at result i ≡ bit_at bits i }
{
    if bit {
        bits | (1 << place)
    } else {
        bits & !(1 << place)
    }
}

/// Whether an endpoint that stands so is closed, at its client's end or at both.
fn is_closed(standing: Standing) -> bool
    ensures { result ≡ (standing_bits standing).1 }
{
    match standing {
        Standing::Unused | Standing::Live => false,
        Standing::HungUp | Standing::Dead => true,
    }
}

/// The standing with these bits.
fn standing_by(live: bool, closed: bool) -> Standing
    ensures { result ≡ standing_from (live, closed) }
{
    match (live, closed) {
        (false, false) => Standing::Unused,
        (true, false) => Standing::Live,
        (true, true) => Standing::HungUp,
        (false, true) => Standing::Dead,
    }
}

impl Page {
    /// A page of numbers that were never used.
    pub(crate) fn new() -> Page
        ensures page { result ≡ unused_page }
        ensures unused { (q : ℕ) → in_page result q ≡ Standing.Unused }
    {
        Page { live: 0, closed: 0 }
    }

    /// Whether no number of this page was used.
    pub(crate) fn is_unused(&self) -> bool
        ensures { IsTrue result ↔ (self.now ≡ unused_page) }
    {
        self.live == 0 && self.closed == 0
    }

    /// How a number of this page stands.
    pub(crate) fn at(&self, number: u32) -> Standing
        ensures { result ≡ in_page self.now number }
    {
        let place = place_of(number);
        standing_by(is_set(self.live, place), is_set(self.closed, place))
    }

    /// Gives a number of this page another standing, and gives back the one that it had.
    pub(crate) fn replace(&mut self, number: u32, standing: Standing) -> Standing
        ensures was { result ≡ in_page self.old number }
        ensures is { (q : ℕ) → in_page self.new q ≡ (if q % PAGE_LEN == number % PAGE_LEN then standing else in_page self.old q) }
    {
        let was = self.at(number);
        let place = place_of(number);
        self.live = with_bit(self.live, place, standing.is_live());
        self.closed = with_bit(self.closed, place, is_closed(standing));
        was
    }
}
