ghost use Rattle.std.specs.Prelude.{◌≡◌, ℕ, ◌<◌, ◌≤◌, ◌+◌, ◌-◌, ◌*◌, ◌^◌, length, take, slice_index, IfSome, IfNone};
ghost use Rattle.bit_store.specs.Bits.{ones_of, IsZeroAt};
ghost use Rattle.elias_fano.specs.Marks.{AreMarks};
ghost use Rattle.elias_fano.specs.Reading.{place_of_one};

use bit_store::BitView;

// More marks make each search shorter, and each list larger.
const MOST: usize = 512;

/// How many ones of a list's upper part stand before bits that are evenly spaced, so that a look at the
/// list goes through few of its words. They take 4 KB.
#[derive(Debug, Drop)]
pub struct Marks {
    // Bits from one mark to the next.
    block: u64,
    // How many marks there are.
    used: usize,
    // The ones before bit `j * block`, for each of them.
    ones: [u64; MOST],
}

impl Marks {
    /// The marks of an upper part; every word of it is looked at once.
    pub(crate) fn of(upper: &BitView<'_>) -> Marks
        requires { length upper.now < 2 ^ 63 }
        ensures { AreMarks upper.now result }
    {
        let len = upper.len();
        let block = len / (64 * MOST as u64) * 64 + 64;
        let mut ones = [0; MOST];
        let mut used = 1;
        let mut at = 0;
        let mut total = 0;
        while used < MOST && block < len - at {
            total += upper.ones_between(at, at + block);
            at += block;
            ones[used] = total;
            used += 1;
        }
        Marks { block, used, ones }
    }

    // The last mark with at most k ones before it.
    fn before_one(&self, k: u64) -> usize
        requires used { 0 < self.now.used }
        requires most { self.now.used ≤ 512 }
        requires first { slice_index self.now.ones 0 ≡ 0 }
        ensures inside { result < self.now.used }
        ensures low { slice_index self.now.ones result ≤ k }
        ensures last { result + 1 < self.now.used → k < slice_index self.now.ones (result + 1) }
    {
        let mut low = 0;
        let mut high = self.used;
        while high - low > 1 {
            let middle = low + (high - low) / 2;
            if self.ones[middle] <= k {
                low = middle;
            } else {
                high = middle;
            }
        }
        low
    }

    // The last mark with at most k zeros before it.
    fn before_zero(&self, k: u64) -> usize
        requires used { 0 < self.now.used }
        requires most { self.now.used ≤ 512 }
        requires fits { (j : ℕ) → j < self.now.used → j * self.now.block < 2 ^ 63 }
        requires few { (j : ℕ) → j < self.now.used → slice_index self.now.ones j ≤ j * self.now.block }
        ensures inside { result < self.now.used }
        ensures low { result * self.now.block - slice_index self.now.ones result ≤ k }
        ensures last { result + 1 < self.now.used → k < (result + 1) * self.now.block - slice_index self.now.ones (result + 1) }
    {
        let mut low = 0;
        let mut high = self.used;
        while high - low > 1 {
            let middle = low + (high - low) / 2;
            if middle as u64 * self.block - self.ones[middle] <= k {
                low = middle;
            } else {
                high = middle;
            }
        }
        low
    }

    /// The place of the k-th 1, with a look at fewer than `block` bits behind a mark.
    fn one(&self, upper: &BitView<'_>, k: u64) -> u64
        requires marks { AreMarks upper.now self.now }
        requires within { k < ones_of upper.now }
        ensures { result ≡ place_of_one upper.now k }
    {
        let mark = self.before_one(k);
        let from = mark as u64 * self.block;
        upper.select_one_from(from, k - self.ones[mark]).unwrap()
    }

    /// The place of the k-th 0, with a look at fewer than `block` bits behind a mark.
    fn zero(&self, upper: &BitView<'_>, k: u64) -> Option<u64>
        requires { AreMarks upper.now self.now }
        ensures found { IfSome result (λ p. IsZeroAt upper.now p × (p ≡ ones_of (take p upper.now) + k)) }
        ensures none { IfNone result (length upper.now ≤ ones_of upper.now + k) }
    {
        let mark = self.before_zero(k);
        let from = mark as u64 * self.block;
        upper.select_zero_from(from, k - (from - self.ones[mark]))
    }
}

/// The place of the k-th 1 of an upper part, found from its marks where it has some.
pub fn one_of(upper: &BitView<'_>, marks: Option<&Marks>, k: u64) -> u64
    requires marks { IfSome marks (λ m. AreMarks upper.now m.now) }
    requires within { k < ones_of upper.now }
    ensures { result ≡ place_of_one upper.now k }
{
    match marks {
        Some(marks) => marks.one(upper, k),
        None => upper.select_one(k).unwrap(),
    }
}

/// The place of the k-th 0 of an upper part, found from its marks where it has some.
pub fn zero_of(upper: &BitView<'_>, marks: Option<&Marks>, k: u64) -> Option<u64>
    requires { IfSome marks (λ m. AreMarks upper.now m.now) }
    ensures found { IfSome result (λ p. IsZeroAt upper.now p × (p ≡ ones_of (take p upper.now) + k)) }
    ensures none { IfNone result (length upper.now ≤ ones_of upper.now + k) }
{
    match marks {
        Some(marks) => marks.zero(upper, k),
        None => upper.select_zero_from(0, k),
    }
}
