use bit_store::BitView;

/// The two parts of a text of a list: the low `width` bits of each item, and the ones that say the rest.
#[derive(Debug, Drop)]
pub struct Parts<'a> {
    pub count: u64,
    pub width: u32,
    pub lower: BitView<'a>,
    pub upper: BitView<'a>,
}

impl<'a> Parts<'a> {
    ghost use Rattle.std.specs.Prelude.{◌≡◌, ◌<◌, ◌*◌, ◌^◌, length, take, drop};
    ghost use Rattle.bit_store.specs.Bits.{number_of};
    ghost use Rattle.elias_fano.specs.Reading.{IsSound, item_at, place_of_one};

    /// The low bits of item `i`.
    pub fn low(&self, i: u64) -> u64
        requires lower { length self.now.lower ≡ self.now.count * self.now.width }
        requires fits { self.now.count * self.now.width < 2 ^ 64 }
        requires narrow { self.now.width < 64 }
        requires within { i < self.now.count }
        ensures value { result ≡ number_of (take self.now.width (drop (i * self.now.width) self.now.lower)) }
        ensures small { result < 2 ^ self.now.width }
    {
        self.lower.field(i * u64::from(self.width), self.width)
    }

    /// Item `i`, whose 1 stands at `place`.
    pub fn item(&self, i: u64, place: u64) -> u64
        requires sound { IsSound self.now }
        requires within { i < self.now.count }
        requires place { place ≡ place_of_one self.now.upper i }
        ensures { result ≡ item_at self.now i }
    {
        ((place - i) << self.width) + self.low(i)
    }

    /// The same parts once more.
    pub fn again(&self) -> Parts<'a>
        ensures { result ≡ self.now }
    {
        Parts {
            count: self.count,
            width: self.width,
            lower: self.lower.again(),
            upper: self.upper.again(),
        }
    }
}
