//! Sessions that are drawn, each from where the one before ended; examples/made_sessions.py draws the same.
ghost use Rattle.std.specs.Prelude.{◌<◌, ◌≤◌, ◌^◌};

use std::alloc::{AllocError, Global};

// The lines of a session are drawn from these. A capital letter stands for a word that is drawn from the list that
// `words_for` gives, N for a number that is the last one or up to three above it.
const FORMS: [&str; 34] = [
    "tx N\nput storage KKK V\nput storage KKK V\nput storage KKK V\nput storage KKK V\nput storage KKK V\n\
     put storage KKK V\nput storage KKK V\nput storage KKK V\nput storage KKK V\nput storage KKK V\ncommit",
    "tx N\nmark tracesto KKK\nmark tracesto KKK\nmark tracesto KKK\nmark tracesto KKK\nmark tracesto KKK\n\
     mark tracesto KKK\nmark tracesto KKK\nmark tracesto KKK\nmark tracesto KKK\nmark tracesto KKK\ncommit",
    "tx N",
    "tx N\nput D K V",
    "tx N\nput D K V\nput D KK V\nmark I K",
    "tx N\nput D K V\ndel D K\nmark I K\ncommit",
    "tx N\nput D K V\ndel D K\nmark I K\ncommit",
    "tx N\nput D K V\nmark I KK\nmark I K\nput D K V\ncommit",
    "tx N\nput D K V\nput D KK V\nput D KKK V\nput D K V\ncommit",
    "tx N\nput D K V\nput D KK V\nput D KKK V\ndel D K\ncommit",
    "put D K V",
    "del D K",
    "mark I K",
    "commit",
    "open",
    "open",
    "close T",
    "settle",
    "latest T D K",
    "latest T D K",
    "asof T D M K",
    "asof T D M KK",
    "range T D M E E L",
    "range T D N - - 1000",
    "history T D B B E L",
    "history T D B - - 1000",
    "index T X K B B asc L",
    "index T I K B B desc L",
    "put I K V",
    "mark D K",
    "put D K -",
    "tx M",
    "del D",
    "unwind M",
];

const DOMAINS: [&str; 3] = ["accounts", "storage", "code"];

const INDEXES: [&str; 4] = ["logaddrs", "logtopics", "tracesfrom", "tracesto"];

const ENTITIES: [&str; 5] = ["accounts", "storage", "code", "logaddrs", "tracesto"];

const KEYS: [&str; 8] = [
    "00",
    "aa",
    "aa00",
    "aaff",
    "AB",
    "ff",
    "0102030405060708",
    "a1a2a3a4a5a6a7a8a9",
];

const VALUES: [&str; 4] = [
    "00",
    "01",
    "ffff",
    "000102030405060708090a0b0c0d0e0f101112131415161718191a1b1c1d1e1f20",
];

const TRANSACTIONS: [&str; 5] = ["1", "1", "1", "2", "3"];

const NUMBERS: [&str; 9] = [
    "0",
    "1",
    "2",
    "5",
    "8",
    "13",
    "21",
    "30",
    "9223372036854775807",
];

const BOUNDS: [&str; 4] = ["-", "0", "4", "16"];

const ENDS: [&str; 4] = ["-", "-", "aa", "aa01"];

const LIMITS: [&str; 5] = ["1", "2", "3", "1000", "1001"];

// The words for a letter; none where it stands for itself.
fn words_for(letter: char) -> &'static [&'static str] {
    match letter {
        'D' => &DOMAINS,
        'I' => &INDEXES,
        'X' => &ENTITIES,
        'K' => &KEYS,
        'V' => &VALUES,
        'T' => &TRANSACTIONS,
        'M' => &NUMBERS,
        'B' => &BOUNDS,
        'E' => &ENDS,
        'L' => &LIMITS,
        _ => &[],
    }
}

// How many numbers a large step has.
const LARGE: u64 = 200;

/// What sessions are drawn from.
#[derive(Drop)]
pub(crate) struct Draws {
    state: u64,
    // The last number that was drawn for N.
    number: u64,
}

impl Draws {
    pub(crate) fn new(seed: u64) -> Draws {
        Draws {
            state: seed,
            number: 0,
        }
    }

    fn below(&mut self, limit: u64) -> u64
        requires { 1 ≤ limit }
        ensures { result < limit }
    {
        self.state = self
            .state
            .wrapping_mul(6364136223846793005)
            .wrapping_add(1442695040888963407);
        (self.state >> 33) % limit
    }

    // One of the words; none where there are none.
    fn one_of(&mut self, words: &[&'static str]) -> Option<&'static str> {
        if words.is_empty() {
            return None;
        }
        let at = self.below(words.len() as u64);
        Some(words[at as usize])
    }

    fn add_line(&mut self, alloc: Global, form: &str, text: &mut String) -> Result<(), AllocError> {
        for letter in form.chars() {
            if letter == 'N' {
                self.number = self.number.wrapping_add(self.below(4));
                text.push_str(format!(in alloc; "{}", self.number)?.as_str())?;
            } else if let Some(word) = self.one_of(words_for(letter)) {
                text.push_str(word)?;
            } else {
                text.push(letter)?;
            }
        }
        text.push('\n')
    }

    /// The lines of a session; many where its steps are large.
    pub(crate) fn session(&mut self, alloc: Global, size: u64) -> Result<String, AllocError> {
        let mut text = String::new(alloc);
        let lines = if size == LARGE {
            900
        } else {
            20 + self.below(80)
        };
        self.number = 0;
        for _ in 0..lines {
            if let Some(form) = self.one_of(&FORMS) {
                self.add_line(alloc, form, &mut text)?;
            }
        }
        Ok(text)
    }

    /// How many numbers a step has.
    pub(crate) fn size(&mut self) -> u64
        ensures from_one { 1 ≤ result }
        ensures within { result ≤ 2 ^ 32 }
    {
        match self.below(10) {
            0 => LARGE,
            size => size,
        }
    }
}
