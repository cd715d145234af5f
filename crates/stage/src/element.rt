// What the elements of a scene may be.
use crate::number::number;
use crate::wrong::Wrong;
use std::fmt::Display;

pub(crate) trait Element: Copy + Display {
    const BLANK: Self;

    // Not `FromStr`: that of `u16` and `f32` takes more words.
    fn read(word: &str) -> Result<Self, Wrong>;
}

impl Element for u16 {
    const BLANK: u16 = 0;

    fn read(word: &str) -> Result<u16, Wrong> {
        let n = number(word).map_err(|_| Wrong::Word)?;
        u16::try_from(n).map_err(|_| Wrong::Word)
    }
}

// Digits, a point and a minus alone: `parse` would also take a plus, an exponent, `inf` and `nan`.
fn looks_decimal(word: &str) -> bool {
    word.bytes()
        .all(|c| c.is_ascii_digit() || c == b'.' || c == b'-')
}

impl Element for f32 {
    const BLANK: f32 = 0.0;

    fn read(word: &str) -> Result<f32, Wrong> {
        if !looks_decimal(word) {
            return Err(Wrong::Float);
        }
        word.parse()
            .ok()
            .filter(|x: &f32| x.is_finite())
            .ok_or(Wrong::Float)
    }
}
