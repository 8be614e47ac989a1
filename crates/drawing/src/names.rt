// How the picture names variables and rails.
use std::fmt;

// Input i is "x" and i + 1, output i "y" and i + 1.
#[derive(Clone, Copy)]
pub struct Name(pub u8);

impl fmt::Display for Name {
    fn fmt<W: fmt::Write>(&self, f: &mut fmt::Formatter<W>) -> fmt::Result {
        match self.0.checked_sub(128) {
            None => write!(f, "x{}", u16::from(self.0) + 1),
            Some(output) => write!(f, "y{}", u16::from(output) + 1),
        }
    }
}

// "1 rail", "2 rails".
#[derive(Clone, Copy)]
pub struct Rails(pub u8);

impl fmt::Display for Rails {
    fn fmt<W: fmt::Write>(&self, f: &mut fmt::Formatter<W>) -> fmt::Result {
        match self.0 {
            1 => write!(f, "1 rail"),
            rails => write!(f, "{rails} rails"),
        }
    }
}

// " [2 rails]"; nothing where there are none.
#[derive(Clone, Copy)]
pub struct Bundle(pub u8);

impl fmt::Display for Bundle {
    fn fmt<W: fmt::Write>(&self, f: &mut fmt::Formatter<W>) -> fmt::Result {
        match self.0 {
            0 => Ok(()),
            rails => write!(f, " [{}]", Rails(rails)),
        }
    }
}
