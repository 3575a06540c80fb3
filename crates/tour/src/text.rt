// What the tour prints in its own way: numbers in hundredths.
use std::fmt;

// So many hundredths: 205 is printed as 2.05.
#[derive(Clone, Copy)]
pub(crate) struct Hundredths(pub(crate) u64);

impl fmt::Display for Hundredths {
    fn fmt<W: fmt::Write>(&self, f: &mut fmt::Formatter<W>) -> fmt::Result {
        let whole = self.0 / 100;
        let part = self.0 % 100;
        write!(f, "{whole}.{part:02}")
    }
}
